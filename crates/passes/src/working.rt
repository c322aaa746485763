// Row 13 and the next state, once all before them has been asked: the passes one after the other.
ghost use Rattle.std.specs.Prelude.{◌≡◌, cond, is_ok, IsOk, [], ◌∷◌, suc, ◌*◌, ◌≤◌, length};
ghost use Rattle.rows.specs.Refusals.{answered};
ghost use Rattle.lists.specs.Table.{table, zeros};
ghost use Rattle.lists.specs.Runs.{in_run, runs_of};
ghost use Rattle.lists.specs.Private.{with_run};
ghost use Rattle.bounds.specs.State.{state_runs};
ghost use Rattle.bounds.specs.Forcing.{wind_runs};
ghost use Rattle.passes.specs.Equations.{count, next_state};
ghost use Rattle.passes.specs.Row13.{row13};
ghost use Rattle.passes.specs.Settle.{work_runs};
ghost use Rattle.passes.specs.Private.{given_of, Fits, flow_room, with_new};

use super::state::Given;
use super::{elevations, velocities};
use lists::slices;
use rows::Asked;

// Row 13, with z', U' and V' of every node in the work room where it accepts. Every pass is lent all that a step reads, so that its contract can
// name it as one.
pub(crate) fn solve(work: &mut [f64], sums: &mut [u64], g: &Given<'_>) -> Asked
    requires fits { Fits (given_of g.now) }
    requires work_len { let its = given_of g.now in (length work.old ≡ work_runs * count its) × (length sums.old ≡ count its) × (length its.winds ≡ wind_runs * count its) }
    ensures { let its = given_of g.now in (answered result ≡ row13 its) × (IsOk result → work.new ≡ flow_room its) }
{
    elevations::assemble(work, sums, g);
    elevations::rises(work, sums, g)?;
    velocities::slopes(work, g);
    velocities::flows(work, sums, g)
}

// Run b of `from` into run a of `to`.
fn copy_run(to: &mut [f64], n: usize, a: usize, from: &[f64], b: usize)
    requires { (suc a * n ≤ length to.old) × (suc b * n ≤ length from.now) }
    ensures { to.new ≡ with_run n a (in_run n b from.now) to.old }
{
    let here = a * n;
    let past = here + n;
    let its = b * n;
    let end = its + n;
    slices::copy(&mut to[here..past], &from[its..end]);
}

// z', U' and V' as the work room has them, and the new winds.
pub(crate) fn write_new(next: &mut [f64], n: usize, work: &[f64], winds: &[f64])
    requires { (length next.old ≡ state_runs * n) × (length work.now ≡ work_runs * n) × (length winds.now ≡ wind_runs * n) }
    ensures { next.new ≡ with_new n work.now winds.now next.old }
{
    copy_run(next, n, 1, work, 0);
    copy_run(next, n, 2, work, 1);
    copy_run(next, n, 3, work, 2);
    copy_run(next, n, 4, winds, 0);
    copy_run(next, n, 5, winds, 1);
}

// The next state: z, and then what is new.
fn publish(next: &mut [f64], n: usize, state: &[f64], work: &[f64], winds: &[f64])
    requires { (length next.old ≡ state_runs * n) × (length state.now ≡ state_runs * n) × (length work.now ≡ work_runs * n) × (length winds.now ≡ wind_runs * n) }
    ensures { next.new ≡ runs_of n (in_run n 1 state.now ∷ in_run n 0 work.now ∷ in_run n 1 work.now ∷ in_run n 2 work.now ∷ in_run n 0 winds.now ∷ in_run n 1 winds.now ∷ []) }
{
    copy_run(next, n, 0, state, 1);
    write_new(next, n, work, winds);
}

// Row 13, and the next state where it accepts. The work room is left zero.
pub(crate) fn work_out(next: &mut [f64], work: &mut [f64], sums: &mut [u64], g: &Given<'_>) -> Asked
    requires fits { Fits (given_of g.now) }
    requires next_len { let its = given_of g.now in (length next.old ≡ state_runs * count its) × (length work.old ≡ work_runs * count its) × (length sums.old ≡ count its) × (length its.winds ≡ wind_runs * count its) }
    ensures value { let its = given_of g.now in (answered result ≡ row13 its) × (next.new ≡ cond (is_ok result) (next_state its) next.old) }
    ensures work_after { let n = count (given_of g.now) in (work.new ≡ zeros (work_runs * n)) × (sums.new ≡ table n (λ _. 0)) }
{
    let asked = solve(work, sums, g);
    if asked.is_ok() {
        publish(next, g.mesh.x.len(), g.state, work, g.winds);
    }
    slices::clear(work);
    slices::clear_whole(sums);
    asked
}
