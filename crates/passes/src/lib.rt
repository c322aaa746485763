// The engine by triangles: row 13 and the equations, after what a call asks.
#![tactic(auto)]

pub(crate) mod elevations;
pub(crate) mod reading;
pub(crate) mod state;
pub(crate) mod sums;
pub(crate) mod turns;
pub(crate) mod velocities;
pub(crate) mod working;

ghost use Rattle.std.specs.Prelude.{◌≡◌, cond, is_ok, ◌&&◌, ◌+◌, ◌-◌, ◌*◌, ◌/◌, ◌<◌, ◌≤◌, length};
ghost use Rattle.rows.specs.Refusals.{answered_by, answered};
ghost use Rattle.rows.specs.Scan.{accepted, row};
ghost use Rattle.lists.specs.Table.{table, zeros};
ghost use Rattle.lists.specs.Runs.{is_runs};
ghost use Rattle.mesh.specs.Lent.{mesh_of};
ghost use Rattle.mesh.specs.Private.{Shaped};
ghost use Rattle.bounds.specs.State.{state_runs, run_rows};
ghost use Rattle.bounds.specs.Forcing.{forcing_length, forcing_at};
ghost use Rattle.passes.specs.Settle.{work_runs, lent_rooms, settled, settle_of};
ghost use Rattle.passes.specs.SettleAll.{progress_of, turns, settle_all_of};
ghost use Rattle.passes.specs.Private.{onward_of, onward};

use bounds::{STATE_RUNS, WIND_RUNS};
use lists::slices;
use mesh::Mesh;
use quantities::Parameters;
use rows::{Asked, Row, Says};
use state::Given;

// The runs of a work room: R and then z', Px and then U', Py and then V', Au, Av.
pub const WORK_RUNS: usize = 5;

// Those of a list: six more.
pub const LIST_RUNS: usize = 11;

// What a list hands back: the answer, the step number, and how many of its steps were accepted.
#[derive(Clone, Copy)]
pub struct Progress {
    pub asked: Asked,
    pub step: u32,
    pub accepted: u32,
}

// Row 1 of the rooms, by their lengths, with so many runs of work room.
fn rooms_row(next: usize, work: usize, sums: usize, runs: usize, n: usize) -> Asked
    ensures { answered result ≡ row (is_runs next state_runs n && is_runs work runs n && is_runs sums 1 n) 1 0 }
{
    let all = slices::is_runs(next, STATE_RUNS, n)
        & slices::is_runs(work, runs, n)
        & slices::is_runs(sums, 1, n);
    rows::tested(all, Row::Lengths, 0)
}

// What a call on a run tests, then what else was tested and row 12 of the forcing, then row 13 and the next state in `next`. A refusal before 13 leaves
// all as found; 13 leaves the work room zero.
pub fn settle<E: Says>(
    next: &mut [f64],
    work: &mut [f64],
    sums: &mut [u64],
    m: &Mesh<'_>,
    p: Parameters,
    state: &[f64],
    f: &[f64],
    also: Result<(), E>,
) -> Result<(), E>
    ensures { settled (answered_by E.says result) next.new work.new sums.new ≡ settle_of (mesh_of m.now) p state.now f.now (answered_by E.says also) (lent_rooms next.old work.old sums.old) }
{
    let rooms = rooms_row(next.len(), work.len(), sums.len(), WORK_RUNS, m.x.len());
    bounds::forced_rows(rows::first(Ok(()), rooms), m, p, state, also, f)?;
    let g = Given {
        mesh: *m,
        p,
        state,
        elevation: f[0],
        winds: &f[1..],
    };
    working::work_out(next, work, sums, &g)?;
    Ok(())
}

// No step was accepted.
fn unmoved(asked: Asked, step: u32) -> Progress
    ensures { result ≡ record { asked = asked; step = step; accepted = 0 } }
{
    Progress {
        asked,
        step,
        accepted: 0,
    }
}

// No forcing at all: the run's rows, and the state as it is.
fn settle_none(next: &mut [f64], m: &Mesh<'_>, p: Parameters, state: &[f64]) -> Asked
    requires { length next.old ≡ state_runs * length m.now.x.now }
    ensures { (answered result ≡ run_rows accepted (mesh_of m.now) p state.now) × (next.new ≡ cond (is_ok result) state.now next.old) }
{
    bounds::run_rows(Ok(()), m, p, state)?;
    slices::copy(next, state);
    Ok(())
}

// The forcings past the first, from the state after that one.
fn further(
    next: &mut [f64],
    work: &mut [f64],
    sums: &mut [u64],
    m: &Mesh<'_>,
    p: Parameters,
    list: &[f64],
    from: u32,
) -> Progress
    requires shaped { Shaped (mesh_of m.now) }
    requires next_len { let n = length m.now.x.now in (length next.old ≡ state_runs * n) × (length work.old ≡ work_runs * n) × (length sums.old ≡ n) }
    requires from_bound { (from < 4294967295) × (1 ≤ length list.now / forcing_length (length m.now.x.now)) }
    ensures { let n = length m.now.x.now in (result.step ≡ from + result.accepted) × (onward_of (answered result.asked) result.accepted next.new ≡ onward (mesh_of m.now) p from (forcing_at n list.now) (length list.now / forcing_length n - 1) 1 next.old) }
{
    let long = 1 + WIND_RUNS * m.x.len();
    let count = list.len() / long;
    let mut step = from + 1;
    for j in 1..count {
        let here = j * long;
        let past = here + long;
        let asked = turns::go_on(next, work, sums, m, p, &list[here..past], step);
        if asked.is_err() {
            return Progress {
                asked,
                step,
                accepted: step - from,
            };
        }
        step = step + 1;
    }
    Progress {
        asked: Ok(()),
        step,
        accepted: step - from,
    }
}

// The same, lent the whole work room of a list, which is left zero.
fn rest_of(
    next: &mut [f64],
    work: &mut [f64],
    sums: &mut [u64],
    m: &Mesh<'_>,
    p: Parameters,
    list: &[f64],
    from: u32,
) -> Progress
    requires shaped { Shaped (mesh_of m.now) }
    requires next_len { let n = length m.now.x.now in (length next.old ≡ state_runs * n) × (work_runs * n ≤ length work.old) × (length sums.old ≡ n) }
    requires from_bound { (from < 4294967295) × (1 ≤ length list.now / forcing_length (length m.now.x.now)) }
    ensures step_value { let n = length m.now.x.now in (result.step ≡ from + result.accepted) × (onward_of (answered result.asked) result.accepted next.new ≡ onward (mesh_of m.now) p from (forcing_at n list.now) (length list.now / forcing_length n - 1) 1 next.old) }
    ensures work_after { (work.new ≡ zeros (length work.old)) × (sums.new ≡ table (length sums.old) (λ _. 0)) }
{
    let own = WORK_RUNS * m.x.len();
    let made = further(next, &mut work[..own], sums, m, p, list, from);
    slices::clear(work);
    slices::clear_whole(sums);
    made
}

// The forcings of a list, one after another, with `next` and the work room as single calls would leave them. The first is settled as a single one, with all
// rows before 11; those past it ask 11 to 13 alone.
pub fn settle_all(
    next: &mut [f64],
    work: &mut [f64],
    sums: &mut [u64],
    m: &Mesh<'_>,
    p: Parameters,
    state: &[f64],
    list: &[f64],
    step: u32,
) -> Progress
    ensures { turns (progress_of result) next.new work.new sums.new ≡ settle_all_of (mesh_of m.now) p state.now step list.now (lent_rooms next.old work.old sums.old) }
{
    let n = m.x.len();
    let rooms = rooms_row(next.len(), work.len(), sums.len(), LIST_RUNS, n);
    let asked = bounds::list_rows(rooms, m, list);
    if asked.is_err() {
        return unmoved(asked, step);
    }
    if list.len() == 0 {
        return unmoved(settle_none(next, m, p, state), step);
    }
    let long = 1 + WIND_RUNS * n;
    let own = WORK_RUNS * n;
    let first = settle(
        next,
        &mut work[..own],
        sums,
        m,
        p,
        state,
        &list[..long],
        limits::may_count(step),
    );
    if first.is_err() {
        return unmoved(first, step);
    }
    rest_of(next, work, sums, m, p, list, step)
}

#[cfg(test)]
mod tests {
    use super::{Mesh, Parameters, settle};
    use rows::answers;

    // An answer that no row gives, asked among the rows, is handed on as it is, before row 12.
    #[test]
    fn any_answer_is_handed_on(rt: HostRuntime) {
        let m = Mesh {
            x: &[0, 100, 0],
            y: &[0, 0, 100],
            tri: &[0, 1, 2],
            h: &[5.0; 3],
            kind: &[0; 3],
        };
        let p = Parameters {
            dt: 1.0,
            tau: 0.01,
            k: 0.0,
            f: 0.0,
            advection: false,
        };
        let also = answers::asked(answers::refuse(99, 7));
        let mut next = [0.0; 18];
        let mut work = [0.0; 15];
        let mut sums = [0; 3];
        let state = [0.0; 18];
        let asked = settle(
            &mut next, &mut work, &mut sums, &m, p, &state, &[99.0; 7], also,
        );
        let answer = asked.err().unwrap_or(answers::accept());
        assert_eq!(rt; (answer.number, answer.place), (99, 7));
    }
}
