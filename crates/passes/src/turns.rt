// Further steps of a list, of #107: the state stands in `next`, and the next state takes its place there.
ghost use Rattle.std.specs.Prelude.{◌≡◌, cond, is_ok, [], ◌∷◌, ◌*◌, length};
ghost use Rattle.lists.specs.Runs.{in_run, runs_of};
ghost use Rattle.lists.specs.Private.{with_run};
ghost use Rattle.rows.specs.Refusals.{answered};
ghost use Rattle.mesh.specs.Lent.{mesh_of};
ghost use Rattle.mesh.specs.Private.{Shaped};
ghost use Rattle.bounds.specs.State.{state_runs};
ghost use Rattle.bounds.specs.Forcing.{wind_runs, forcing_length};
ghost use Rattle.passes.specs.Equations.{next_state};
ghost use Rattle.passes.specs.Settle.{work_runs};
ghost use Rattle.passes.specs.Private.{of_forcing, later_rows};

use super::state::Given;
use super::working;
use mesh::Mesh;
use quantities::Parameters;
use rows::Asked;

// z becomes the earlier elevation.
fn age(next: &mut [f64], n: usize)
    requires { length next.old ≡ state_runs * n }
    ensures { next.new ≡ with_run n 0 (in_run n 1 next.old) next.old }
{
    for i in 0..n {
        next[i] = next[1 * n + i];
    }
}

// The next state in the place of the state.
fn replace(next: &mut [f64], n: usize, work: &[f64], winds: &[f64])
    requires { (length next.old ≡ state_runs * n) × (length work.now ≡ work_runs * n) × (length winds.now ≡ wind_runs * n) }
    ensures { next.new ≡ runs_of n (in_run n 1 next.old ∷ in_run n 0 work.now ∷ in_run n 1 work.now ∷ in_run n 2 work.now ∷ in_run n 0 winds.now ∷ in_run n 1 winds.now ∷ []) }
{
    age(next, n);
    working::write_new(next, n, work, winds);
}

// One further step: rows 11 and 12 of its forcing, then row 13, and the next state where they accept. The work room may hold anything, before and after.
pub(crate) fn go_on(
    next: &mut [f64],
    work: &mut [f64],
    sums: &mut [u64],
    m: &Mesh<'_>,
    p: Parameters,
    f: &[f64],
    step: u32,
) -> Asked
    requires shaped { Shaped (mesh_of m.now) }
    requires next_len { let n = length m.now.x.now in (length next.old ≡ state_runs * n) × (length work.old ≡ work_runs * n) × (length sums.old ≡ n) × (length f.now ≡ forcing_length n) }
    ensures { (answered result ≡ later_rows (mesh_of m.now) p step f.now next.old) × (next.new ≡ cond (is_ok result) (next_state (of_forcing (mesh_of m.now) p f.now next.old)) next.old) }
{
    limits::may_count(step)?;
    bounds::weather_rows(m.x.len(), f)?;
    let winds = &f[1..];
    let g = Given {
        mesh: *m,
        p,
        state: next,
        elevation: f[0],
        winds,
    };
    working::solve(work, sums, &g)?;
    replace(next, m.x.len(), work, winds);
    Ok(())
}
