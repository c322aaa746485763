// The state and a forcing: the mesh's rows and row 10, and row 12, in the document's order.
#![tactic(auto)]

pub(crate) mod forcing;

ghost use Rattle.std.specs.Prelude.{◌≡◌, ◌*◌, ◌<◌, length};
ghost use Rattle.rows.specs.Refusals.{answered_by, answered};
ghost use Rattle.rows.specs.Scan.{scan};
ghost use Rattle.mesh.specs.Lent.{mesh_of};
ghost use Rattle.bounds.specs.State.{state_runs, node_of, row10, run_rows};
ghost use Rattle.bounds.specs.Forcing.{forced_rows, weather_rows, list_rows};

use lists::slices;
use mesh::Mesh;
use quantities::{Node, Parameters};
use rows::{Asked, Row, Says};

// The runs of a state: earlier elevation, present elevation, U, V, Wx, Wy.
pub const STATE_RUNS: usize = 6;

// The runs of a forcing's winds: Wx', Wy'.
pub const WIND_RUNS: usize = forcing::WIND_RUNS;

// A list has at most so many forcings.
const MOST_FORCINGS: usize = 4096;

// Node i of n, as the state has it.
fn node_of(n: usize, h: &[f64], state: &[f64], i: usize) -> Node
    requires { (i < n) × (length h.now ≡ n) × (length state.now ≡ state_runs * n) }
    ensures { result ≡ node_of n h.now state.now i }
{
    Node {
        h: h[i],
        earlier: state[0 * n + i],
        z: state[1 * n + i],
        u: state[2 * n + i],
        v: state[3 * n + i],
        wx: state[4 * n + i],
        wy: state[5 * n + i],
    }
}

// Row 10: the first node that is out of its bounds.
fn nodes(n: usize, h: &[f64], state: &[f64]) -> Asked
    requires { (length h.now ≡ n) × (length state.now ≡ state_runs * n) }
    ensures { answered result ≡ scan (row10 n h.now state.now) n }
{
    rows::scan_tests(n, |i| {
        rows::tested(limits::in_bounds(node_of(n, h, state, i)), Row::State, i)
    })
}

// What the call tests before, the state's length, the mesh's rows, then row 10.
pub fn run_rows<E: Says>(
    asked: Result<(), E>,
    m: &Mesh<'_>,
    p: Parameters,
    state: &[f64],
) -> Result<(), E>
    ensures { answered_by E.says result ≡ run_rows (answered_by E.says asked) (mesh_of m.now) p state.now }
{
    let n = m.x.len();
    let long = rows::tested(slices::is_runs(state.len(), STATE_RUNS, n), Row::Lengths, 0);
    nodes::mesh_rows(rows::first(asked, long), m, p)?;
    nodes(n, m.h, state)?;
    Ok(())
}

// What a step tests before anything is worked out: the run's rows with the forcing's length among those of row 1, what else was tested, then row 12.
pub fn forced_rows<E: Says>(
    asked: Result<(), E>,
    m: &Mesh<'_>,
    p: Parameters,
    state: &[f64],
    also: Result<(), E>,
    f: &[f64],
) -> Result<(), E>
    ensures { answered_by E.says result ≡ forced_rows (answered_by E.says asked) (mesh_of m.now) p state.now (answered_by E.says also) f.now }
{
    let n = m.x.len();
    let long = rows::tested(forcing::is_forcing(n, f), Row::Lengths, 0);
    run_rows(rows::first(asked, long), m, p, state)?;
    also?;
    forcing::forcing_rows(n, f)?;
    Ok(())
}

// What a further step of a list tests of its forcing, of n nodes.
pub fn weather_rows(n: usize, f: &[f64]) -> Asked
    ensures { answered result ≡ weather_rows n f.now }
{
    rows::tested(forcing::is_forcing(n, f), Row::Lengths, 0)?;
    forcing::forcing_rows(n, f)
}

// Row 14 of a list on this mesh, then row 1: what else the call tests of its slices, and that no forcing is cut short. Its length is divided, and not
// 4,096 forcings' multiplied, so that nothing overflows.
pub fn list_rows<E: Says>(asked: Result<(), E>, m: &Mesh<'_>, list: &[f64]) -> Result<(), E>
    ensures { answered_by E.says result ≡ list_rows (answered_by E.says asked) (length m.now.x.now) list.now }
{
    let long = 1 + WIND_RUNS * m.x.len();
    let few = (list.len() + (MOST_FORCINGS - 1)) / MOST_FORCINGS <= long;
    rows::tested(few, Row::ListLength, 0)?;
    asked?;
    rows::tested(list.len() % long == 0, Row::Lengths, 0)?;
    Ok(())
}

#[cfg(test)]
mod tests {
    use super::{Mesh, Parameters, forced_rows, list_rows, run_rows};
    use rows::answers;

    // An answer that no row gives, asked before or among the rows, is handed on as it is.
    #[test]
    fn any_answer_is_handed_on(rt: HostRuntime) {
        let other = answers::asked(answers::refuse(99, 7));
        let m = Mesh {
            x: &[0, 100, 0],
            y: &[0, 0, 100],
            tri: &[0, 1, 2],
            h: &[5.0; 3],
            kind: &[0; 3],
        };
        let p = Parameters {
            dt: 1.0,
            tau: 0.01,
            k: 0.0,
            f: 0.0,
            advection: false,
        };
        let state = [0.0; 18];
        let run = run_rows(other, &m, p, &state);
        let forced = forced_rows(other, &m, p, &state, Ok(()), &[0.0; 7]);
        let also = forced_rows(Ok(()), &m, p, &state, other, &[99.0; 7]);
        let list = list_rows(other, &m, &[0.0; 8]);
        for asked in [run, forced, also, list] {
            let answer = asked.err().unwrap_or(answers::accept());
            assert_eq!(rt; (answer.number, answer.place), (99, 7));
        }
    }
}
