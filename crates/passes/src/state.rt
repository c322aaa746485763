// What a step reads, and what a node has in it.
ghost use Rattle.std.specs.Prelude.{◌≡◌, ◌*◌, ◌<◌, length};
ghost use Rattle.bounds.specs.State.{state_runs, node_of};
ghost use Rattle.bounds.specs.Forcing.{wind_runs, wind_at};

use mesh::Mesh;
use quantities::{Node, Parameters, Wind};

// A mesh and parameters, the state, and a forcing's elevation and its winds. A pass binds what it reads of it before its loop, so that the compiler keeps it
// in registers.
#[derive(Clone, Copy)]
pub struct Given<'a> {
    pub mesh: Mesh<'a>,
    pub p: Parameters,
    pub state: &'a [f64],
    pub elevation: f64,
    pub winds: &'a [f64],
}

pub(crate) fn node_of(n: usize, h: &[f64], state: &[f64], i: usize) -> Node
    requires { (i < n) × (length h.now ≡ n) × (length state.now ≡ state_runs * n) }
    ensures { result ≡ node_of n h.now state.now i }
{
    Node {
        h: h[i],
        earlier: state[0 * n + i],
        z: state[1 * n + i],
        u: state[2 * n + i],
        v: state[3 * n + i],
        wx: state[4 * n + i],
        wy: state[5 * n + i],
    }
}

pub(crate) fn wind_at(n: usize, winds: &[f64], i: usize) -> Wind
    requires { (i < n) × (length winds.now ≡ wind_runs * n) }
    ensures { result ≡ wind_at n winds.now i }
{
    Wind {
        x: winds[0 * n + i],
        y: winds[1 * n + i],
    }
}
