// The formulas of "Velocity" on single values: the pair U', V' of one node.
#![tactic(auto)]

ghost use Rattle.std.specs.Prelude.{◌≡◌};
ghost use Rattle.quantities.specs.Operations.{◌⊗◌, ◌⊘◌, less_if};
ghost use Rattle.velocity.specs.Velocity.{flow, flow_of, push_of};

use quantities::{Flow, G, Node, Parameters, Push, Wind};

// With the advective term of a node's sum Au or Av taken, where the setting is on.
fn carried(run: Parameters, from: f64, sum: f64, s: f64) -> f64
    ensures { result ≡ less_if run.advection from ((run.dt ⊗ sum) ⊘ s) }
{
    if run.advection {
        from - (run.dt * sum) / s
    } else {
        from
    }
}

// The two are solved as a pair: each is made from Rx and Ry, and V' never from U'.
fn flow(run: Parameters, node: Push) -> Flow
    ensures { result ≡ flow run node (less_if run.advection) }
{
    let column = node.h + node.z;
    let column_new = node.h + node.rise;
    let r = (run.dt * run.k) / (2.0 * column_new);
    let p = 1.0 + r;
    let m = 1.0 - (run.dt * run.k) / (2.0 * column);
    let q = (run.f * run.dt) / 2.0;
    let gx = ((G * run.dt) * node.px) / (2.0 * node.s);
    let gy = ((G * run.dt) * node.py) / (2.0 * node.s);
    let wx = (run.dt * (node.wx_new / column_new + node.wx / column)) / 2.0;
    let wy = (run.dt * (node.wy_new / column_new + node.wy / column)) / 2.0;
    let pulled_x = (m * node.u + q * node.v) - gx;
    let pulled_y = (m * node.v - q * node.u) - gy;
    let rx = carried(run, pulled_x, node.au, node.s) + wx;
    let ry = carried(run, pulled_y, node.av, node.s) + wy;
    let n = p * p + q * q;
    let u = (p * rx + q * ry) / n;
    let v = (p * ry - q * rx) / n;
    Flow { u, v }
}

// U' and V' of a node, from what it holds and its new wind, its sum S, its z', Px and Py, Au and Av. A held land node's are chosen last, so that the loop
// over the nodes has no branch.
pub fn flow_of(
    run: Parameters,
    kind: u8,
    c: Node,
    new: Wind,
    s: f64,
    rise: f64,
    px: f64,
    py: f64,
    au: f64,
    av: f64,
) -> Flow
    ensures { result ≡ flow_of (less_if run.advection) run kind (push_of c new s rise px py au av) }
{
    let node = Push {
        h: c.h,
        z: c.z,
        rise,
        u: c.u,
        v: c.v,
        px,
        py,
        au,
        av,
        s,
        wx: c.wx,
        wy: c.wy,
        wx_new: new.x,
        wy_new: new.y,
    };
    let free = flow(run, node);
    let held = kind == 2;
    let u = if held { 0.0 } else { free.u };
    let v = if held { 0.0 } else { free.v };
    Flow { u, v }
}
