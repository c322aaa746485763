// "Velocity": Px and Py of every node in one pass over the triangles, then U' and V'.
ghost use Rattle.std.specs.Prelude.{◌≡◌, ◌*◌, ◌<◌, length, get_or, pos};
ghost use Rattle.std.specs.Float.{binary64};
ghost use Rattle.std.specs.Float.Ieee.{of_int};
ghost use Rattle.rows.specs.Refusals.{answered};
ghost use Rattle.rows.specs.Scan.{scan};
ghost use Rattle.lists.specs.Table.{table};
ghost use Rattle.lists.specs.Runs.{in_run};
ghost use Rattle.lists.specs.Private.{Below};
ghost use Rattle.quantities.specs.Operations.{less_if};
ghost use Rattle.velocity.specs.Velocity.{flow_of, push_of};
ghost use Rattle.geometry.specs.Geometry.{nodes_of};
ghost use Rattle.bounds.specs.State.{state_runs, node_of};
ghost use Rattle.bounds.specs.Forcing.{wind_runs, wind_at};
ghost use Rattle.passes.specs.Equations.{Given as StepReads, count, S};
ghost use Rattle.outcomes.specs.Outcomes.{flow_row};
ghost use Rattle.passes.specs.Row13.{flow_rows};
ghost use Rattle.passes.specs.Settle.{work_runs};
ghost use Rattle.passes.specs.Private.{given_of, Fits, both_of, slope_of, rise_room, slope_room, flow_room};

use super::state::Given;
use super::{reading, state, sums};
use geometry::Corners;
use mesh::Mesh;
use quantities::{Flow, Parameters, Sides};
use rows::Asked;

// What a triangle adds to Px and to Py of its corners.
#[derive(Clone, Copy)]
pub struct Slope {
    pub x: f64,
    pub y: f64,
}

// z + z' of node i, of n, with z' in the first run of the work room.
fn both_at(n: usize, state: &[f64], work: &[f64], i: usize) -> f64
    requires { (i < n) × (length state.now ≡ state_runs * n) × (length work.now ≡ work_runs * n) }
    ensures { result ≡ both_of n state.now work.now i }
{
    state[1 * n + i] + work[0 * n + i]
}

fn slope_of(n: usize, state: &[f64], work: &[f64], c: Corners, s: Sides) -> Slope
    requires { (Below (nodes_of c) n) × (length state.now ≡ state_runs * n) × (length work.now ≡ work_runs * n) }
    ensures { result ≡ slope_of n state.now work.now (nodes_of c) s }
{
    let b1 = both_at(n, state, work, c.n1);
    let b2 = both_at(n, state, work, c.n2);
    let b3 = both_at(n, state, work, c.n3);
    let x = triangle::slope(b1, b2, b3, s.b1, s.b2, s.b3);
    let y = triangle::slope(b1, b2, b3, s.a1, s.a2, s.a3);
    Slope { x, y }
}

// Px and Py of every node in the second and the third run of the work room, from zero.
pub(crate) fn slopes(work: &mut [f64], g: &Given<'_>)
    requires fits { Fits (given_of g.now) }
    requires work_value { work.old ≡ rise_room (given_of g.now) }
    ensures { work.new ≡ slope_room (given_of g.now) }
{
    let Given { mesh, state, .. } = *g;
    let n = mesh.x.len();
    let e = mesh.tri.len() / 3;
    for t in 0..e {
        let c = mesh::reading::corners_at(&mesh, t);
        let s = reading::floats_of(geometry::sides_of(reading::places_at(&mesh, c)));
        let v = slope_of(n, state, work, c, s);
        sums::spread(work, 1 * n, c, sums::alike(v.x));
        sums::spread(work, 2 * n, c, sums::alike(v.y));
    }
}

// U' and V' of node i, of n, from its z', Px and Py, Au and Av.
fn flow_at(
    n: usize,
    h: &[f64],
    kind: &[u8],
    p: Parameters,
    state: &[f64],
    winds: &[f64],
    sums: &[u64],
    rise: f64,
    px: f64,
    py: f64,
    au: f64,
    av: f64,
    i: usize,
) -> Flow
    requires i_lt_n { (i < n) × (length h.now ≡ n) × (length state.now ≡ state_runs * n) }
    requires kind_len { (length kind.now ≡ n) × (length winds.now ≡ wind_runs * n) × (length sums.now ≡ n) }
    ensures { result ≡ flow_of (less_if p.advection) p (get_or kind.now i 0) (push_of (node_of n h.now state.now i) (wind_at n winds.now i) (of_int binary64 (pos (get_or sums.now i 0))) rise px py au av) }
{
    let c = state::node_of(n, h, state, i);
    let new = state::wind_at(n, winds, i);
    let s = geometry::sum_of(sums[i]);
    velocity::flow_of(p, kind[i], c, new, s, rise, px, py, au, av)
}

// Px and Py of every node become its U' and V', and row 13 is tested on them, likewise.
pub(crate) fn flows(work: &mut [f64], sums: &[u64], g: &Given<'_>) -> Asked
    requires fits { Fits (given_of g.now) }
    requires work_value { let its = given_of g.now in (work.old ≡ slope_room its) × (sums.now ≡ table (count its) (S its)) × (length its.winds ≡ wind_runs * count its) }
    ensures { let its = given_of g.now in (answered result ≡ flow_rows its) × (work.new ≡ flow_room its) }
{
    let Given {
        mesh,
        p,
        state,
        winds,
        ..
    } = *g;
    let Mesh { h, kind, .. } = mesh;
    let n = mesh.x.len();
    let mut all = true;
    for i in 0..n {
        let z = work[0 * n + i];
        let px = work[1 * n + i];
        let py = work[2 * n + i];
        let au = work[3 * n + i];
        let av = work[4 * n + i];
        let v = flow_at(n, h, kind, p, state, winds, sums, z, px, py, au, av, i);
        work[1 * n + i] = v.u;
        work[2 * n + i] = v.v;
        all = all & outcomes::flow_row(v, i).is_ok();
    }
    if all {
        return Ok(());
    }
    refused_flow(n, work)
}

// The first node whose U' or V' row 13 refuses, likewise.
fn refused_flow(n: usize, work: &[f64]) -> Asked
    requires { length work.now ≡ work_runs * n }
    ensures value { answered result ≡ scan (λ i. flow_row (record { u = in_run n 1 work.now i; v = in_run n 2 work.now i }) i) n }
    ensures of_a_step { (g : StepReads) → work.now ≡ flow_room g → n ≡ count g → answered result ≡ flow_rows g }
{
    rows::scan(n, |i| {
        let u = work[1 * n + i];
        let v = work[2 * n + i];
        outcomes::flow_row(Flow { u, v }, i)
    })
}
