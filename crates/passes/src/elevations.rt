// "Elevation": R and S of every node in one pass over the triangles, and Au and Av, which are made of the same records; then z'.
ghost use Rattle.std.specs.Prelude.{◌≡◌, ◌*◌, length, get_or};
ghost use Rattle.std.specs.Float.{nan};
ghost use Rattle.rows.specs.Refusals.{answered};
ghost use Rattle.rows.specs.Scan.{scan};
ghost use Rattle.lists.specs.Table.{table};
ghost use Rattle.lists.specs.Runs.{in_run};
ghost use Rattle.lists.specs.Private.{Below};
ghost use Rattle.triangle.specs.Triangle.{means};
ghost use Rattle.geometry.specs.Geometry.{nodes_of};
ghost use Rattle.bounds.specs.State.{state_runs, node_of};
ghost use Rattle.passes.specs.Equations.{Given as StepReads, count, S};
ghost use Rattle.outcomes.specs.Outcomes.{rise_row};
ghost use Rattle.passes.specs.Row13.{rise_rows};
ghost use Rattle.passes.specs.Settle.{work_runs};
ghost use Rattle.passes.specs.Private.{given_of, Fits, sum_room, rise_room};

use super::state::Given;
use super::{reading, state, sums};
use geometry::Corners;
use lists::slices;
use mesh::Mesh;
use quantities::Sides;
use rows::Asked;
use triangle::Means;

// The record of a triangle.
fn means_at(n: usize, h: &[f64], state: &[f64], c: Corners, s: Sides) -> Means
    requires { (Below (nodes_of c) n) × (length h.now ≡ n) × (length state.now ≡ state_runs * n) }
    ensures { result ≡ means (node_of n h.now state.now c.n1) (node_of n h.now state.now c.n2) (node_of n h.now state.now c.n3) s }
{
    let n1 = state::node_of(n, h, state, c.n1);
    let n2 = state::node_of(n, h, state, c.n2);
    let n3 = state::node_of(n, h, state, c.n3);
    triangle::means_of(n1, n2, n3, s)
}

// R of every node in the first run of the work room, Au and Av in the last two where advection is on, and S in the sums. What is lent may hold
// anything, and each sum starts at zero. Au and Av come before R, so that both tests of the setting stand together: the compiler makes one of them, and works
// out Xu, Yu, Xv and Yv only where it is on (docs/SPEED.md).
pub(crate) fn assemble(work: &mut [f64], sums: &mut [u64], g: &Given<'_>)
    requires fits { Fits (given_of g.now) }
    requires work_len { let n = count (given_of g.now) in (length work.old ≡ work_runs * n) × (length sums.old ≡ n) }
    ensures { let its = given_of g.now in (work.new ≡ sum_room its) × (sums.new ≡ table (count its) (S its)) }
{
    slices::clear(work);
    slices::clear_whole(sums);
    let Given { mesh, p, state, .. } = *g;
    let h = mesh.h;
    let n = mesh.x.len();
    let e = mesh.tri.len() / 3;
    for t in 0..e {
        let c = mesh::reading::corners_at(&mesh, t);
        let q = reading::places_at(&mesh, c);
        let whole = geometry::sides_of(q);
        let s = reading::floats_of(whole);
        let m = means_at(n, h, state, c, s);
        sums::spread_advection(work, n, c, p.advection, m);
        sums::spread(work, 0 * n, c, elevation::shares(p, m, s));
        sums::spread_area(sums, c, reading::area_of(whole));
    }
}

// R of every node becomes its z', and row 13 is tested on it: on all before the place is looked for, as in row 8.
pub(crate) fn rises(work: &mut [f64], sums: &[u64], g: &Given<'_>) -> Asked
    requires fits { Fits (given_of g.now) }
    requires work_value { let its = given_of g.now in (work.old ≡ sum_room its) × (sums.now ≡ table (count its) (S its)) }
    ensures { let its = given_of g.now in (answered result ≡ rise_rows its) × (work.new ≡ rise_room its) }
{
    let Given {
        mesh,
        p,
        state,
        elevation,
        ..
    } = *g;
    let Mesh { h, kind, .. } = mesh;
    let n = mesh.x.len();
    let mut all = true;
    for i in 0..n {
        let c = state::node_of(n, h, state, i);
        let s = geometry::sum_of(sums[i]);
        let z = elevation::rise_of(p, kind[i], elevation, c, s, work[0 * n + i]);
        work[0 * n + i] = z;
        all = all & outcomes::rise_row(c.h, z, i).is_ok();
    }
    if all {
        return Ok(());
    }
    refused_rise(n, h, work)
}

// The first node whose z' row 13 refuses: of any room, and so of the room that a step leaves.
fn refused_rise(n: usize, h: &[f64], work: &[f64]) -> Asked
    requires { (length h.now ≡ n) × (length work.now ≡ work_runs * n) }
    ensures value { answered result ≡ scan (λ i. rise_row (get_or h.now i nan) (in_run n 0 work.now i) i) n }
    ensures of_a_step { (g : StepReads) → h.now ≡ g.mesh.h → work.now ≡ rise_room g → n ≡ count g → answered result ≡ rise_rows g }
{
    rows::scan(n, |i| outcomes::rise_row(h[i], work[0 * n + i], i))
}
