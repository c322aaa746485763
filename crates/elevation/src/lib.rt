// The formulas of "Elevation" on single values: what a triangle gives to its corners, and what a node makes of it.
#![tactic(auto)]

ghost use Rattle.std.specs.Prelude.{◌≡◌};
ghost use Rattle.quantities.specs.Operations.{◌⊕◌, ◌⊗◌, ◌⊘◌, less_if};
ghost use Rattle.elevation.specs.Elevation.{Jx, Jy, corner, shares, L, z', rise_of};

use quantities::{G, Node, Parameters, Shares, Sides};
use triangle::Means;

// With the advective term of X and Y, of U or of V, taken, where the setting is on.
fn carried(run: Parameters, m: Means, d: f64, from: f64, x: f64, y: f64) -> f64
    ensures { result ≡ less_if run.advection from ((m.qx ⊗ x ⊕ m.qy ⊗ y) ⊘ d) }
{
    if run.advection {
        from - (m.qx * x + m.qy * y) / d
    } else {
        from
    }
}

fn jx(run: Parameters, m: Means, d: f64) -> f64
    ensures { result ≡ Jx (less_if run.advection) run m d }
{
    let carried = carried(run, m, d, run.f * m.qy, m.xu, m.yu);
    ((((carried - (G * m.sx) / (2.0 * d)) + m.wx) - run.k * m.ub) + (m.ub * m.z) / run.dt)
        + run.tau * m.qx
}

fn jy(run: Parameters, m: Means, d: f64) -> f64
    ensures { result ≡ Jy (less_if run.advection) run m d }
{
    let carried = carried(run, m, d, (-run.f) * m.qx, m.xv, m.yv);
    ((((carried - (G * m.sy) / (2.0 * d)) + m.wy) - run.k * m.vb) + (m.vb * m.z) / run.dt)
        + run.tau * m.qy
}

fn corner(m: Means, d: f64, jx: f64, jy: f64, a: f64, b: f64) -> f64
    ensures { result ≡ corner m d jx jy a b }
{
    (jx * b + jy * a) / 2.0 - ((G * m.hb) * (m.gx * b + m.gy * a)) / (2.0 * d)
}

// The one record of the triangle serves its three corners.
pub fn shares(run: Parameters, m: Means, s: Sides) -> Shares
    ensures { result ≡ shares (less_if run.advection) run m s }
{
    let x = jx(run, m, s.d);
    let y = jy(run, m, s.d);
    Shares {
        r1: corner(m, s.d, x, y, s.a1, s.b1),
        r2: corner(m, s.d, x, y, s.a2, s.b2),
        r3: corner(m, s.d, x, y, s.a3, s.b3),
    }
}

// L, of a node's sum S.
fn lumped(s: f64, dt: f64) -> f64
    ensures { result ≡ L s dt }
{
    (s / 6.0) / dt
}

// z', of L, z, z* and R.
fn rise(run: Parameters, l: f64, z: f64, zs: f64, r: f64) -> f64
    ensures { result ≡ z' run l z zs r }
{
    z + ((l * (1.0 / run.dt - run.tau / 2.0)) * zs + r) / (l * (1.0 / run.dt + run.tau / 2.0))
}

// z' of a node, from its sums S and R. An open node's is chosen last, so that the loop over the nodes has no branch.
pub fn rise_of(run: Parameters, kind: u8, elevation: f64, c: Node, s: f64, r: f64) -> f64
    ensures { result ≡ rise_of run kind elevation c s r }
{
    let rise = rise(run, lumped(s, run.dt), c.z, c.z - c.earlier, r);
    if kind == 1 { elevation } else { rise }
}
