// What a triangle has in the lent slices, and its a, b and D as the passes take them: row 4 has been asked of its sides, so that no test is made here.
ghost use Rattle.std.specs.Prelude.{◌≡◌, true, ◌≤◌, ◌^◌, nat_abs, pos, length};
ghost use Rattle.std.specs.Float.Ieee.{of_int};
ghost use Rattle.std.specs.Float.{binary64};
ghost use Rattle.geometry.specs.Geometry.{all_near, D, floats, nodes_of};
ghost use Rattle.lists.specs.Private.{Below};
ghost use Rattle.mesh.specs.Geometry.{places_of};

use geometry::{Corners, Places, WholeSides};
use mesh::Mesh;
use quantities::Sides;

// The coordinates of a triangle's corners.
pub(crate) fn places_at(m: &Mesh<'_>, c: Corners) -> Places
    requires { (length m.now.y.now ≡ length m.now.x.now) × Below (nodes_of c) (length m.now.x.now) }
    ensures { result ≡ places_of m.now.x.now m.now.y.now (nodes_of c) }
{
    Places {
        x1: m.x[c.n1],
        x2: m.x[c.n2],
        x3: m.x[c.n3],
        y1: m.y[c.n1],
        y2: m.y[c.n2],
        y3: m.y[c.n3],
    }
}

// D, twice the area.
fn twice_area(s: WholeSides) -> i64
    requires { all_near s ≡ true }
    ensures { result ≡ D s }
{
    s.a3 * s.b2 - s.a2 * s.b3
}

// D as a count: after row 5 it is above 0.
pub(crate) fn area_of(s: WholeSides) -> u64
    requires { (all_near s ≡ true) × (D s ≡ pos (nat_abs (D s))) }
    ensures { result ≡ nat_abs (D s) }
{
    twice_area(s) as u64
}

// An a, a b or a D as a float.
fn exact(v: i64) -> f64
    requires { nat_abs v ≤ 2 ^ 53 }
    ensures { result ≡ of_int binary64 v }
{
    v as f64
}

// The one place where a float a, b or D is made.
pub(crate) fn floats_of(s: WholeSides) -> Sides
    requires { all_near s ≡ true }
    ensures { result ≡ floats s }
{
    Sides {
        a1: exact(s.a1),
        a2: exact(s.a2),
        a3: exact(s.a3),
        b1: exact(s.b1),
        b2: exact(s.b2),
        b3: exact(s.b3),
        d: exact(twice_area(s)),
    }
}
