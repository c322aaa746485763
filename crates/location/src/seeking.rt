// A point among the triangles. Rows 1 to 10 have been asked, so that no test is made here of the sides or of the state's length.
ghost use Rattle.std.specs.Prelude.{◌≡◌, ℕ, ◌*◌, ◌/◌, ◌<◌, true, length};
ghost use Rattle.lists.specs.Runs.{in_run};
ghost use Rattle.lists.specs.Private.{Below};
ghost use Rattle.geometry.specs.Geometry.{nodes_of, east_of, north_of, sides_at, all_near, D};
ghost use Rattle.mesh.specs.Geometry.{places_of};
ghost use Rattle.mesh.specs.Private.{Sound};
ghost use Rattle.bounds.specs.State.{state_runs};
ghost use Rattle.location.specs.Private.{Short, for_second, for_third, where_inside};
ghost use Rattle.location.specs.Location.{weights, elevation, weights_at, contains, triangle_of, is_inside, sighted};

use geometry::{Corners, Places, WholeSides};
use mesh::{Mesh, reading};

// A point in whole metres.
#[derive(Clone, Copy)]
pub struct Point {
    pub x: i32,
    pub y: i32,
}

// The three doubled sub-areas of a point in a triangle, each named for the corner it lies opposite, and D.
#[derive(Clone, Copy)]
pub struct Weights {
    pub w1: i64,
    pub w2: i64,
    pub w3: i64,
    pub d: i64,
}

// The triangle that contains a point, and the elevation there.
#[derive(Clone, Copy)]
pub struct Sighting {
    pub triangle: usize,
    pub level: f64,
}

// D of these sides.
fn twice_area(s: WholeSides) -> i64
    requires { Short s }
    ensures { result ≡ D s }
{
    s.a3 * s.b2 - s.a2 * s.b3
}

// The point for corner 2.
fn for_second(c: Places, p: Point) -> Places
    ensures { result ≡ for_second c p }
{
    Places {
        x1: c.x1,
        x2: p.x,
        x3: c.x3,
        y1: c.y1,
        y2: p.y,
        y3: c.y3,
    }
}

// The point for corner 3.
fn for_third(c: Places, p: Point) -> Places
    ensures { result ≡ for_third c p }
{
    Places {
        x1: c.x1,
        x2: c.x2,
        x3: p.x,
        y1: c.y1,
        y2: c.y2,
        y3: p.y,
    }
}

// The sub-areas of a point. With the point for corner 2 or 3 each product has a side of the triangle in it, so that 64 bits hold it for every 32-bit
// point; with the point for corner 1 neither has, and w1 is what the others leave of D.
fn weights_of(c: Places, p: Point) -> Weights
    requires { all_near (sides_at c) ≡ true }
    ensures { result ≡ weights (east_of c) (north_of c) p }
{
    let w2 = twice_area(geometry::sides_of(for_second(c, p)));
    let w3 = twice_area(geometry::sides_of(for_third(c, p)));
    let d = twice_area(geometry::sides_of(c));
    let w1 = d - w2 - w3;
    Weights { w1, w2, w3, d }
}

// The coordinates of these corners, which are nodes: the search over the triangles makes no test of them.
fn places_at(m: &Mesh<'_>, c: Corners) -> Places
    requires same { length m.now.y.now ≡ length m.now.x.now }
    requires nodes { Below (nodes_of c) (length m.now.x.now) }
    ensures { result ≡ places_of m.now.x.now m.now.y.now (nodes_of c) }
{
    let i = c.n1;
    let j = c.n2;
    let k = c.n3;
    Places {
        x1: m.x[i],
        x2: m.x[j],
        x3: m.x[k],
        y1: m.y[i],
        y2: m.y[j],
        y3: m.y[k],
    }
}

// The sub-areas of a point in triangle t.
fn weights_at(m: &Mesh<'_>, p: Point, t: usize) -> Weights
    requires same { length m.now.y.now ≡ length m.now.x.now }
    requires there { t < length m.now.tri.now / 3 }
    requires sound { Sound m.now.x.now m.now.y.now m.now.tri.now t }
    ensures { result ≡ weights_at m.now.x.now m.now.y.now m.now.tri.now p t }
{
    weights_of(places_at(m, reading::corners_at(m, t)), p)
}

// Whether triangle t contains the point: none of its sub-areas is negative.
fn contains(m: &Mesh<'_>, p: Point, t: usize) -> bool
    requires same { length m.now.y.now ≡ length m.now.x.now }
    requires there { t < length m.now.tri.now / 3 }
    requires sound { Sound m.now.x.now m.now.y.now m.now.tri.now t }
    ensures { result ≡ contains m.now.x.now m.now.y.now m.now.tri.now p t }
{
    let w = weights_at(m, p, t);
    (0 <= w.w1) & (0 <= w.w2) & (0 <= w.w3)
}

// The lowest-numbered triangle that contains the point.
fn locate(m: &Mesh<'_>, p: Point) -> Option<usize>
    requires same { length m.now.y.now ≡ length m.now.x.now }
    requires by_index { (t : ℕ) → t < length m.now.tri.now / 3 → Sound m.now.x.now m.now.y.now m.now.tri.now t }
    ensures { result ≡ where_inside (is_inside m.now.x.now m.now.y.now m.now.tri.now p) (triangle_of m.now.x.now m.now.y.now m.now.tri.now p) }
{
    let e = m.tri.len() / 3;
    for t in 0..e {
        if contains(m, p, t) {
            return Some(t);
        }
    }
    None
}

// The gauge elevation of a point with these sub-areas, with elevations z1, z2 and z3 at the corners.
fn elevation(w: Weights, z1: f64, z2: f64, z3: f64) -> f64
    ensures { result ≡ elevation w (record { first = z1; second = z2; third = z3 }) }
{
    let first = std::num::nearest_i64_to_f64(w.w1) * z1;
    let second = std::num::nearest_i64_to_f64(w.w2) * z2;
    let third = std::num::nearest_i64_to_f64(w.w3) * z3;
    ((first + second) + third) / std::num::nearest_i64_to_f64(w.d)
}

// The present elevation of node i of n.
fn present(n: usize, state: &[f64], i: usize) -> f64
    requires { (i < n) × (length state.now ≡ state_runs * n) }
    ensures { result ≡ in_run n 1 state.now i }
{
    state[1 * n + i]
}

// The triangle of a point, and the elevation there.
pub(crate) fn sight(m: &Mesh<'_>, state: &[f64], p: Point) -> Option<Sighting>
    requires same { length m.now.y.now ≡ length m.now.x.now }
    requires state_len { length state.now ≡ state_runs * length m.now.x.now }
    requires by_index { (t : ℕ) → t < length m.now.tri.now / 3 → Sound m.now.x.now m.now.y.now m.now.tri.now t }
    ensures { result ≡ where_inside (is_inside m.now.x.now m.now.y.now m.now.tri.now p) (sighted m.now.x.now m.now.y.now m.now.tri.now p (in_run (length m.now.x.now) 1 state.now)) }
{
    let n = m.x.len();
    let triangle = locate(m, p)?;
    let w = weights_at(m, p, triangle);
    let c = reading::corners_at(m, triangle);
    let z1 = present(n, state, c.n1);
    let z2 = present(n, state, c.n2);
    let z3 = present(n, state, c.n3);
    Some(Sighting {
        triangle,
        level: elevation(w, z1, z2, z3),
    })
}
