// Rows 3 to 5: the triangles.
ghost use Rattle.std.specs.Prelude.{◌≡◌, ◌/◌, ◌<◌, length};
ghost use Rattle.lists.specs.Private.{Below};
ghost use Rattle.rows.specs.Refusals.{answered};
ghost use Rattle.rows.specs.Scan.{scan};
ghost use Rattle.geometry.specs.Geometry.{nodes_of};
ghost use Rattle.mesh.specs.Geometry.{places_of};
ghost use Rattle.mesh.specs.Rows.{triangle_rows};

use super::lent::Mesh;
use super::reading;
use geometry::{Corners, Places};
use rows::{Asked, Row};

// The coordinates of a triangle's corners, which row 3 has accepted.
fn places_at(m: &Mesh<'_>, c: Corners) -> Places
    requires { (length m.now.y.now ≡ length m.now.x.now) × Below (nodes_of c) (length m.now.x.now) }
    ensures { result ≡ places_of m.now.x.now m.now.y.now (nodes_of c) }
{
    Places {
        x1: m.x[c.n1],
        x2: m.x[c.n2],
        x3: m.x[c.n3],
        y1: m.y[c.n1],
        y2: m.y[c.n2],
        y3: m.y[c.n3],
    }
}

// Rows 3, 4 and 5 of triangle t.
fn shape(m: &Mesh<'_>, t: usize) -> Asked
    requires { (length m.now.y.now ≡ length m.now.x.now) × (t < length m.now.tri.now / 3) }
    ensures { answered result ≡ triangle_rows m.now.x.now m.now.y.now m.now.tri.now t }
{
    let n = m.x.len();
    let c = reading::corners_at(m, t);
    rows::tested((c.n1 < n) & (c.n2 < n) & (c.n3 < n), Row::Corner, t)?;
    let s = geometry::sides_of(places_at(m, c));
    rows::tested(geometry::all_near(s), Row::Side, t)?;
    rows::tested(0 < geometry::twice_area(s), Row::Area, t)
}

// Triangle by triangle rows 3, 4 and 5. The mesh is bound before the loop, so that the compiler keeps its slices in registers.
pub(crate) fn shapes(m: &Mesh<'_>) -> Asked
    requires { length m.now.y.now ≡ length m.now.x.now }
    ensures { answered result ≡ scan (triangle_rows m.now.x.now m.now.y.now m.now.tri.now) (length m.now.tri.now / 3) }
{
    let mesh = *m;
    rows::scan(mesh.tri.len() / 3, |t| shape(&mesh, t))
}
