// A triangle's corners in the lent list, and their coordinates, for any slices.
ghost use Rattle.std.specs.Prelude.{◌≡◌, ◌<◌, pos, length, get_or};
ghost use Rattle.geometry.specs.Geometry.{nodes_of};
ghost use Rattle.mesh.specs.Lent.{corners_at};
ghost use Rattle.mesh.specs.Geometry.{places_of};

use super::lent::Mesh;
use geometry::{Corners, Places};

// The node number at a place of the triangle list.
pub(crate) fn node_at(tri: &[u16], at: usize) -> usize
    requires { at < length tri.now }
    ensures { result ≡ get_or tri.now at 0 }
{
    tri[at] as usize
}

// The corners of triangle t of a list. Its test is the one that a loop over the triangles makes, so that no second one is left where it is called.
pub fn corners_of(tri: &[u16], t: usize) -> Corners
    ensures { result ≡ corners_at tri.now t }
{
    if t < tri.len() / 3 {
        Corners {
            n1: node_at(tri, 3 * t + 0),
            n2: node_at(tri, 3 * t + 1),
            n3: node_at(tri, 3 * t + 2),
        }
    } else {
        Corners {
            n1: 0,
            n2: 0,
            n3: 0,
        }
    }
}

// The corners of a mesh's triangle t.
pub fn corners_at(m: &Mesh<'_>, t: usize) -> Corners
    ensures { result ≡ corners_at m.now.tri.now t }
{
    corners_of(m.tri, t)
}

// A node's coordinate, and 0 where there is no such node: no row has to have been asked of these slices.
fn coordinate(of: &[i32], i: usize) -> i32
    ensures { result ≡ get_or of.now i (pos 0) }
{
    if i < of.len() { of[i] } else { 0 }
}

// The coordinates of a triangle's corners.
pub fn places_at(m: &Mesh<'_>, c: Corners) -> Places
    ensures { result ≡ places_of m.now.x.now m.now.y.now (nodes_of c) }
{
    Places {
        x1: coordinate(m.x, c.n1),
        x2: coordinate(m.x, c.n2),
        x3: coordinate(m.x, c.n3),
        y1: coordinate(m.y, c.n1),
        y2: coordinate(m.y, c.n2),
        y3: coordinate(m.y, c.n3),
    }
}
