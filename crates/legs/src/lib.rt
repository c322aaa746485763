// The legs of a mesh's triangles: row 6 of the refusal table.
#![tactic(auto)]

ghost use Rattle.std.specs.Prelude.{◌≡◌, ◌+◌, ◌*◌, ◌/◌, ◌%◌, ◌<◌, length};
ghost use Rattle.lists.specs.Private.{Below};
ghost use Rattle.rows.specs.Refusals.{answered};
ghost use Rattle.rows.specs.Scan.{scan};
ghost use Rattle.geometry.specs.Geometry.{nodes_of};
ghost use Rattle.legs.specs.Legs.{is_leg, row6};
ghost use Rattle.legs.specs.Private.{corner_of};

use geometry::Corners;
use rows::{Asked, Row};

// The leg from corner j, from 0, as one number, so that both its ends are compared at once.
fn leg(c: Corners, j: usize) -> usize
    requires { (j < 3) × Below (nodes_of c) 65536 }
    ensures { result ≡ corner_of (nodes_of c) j * 65536 + corner_of (nodes_of c) ((j + 1) % 3) }
{
    if j == 0 {
        return c.n1 * 65536 + c.n2;
    }
    if j == 1 {
        return c.n2 * 65536 + c.n3;
    }
    c.n3 * 65536 + c.n1
}

// Whether a triangle's leg from its corner j, from 0, is a leg of the triangle with corners c.
fn leg_seen(its: Corners, j: usize, c: Corners) -> bool
    requires { (j < 3) × Below (nodes_of its) 65536 × Below (nodes_of c) 65536 }
    ensures { result ≡ is_leg (nodes_of c) (corner_of (nodes_of its) j) (corner_of (nodes_of its) ((j + 1) % 3)) }
{
    let a = leg(its, j);
    (a == leg(c, 0)) | (a == leg(c, 1)) | (a == leg(c, 2))
}

// Row 6: a scan over the pairs of triangles and the legs of the later one, left by its label at the first leg seen before.
pub fn leg_rows(tri: &[u16]) -> Asked
    ensures { answered result ≡ scan (row6 tri.now) (length tri.now / 3) }
{
    let mut answer = Ok(());
    'pairs: for t in 0..tri.len() / 3 {
        let its = mesh::reading::corners_of(tri, t);
        for s in 0..t {
            let c = mesh::reading::corners_of(tri, s);
            for j in 0..3 {
                if leg_seen(its, j, c) {
                    answer = rows::refuse(Row::Leg, t);
                    break 'pairs;
                }
            }
        }
    }
    answer
}
