// The sum of all D of a mesh.
#![tactic(auto)]

ghost use Rattle.std.specs.Prelude.{◌≡◌, ◌/◌, ◌<◌, length};
ghost use Rattle.geometry.specs.Geometry.{near_d};
ghost use Rattle.areas.specs.Areas.{above, counted, counted_sum};

use geometry::WholeSides;
use mesh::Mesh;

// D as a count. One of 0 or less, which row 5 refuses, counts nothing, so that the sum never goes down.
fn count_of(s: WholeSides) -> u64
    ensures { result ≡ above (near_d s) }
{
    let d = geometry::twice_area(s);
    if 0 < d { d as u64 } else { 0 }
}

// D of triangle t as a count.
fn counted_at(m: &Mesh<'_>, t: usize) -> u64
    requires { t < length m.now.tri.now / 3 }
    ensures { result ≡ counted m.now.x.now m.now.y.now m.now.tri.now t }
{
    let c = mesh::reading::corners_at(m, t);
    count_of(geometry::sides_of(mesh::reading::places_at(m, c)))
}

// The sum of all D, each triangle once. A mesh has at most 8,192 of them: with no more, no sum of counts goes beyond 64 bits.
pub fn twice_areas(m: &Mesh<'_>) -> u64
    ensures { result ≡ counted_sum m.now.x.now m.now.y.now m.now.tri.now }
{
    let all = m.tri.len() / 3;
    let e = if all <= 8192 { all } else { 8192 };
    let mut sum = 0;
    for t in 0..e {
        sum += counted_at(m, t);
    }
    sum
}
