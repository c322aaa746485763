// What is seen at points, in a mesh and a state that are lent as bytes. They are decoded into arrays of full size, and what a step asks of its slices is
// asked of these.
#![tactic(auto)]

ghost use Rattle.std.specs.Prelude.{◌≡◌, length};
ghost use Rattle.rows.specs.Refusals.{answered};
ghost use Rattle.location.specs.Survey.{sightings_of, survey_of};
ghost use Rattle.looking.specs.Lent.{lent_of, mesh_in, state_in, row1_bytes};
ghost use Rattle.looking.specs.Looking.{look_of, found_in, sight_of};
ghost use Rattle.looking.specs.Private.{Sizes};

use lists::slices;
use location::seeking::Point;
use location::{Points, Sightings};
use mesh::Mesh;
use quantities::Parameters;
use rows::{Asked, Refusal, Row};

// What a call is lent: a state and a mesh, each number in its bytes, and the parameters of row 9.
#[derive(Clone, Copy)]
pub struct Lent<'a> {
    pub state: &'a [u8],
    pub x: &'a [u8],
    pub y: &'a [u8],
    pub tri: &'a [u8],
    pub h: &'a [u8],
    pub kind: &'a [u8],
    pub p: Parameters,
}

// What is seen at one point: the triangle that contains it, and the elevation there.
#[derive(Clone, Copy)]
pub struct Sight {
    pub triangle: u32,
    pub level: f64,
}

// Row 1 of byte slices: each is a whole number of elements.
fn whole_row(lent: &Lent<'_>) -> Asked
    ensures { answered result ≡ row1_bytes (lent_of lent.now) }
{
    let nodes = (lent.x.len() % 4 == 0)
        & (lent.y.len() % 4 == 0)
        & (lent.tri.len() % 2 == 0)
        & (lent.h.len() % 8 == 0);
    rows::tested(nodes & (lent.state.len() % 8 == 0), Row::Lengths, 0)
}

// The slices decoded into these rooms, which hold them, and what is seen at the points.
fn decoded(
    east: &mut [i32],
    north: &mut [i32],
    nodes: &mut [u16],
    depths: &mut [f64],
    values: &mut [f64],
    asked: Asked,
    ps: Points,
    lent: &Lent<'_>,
) -> Result<Sightings, Refusal>
    requires { Sizes (lent_of lent.now) (length east.old) (length north.old) (length nodes.old) (length depths.old) (length values.old) }
    ensures { sightings_of result ≡ survey_of (answered asked) (mesh_in (lent_of lent.now)) lent.now.p (state_in (lent_of lent.now)) ps }
{
    crossing::ints_into(east, lent.x);
    crossing::ints_into(north, lent.y);
    crossing::words_into(nodes, lent.tri);
    crossing::floats_into(depths, lent.h);
    crossing::floats_into(values, lent.state);
    let m = Mesh {
        x: &east[0..lent.x.len() / 4],
        y: &north[0..lent.y.len() / 4],
        tri: &nodes[0..lent.tri.len() / 2],
        h: &depths[0..lent.h.len() / 8],
        kind: lent.kind,
    };
    location::survey(asked, ps, &m, lent.p, &values[0..lent.state.len() / 8])
}

// The same with rooms of full size.
fn at_full_size(asked: Asked, ps: Points, lent: &Lent<'_>) -> Result<Sightings, Refusal>
    requires { Sizes (lent_of lent.now) 4096 4096 24576 4096 24576 }
    ensures { sightings_of result ≡ survey_of (answered asked) (mesh_in (lent_of lent.now)) lent.now.p (state_in (lent_of lent.now)) ps }
{
    let mut east: [i32; 4096] = [0; 4096];
    let mut north: [i32; 4096] = [0; 4096];
    let mut nodes: [u16; 24576] = [0; 24576];
    let mut depths: [f64; 4096] = [0.0; 4096];
    let mut values: [f64; 24576] = [0.0; 24576];
    decoded(
        &mut east,
        &mut north,
        &mut nodes,
        &mut depths,
        &mut values,
        asked,
        ps,
        lent,
    )
}

// Rows 1 to 10, and where they accept what is seen at the points. Rows 1 and 2 are asked of the lengths before anything is decoded.
pub fn look(lent: &Lent<'_>, ps: Points) -> Result<Sightings, Refusal>
    ensures { sightings_of result ≡ look_of (lent_of lent.now) ps }
{
    let n = lent.x.len() / 4;
    let whole = whole_row(lent);
    let long = slices::is_runs(lent.state.len() / 8, bounds::STATE_RUNS, n);
    mesh::size_rows(
        rows::first(whole, rows::tested(long, Row::Lengths, 0)),
        n,
        lent.y.len() / 4,
        lent.tri.len() / 2,
        lent.h.len() / 8,
        lent.kind.len(),
    )?;
    at_full_size(whole, ps, lent)
}

// What is seen at one point, where some triangle contains it.
pub fn look_at(lent: &Lent<'_>, q: Point) -> Result<Option<Sight>, Refusal>
    ensures { found_in (lent_of lent.now) result ≡ sight_of (lent_of lent.now) q }
{
    let ps = Points {
        count: 1,
        x: [q.x; 64],
        y: [q.y; 64],
    };
    let seen = look(lent, ps)?;
    let triangle = seen.triangle[0];
    if triangle < lent.tri.len() / 2 / 3 {
        Ok(Some(Sight {
            triangle: triangle as u32,
            level: seen.level[0],
        }))
    } else {
        Ok(None)
    }
}
