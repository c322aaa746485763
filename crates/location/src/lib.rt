// Where a point lies in a mesh, and what elevation a state has there, after rows 1 to 10 of the refusal table.
#![tactic(auto)]

pub mod seeking;

ghost use Rattle.std.specs.Prelude.{◌≡◌, ◌*◌, Ok, length};
ghost use Rattle.rows.specs.Scan.{accepted};
ghost use Rattle.rows.specs.Refusals.{answered_by};
ghost use Rattle.mesh.specs.Lent.{N, mesh_of};
ghost use Rattle.mesh.specs.Private.{Shaped};
ghost use Rattle.bounds.specs.State.{state_runs};
ghost use Rattle.location.specs.Survey.{sightings_of, sightings_by, seen, survey_of};

use mesh::Mesh;
use quantities::Parameters;
use rows::Says;
use seeking::{Point, Sighting};

// The points of at most 64 gauges: the first `count` of them.
#[derive(Drop)]
pub struct Points {
    pub count: usize,
    pub x: [i32; 64],
    pub y: [i32; 64],
}

// Of each point its triangle and the elevation there. Where no triangle contains it, its triangle is the number of triangles.
#[derive(Drop)]
pub struct Sightings {
    pub triangle: [usize; 64],
    pub level: [f64; 64],
}

// Of each point its triangle and the elevation there.
fn at_points(ps: Points, m: &Mesh<'_>, state: &[f64]) -> Sightings
    requires { Shaped (mesh_of m.now) × (length state.now ≡ state_runs * N (mesh_of m.now)) }
    ensures { sightings_of (Ok result) ≡ seen accepted (mesh_of m.now) state.now ps }
{
    let outside = Sighting {
        triangle: m.tri.len() / 3,
        level: 0.0,
    };
    let mut triangle = [0; 64];
    let mut level = [0.0; 64];
    for g in 0..usize::min(ps.count, 64) {
        let at = Point {
            x: ps.x[g],
            y: ps.y[g],
        };
        let seen = seeking::sight(m, state, at).unwrap_or(outside);
        triangle[g] = seen.triangle;
        level[g] = seen.level;
    }
    Sightings { triangle, level }
}

// What the call tests before, rows 1 to 10, and where they accept what is seen at the points.
pub fn survey<E: Says>(
    asked: Result<(), E>,
    ps: Points,
    m: &Mesh<'_>,
    p: Parameters,
    state: &[f64],
) -> Result<Sightings, E>
    ensures { sightings_by E.says result ≡ survey_of (answered_by E.says asked) (mesh_of m.now) p state.now ps }
{
    bounds::run_rows(asked, m, p, state)?;
    Ok(at_points(ps, m, state))
}

#[cfg(test)]
mod tests {
    use super::{Mesh, Parameters, Points, survey};
    use rows::answers;

    // An answer that no row gives, asked before, is handed on as it is.
    #[test]
    fn any_answer_is_handed_on(rt: HostRuntime) {
        let none = Mesh {
            x: &[],
            y: &[],
            tri: &[],
            h: &[],
            kind: &[],
        };
        let p = Parameters {
            dt: 1.0,
            tau: 0.01,
            k: 0.0,
            f: 0.0,
            advection: false,
        };
        let ps = Points {
            count: 0,
            x: [0; 64],
            y: [0; 64],
        };
        let asked = survey(answers::asked(answers::refuse(99, 7)), ps, &none, p, &[]);
        let answer = asked.err().unwrap_or(answers::accept());
        assert_eq!(rt; (answer.number, answer.place), (99, 7));
    }
}
