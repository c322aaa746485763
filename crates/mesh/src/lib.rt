// The mesh as it is lent, and rows 1 to 5 of the refusal table, in the document's order.
#![tactic(auto)]

pub(crate) mod lent;
pub mod reading;
pub(crate) mod triangles;

ghost use Rattle.std.specs.Prelude.{◌≡◌, ◌<◌};
ghost use Rattle.rows.specs.Refusals.{answered_by};
ghost use Rattle.mesh.specs.Lent.{mesh_of};
ghost use Rattle.mesh.specs.Rows.{size_rows, shape_rows};

pub use lent::Mesh;
use rows::{Row, Says};

// What the call tests before, then rows 1 and 2 of slices of these lengths.
pub fn size_rows<E: Says>(
    asked: Result<(), E>,
    n: usize,
    y: usize,
    tri: usize,
    h: usize,
    kind: usize,
) -> Result<(), E>
    ensures { answered_by E.says result ≡ size_rows (answered_by E.says asked) n y tri h kind }
{
    asked?;
    let e = tri / 3;
    let lengths = (y == n) & (h == n) & (kind == n) & (tri % 3 == 0);
    let counts = (3 <= n) & (n <= 4096) & (1 <= e) & (e <= 8192);
    rows::tested(lengths, Row::Lengths, 0)?;
    rows::tested(counts, Row::Counts, 0)?;
    Ok(())
}

// What the call tests before, then rows 1 to 5.
pub fn shape_rows<E: Says>(asked: Result<(), E>, m: &Mesh<'_>) -> Result<(), E>
    ensures { answered_by E.says result ≡ shape_rows (answered_by E.says asked) (mesh_of m.now) }
{
    size_rows(
        asked,
        m.x.len(),
        m.y.len(),
        m.tri.len(),
        m.h.len(),
        m.kind.len(),
    )?;
    triangles::shapes(m)?;
    Ok(())
}

#[cfg(test)]
mod tests {
    use super::{Mesh, shape_rows, size_rows};
    use rows::{Answer, answers};

    // A number of an answer is below 2^32.
    fn fits(number: u32)
        ensures { number < 4294967296 }
    {}

    // With an answer before, of any number, and an answer back.
    fn size_answer(asked: Answer, n: usize, y: usize, tri: usize, h: usize, kind: usize) -> Answer
        ensures { result ≡ size_rows asked n y tri h kind }
    {
        fits(asked.number);
        match size_rows(answers::asked(asked), n, y, tri, h, kind) {
            Ok(()) => answers::accept(),
            Err(answer) => answer,
        }
    }

    // An answer that no row gives, asked before, is handed on as it is; one that accepts goes on, and what a row refuses is an answer then.
    #[test]
    fn any_answer_is_handed_on(rt: HostRuntime) {
        let other = Answer {
            number: u32::MAX,
            place: usize::MAX,
            value: 2.5,
        };
        let none = Mesh {
            x: &[],
            y: &[],
            tri: &[],
            h: &[],
            kind: &[],
        };
        let size = size_answer(other, 3, 3, 3, 3, 3);
        let shape = shape_rows(answers::asked(other), &none);
        for answer in [size, shape.err().unwrap_or(answers::accept())] {
            assert_eq!(rt; (answer.number, answer.place), (u32::MAX, usize::MAX));
            assert_eq!(rt; answer.value, 2.5);
        }
        let row = shape_rows(answers::asked(answers::refuse(0, 7)), &none);
        assert_eq!(rt; row.err().unwrap_or(answers::accept()).number, 2);
    }
}
