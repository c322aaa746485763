// The mesh's rows of the refusal table, 1 to 9, in the document's order: after the mesh's own those of its nodes.
#![tactic(auto)]

pub(crate) mod marks;

ghost use Rattle.std.specs.Prelude.{◌≡◌, ℕ, ◌<◌, ◌≤◌, length, get_or};
ghost use Rattle.rows.specs.Refusals.{answered_by, answered};
ghost use Rattle.rows.specs.Scan.{scan};
ghost use Rattle.mesh.specs.Lent.{mesh_of};
ghost use Rattle.nodes.specs.Rows.{row8, node_rows, mesh_rows, open_rows};

use mesh::Mesh;
use quantities::Parameters;
use rows::{Asked, Row, Says};

// Row 8: the first node whose depth or kind is out of range.
fn depths(n: usize, h: &[f64], kind: &[u8]) -> Asked
    requires { (length h.now ≡ n) × (length kind.now ≡ n) }
    ensures { answered result ≡ scan (row8 h.now kind.now) n }
{
    rows::scan_tests(n, |i| {
        rows::tested(limits::is_node(h[i], kind[i]), Row::Depth, i)
    })
}

// Rows 7, 8 and 9.
fn node_rows(m: &Mesh<'_>, p: Parameters) -> Asked
    requires n_bound { (length m.now.x.now ≤ 4096) × (length m.now.h.now ≡ length m.now.x.now) × (length m.now.kind.now ≡ length m.now.x.now) }
    requires by_index { (j : ℕ) → j < length m.now.tri.now → get_or m.now.tri.now j 0 < length m.now.x.now }
    ensures { answered result ≡ node_rows (length m.now.x.now) m.now.tri.now m.now.h.now m.now.kind.now p }
{
    let n = m.x.len();
    marks::named(n, m.tri)?;
    depths(n, m.h, m.kind)?;
    limits::parameters(p)
}

// What the call tests before, then rows 1 to 9 but for row 6, which is tested only where a mesh is opened.
pub fn mesh_rows<E: Says>(asked: Result<(), E>, m: &Mesh<'_>, p: Parameters) -> Result<(), E>
    ensures { answered_by E.says result ≡ mesh_rows (answered_by E.says asked) (mesh_of m.now) p }
{
    mesh::shape_rows(asked, m)?;
    node_rows(m, p)?;
    Ok(())
}

// What the call tests before, then rows 1 to 9.
pub fn open_rows<E: Says>(asked: Result<(), E>, m: &Mesh<'_>, p: Parameters) -> Result<(), E>
    ensures { answered_by E.says result ≡ open_rows (answered_by E.says asked) (mesh_of m.now) p }
{
    mesh::shape_rows(asked, m)?;
    legs::leg_rows(m.tri)?;
    node_rows(m, p)?;
    Ok(())
}

#[cfg(test)]
mod tests {
    use super::{Mesh, Parameters, mesh_rows, open_rows};
    use rows::answers;

    // An answer that no row gives, asked before, is handed on as it is.
    #[test]
    fn any_answer_is_handed_on(rt: HostRuntime) {
        let other = answers::asked(answers::refuse(99, 7));
        let none = Mesh {
            x: &[],
            y: &[],
            tri: &[],
            h: &[],
            kind: &[],
        };
        let p = Parameters {
            dt: 1.0,
            tau: 0.01,
            k: 0.0,
            f: 0.0,
            advection: false,
        };
        let mesh = mesh_rows(other, &none, p);
        let open = open_rows(other, &none, p);
        for asked in [mesh, open] {
            let answer = asked.err().unwrap_or(answers::accept());
            assert_eq!(rt; (answer.number, answer.place), (99, 7));
        }
    }
}
