// Saves: the text of a run.
#![tactic(auto)]

pub(crate) mod writing;

ghost use Rattle.std.specs.Prelude.{◌≡◌};
ghost use Rattle.mesh.specs.Lent.{mesh_of};
ghost use Rattle.saves.specs.Save.{saved, save_out, save_of};

use mesh::Mesh;
use quantities::Parameters;
use rows::{Refusal, Row};
use surge::Clock;
use writing::Saved;

// Saves a run, in edition 2: what a call on a run tests, the text room; then head, line 05, nodes and end. Gives the bytes written. A refusal leaves
// the text as found.
pub fn save(
    text: &mut [u8],
    state: &[f64],
    m: &Mesh<'_>,
    p: Parameters,
    clock: Clock,
) -> Result<usize, Refusal>
    ensures { save_out (saved result) text.new ≡ save_of (mesh_of m.now) p state.now clock text.old }
{
    bounds::run_rows(Ok(()), m, p, state)?;
    let n = m.x.len();
    let room = 127 + 105 * n;
    rows::tested(room <= text.len(), Row::Room, room)?;
    let run = Saved {
        n,
        e: m.tri.len() / 3,
        sum: areas::twice_areas(m),
        p,
        state,
        clock,
    };
    run.write(text);
    Ok(room)
}
