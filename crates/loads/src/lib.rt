// Loads: a run from its text, and the laws of the way back.
#![tactic(auto)]

pub(crate) mod loading;

ghost use Rattle.std.specs.Prelude.{◌≡◌};
ghost use Rattle.mesh.specs.Lent.{mesh_of};
ghost use Rattle.surge.specs.declared.Clock.{Clock};
ghost use Rattle.surge.specs.Lent.{replied, after};
ghost use Rattle.loads.specs.Load.{load_of};

use bounds::STATE_RUNS;
use lists::slices;
use loading::SaveText;
use mesh::Mesh;
use quantities::Parameters;
use rows::{Refusal, Row};
use surge::Clock;

// Loads a run from a save of either edition: the mesh's rows, the text's rows; then the state, and gives the clock. A refusal leaves the state as found,
// and whatever clock the caller holds.
pub fn load(state: &mut [f64], text: &[u8], m: &Mesh<'_>, p: Parameters) -> Result<Clock, Refusal>
    ensures { (clock : Clock) → after (replied clock result) state.new ≡ load_of (mesh_of m.now) p text.now state.old clock }
{
    let n = m.x.len();
    let long = slices::is_runs(state.len(), STATE_RUNS, n);
    nodes::mesh_rows(rows::tested(long, Row::Lengths, 0), m, p)?;
    let save = SaveText {
        edition: editions::edition_of(text),
        n,
        text,
    };
    let sum = areas::twice_areas(m);
    save.text_rows(m.tri.len() / 3, sum, p, m.h)?;
    save.fill(state, m.h);
    Ok(save.clock())
}
