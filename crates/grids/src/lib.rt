// The grid format that harbour modellers send: a mesh from a text.
#![tactic(auto)]

pub(crate) mod asking;
pub(crate) mod entries;
pub(crate) mod fields;
pub(crate) mod filling;
pub(crate) mod scanning;

ghost use Rattle.std.specs.Prelude.{◌≡◌};
ghost use Rattle.rows.specs.Refusals.{answered};
ghost use Rattle.grids.specs.Grid.{grid, read_out, read_of};

use rows::Asked;

// Fills the rooms from a text. Nothing is written before the last line has been accepted: one pass asks, and one fills.
pub fn read_grid(x: &mut [i32], y: &mut [i32], h: &mut [f64], tri: &mut [u16], text: &[u8]) -> Asked
    ensures { read_out (answered result) (grid x.new y.new h.new tri.new) ≡ read_of (grid x.old y.old h.old tri.old) text.now }
{
    asking::grid_rows(x.len(), y.len(), h.len(), tri.len(), text)?;
    filling::fill(x, y, h, tri, text);
    Ok(())
}
