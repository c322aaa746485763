// The rooms filled from a text whose lines have all been accepted.
ghost use Rattle.std.specs.Prelude.{◌≡◌, ℕ, ◌-◌, ◌*◌, ◌%◌, ◌^◌, ◌<◌, ◌≤◌, true, length, drop};
ghost use Rattle.std.specs.Float.Ieee.{of_int};
ghost use Rattle.std.specs.Float.{binary64};
ghost use Rattle.rows.specs.Numbers.{decimal};
ghost use Rattle.quantities.specs.Operations.{◌⊘◌};
ghost use Rattle.lists.specs.Table.{table};
ghost use Rattle.grids.specs.Text.{line_of};
ghost use Rattle.grids.specs.Numbers.{signed, in32};
ghost use Rattle.grids.specs.Grid.{grid, node_line_rows, triangle_line_rows, grid_answer, corner_in, grid_of};
ghost use Rattle.grids.specs.Private.{NodesFilled};

use crate::fields::{Depth, Whole};
use crate::{entries, scanning};

fn signed_of(minus: bool, size: u64) -> i64
    requires { size ≤ 2 ^ 53 }
    ensures { result ≡ signed minus size }
{
    if minus { 0 - size as i64 } else { size as i64 }
}

fn whole_of(w: Whole) -> i32
    requires { in32 (signed w.minus w.size) ≡ true }
    ensures { result ≡ signed w.minus w.size }
{
    signed_of(w.minus, w.size) as i32
}

// The thousandths are a float without loss, and divided once.
fn depth_of(d: Depth) -> f64
    requires { d.size ≤ 2 ^ 53 }
    ensures { result ≡ of_int binary64 (signed d.minus d.size) ⊘ decimal 1000 1 }
{
    signed_of(d.minus, d.size) as f64 / 1000.0
}

// The nodes from the line at `from` on; what comes back is where the next line starts.
fn fill_nodes(x: &mut [i32], y: &mut [i32], h: &mut [f64], text: &[u8], from: usize) -> usize
    requires y_len { (length y.old ≡ length x.old) × (length h.old ≡ length x.old) }
    requires by_index { (i : ℕ) → i < length x.old → (node_line_rows i (line_of (drop from text.now) i)).number ≡ 0 }
    ensures { NodesFilled (length x.old) (drop from text.now) x.new y.new h.new (drop result text.now) }
{
    let n = x.len();
    let mut at = from;
    for i in 0..n {
        let its = entries::node_at(text, at).unwrap();
        x[i] = whole_of(its.x);
        y[i] = whole_of(its.y);
        h[i] = depth_of(its.h);
        at = its.next;
    }
    at
}

// A corner number counts from 1, and a node number from 0.
fn node_of(corner: u64) -> u16
    requires { (1 ≤ corner) × (corner ≤ 65536) }
    ensures { result ≡ corner - 1 }
{
    (corner - 1) as u16
}

// The triangles from the line at `from` on.
fn fill_triangles(tri: &mut [u16], text: &[u8], n: usize, from: usize)
    requires by_index { (k : ℕ) → 3 * k < length tri.old → (triangle_line_rows n k (line_of (drop from text.now) k)).number ≡ 0 }
    requires tri_len { length tri.old % 3 ≡ 0 }
    ensures { tri.new ≡ table (length tri.old) (corner_in (line_of (drop from text.now))) }
{
    let e = tri.len() / 3;
    let mut at = from;
    for k in 0..e {
        let its = entries::triangle_at(text, at).unwrap();
        tri[3 * k + 0] = node_of(its.first);
        tri[3 * k + 1] = node_of(its.second);
        tri[3 * k + 2] = node_of(its.third);
        at = its.next;
    }
}

// All four rooms.
pub(crate) fn fill(x: &mut [i32], y: &mut [i32], h: &mut [f64], tri: &mut [u16], text: &[u8])
    requires { (grid_answer (grid x.old y.old h.old tri.old) text.now).number ≡ 0 }
    ensures { grid x.new y.new h.new tri.new ≡ grid_of text.now }
{
    let n = x.len();
    let second = scanning::past_line(text, 0);
    let third = scanning::past_line(text, second);
    let next = fill_nodes(x, y, h, text, third);
    fill_triangles(tri, text, n, next);
}
