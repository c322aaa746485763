// Rows 30 to 33, line by line. Nothing is written. Lines whose rows all accept give the place where the next one starts.
ghost use Rattle.std.specs.Prelude.{◌≡◌, ◌*◌, ◌^◌, ◌<◌, drop, Err, IfOk};
ghost use Rattle.rows.specs.Scan.{refused, scan};
ghost use Rattle.rows.specs.Refusals.{answered};
ghost use Rattle.grids.specs.Text.{line_of};
ghost use Rattle.grids.specs.Numbers.{signed, in32, after_first};
ghost use Rattle.grids.specs.Grid.{lengths, count_line_rows, node_line_rows, is_corner, triangle_line_rows, grid_rows};
ghost use Rattle.grids.specs.Private.{present, after_lines, line_answer};

use crate::fields::Whole;
use crate::{entries, scanning};
use lists::slices;
use rows::{Asked, Refusal, Row};

// A malformed, missing or extra field, or a missing line.
fn malformed(place: usize) -> Refusal
    ensures { answered (Err result) ≡ refused 30 place }
{
    Refusal {
        row: Row::GridField,
        place,
        value: 0.0,
    }
}

fn is_in_32(w: Whole) -> bool
    ensures { result ≡ in32 (signed w.minus w.size) }
{
    if w.minus {
        w.size <= 2147483648
    } else {
        w.size <= 2147483647
    }
}

// The second line, lent rooms of these lengths.
fn counts_row(
    x: usize,
    y: usize,
    h: usize,
    tri: usize,
    text: &[u8],
    from: usize,
) -> Result<usize, Refusal>
    requires { (h < 2 ^ 60) × (tri < 2 ^ 62) }
    ensures answer { line_answer result ≡ count_line_rows (lengths x y h tri) (present (drop from text.now)) }
    ensures left { IfOk result (λ next. drop next text.now ≡ after_first 10 (drop from text.now)) }
{
    let Some(its) = entries::counts_at(text, from) else {
        return Err(malformed(1));
    };
    let n = its.n as usize;
    let nodes = (x == n) & (y == n) & (h == n);
    let triangles = slices::is_runs(tri, 3, its.e as usize);
    rows::tested(nodes & triangles, Row::GridRooms, 1)?;
    Ok(its.next)
}

// The line of node i.
fn node_row(text: &[u8], from: usize, i: usize) -> Result<usize, Refusal>
    requires { i < 2 ^ 60 }
    ensures answer { line_answer result ≡ node_line_rows i (present (drop from text.now)) }
    ensures left { IfOk result (λ next. drop next text.now ≡ after_first 10 (drop from text.now)) }
{
    let place = 2 + i;
    let number = 1 + i as u64;
    let Some(its) = entries::node_at(text, from) else {
        return Err(malformed(place));
    };
    let ranged = is_in_32(its.x) & is_in_32(its.y) & its.h.short;
    rows::tested(its.number == number, Row::GridOrder, place)?;
    rows::tested(ranged, Row::GridRange, place)?;
    Ok(its.next)
}

fn is_corner(number: u64) -> bool
    ensures { result ≡ is_corner number }
{
    (1 <= number) & (number <= 65536)
}

// The line of triangle k, after n nodes.
fn triangle_row(text: &[u8], from: usize, n: usize, k: usize) -> Result<usize, Refusal>
    requires { (n < 2 ^ 60) × (3 * k < 2 ^ 62) }
    ensures answer { line_answer result ≡ triangle_line_rows n k (present (drop from text.now)) }
    ensures left { IfOk result (λ next. drop next text.now ≡ after_first 10 (drop from text.now)) }
{
    let place = 2 + n + k;
    let number = 1 + k as u64;
    let Some(its) = entries::triangle_at(text, from) else {
        return Err(malformed(place));
    };
    let corners = is_corner(its.first) & is_corner(its.second) & is_corner(its.third);
    rows::tested(its.number == number, Row::GridOrder, place)?;
    rows::tested(corners, Row::GridRange, place)?;
    Ok(its.next)
}

// The lines of n nodes.
fn node_rows(text: &[u8], from: usize, n: usize) -> Result<usize, Refusal>
    requires { n < 2 ^ 60 }
    ensures answer { line_answer result ≡ scan (λ i. node_line_rows i (line_of (drop from text.now) i)) n }
    ensures left { IfOk result (λ next. drop next text.now ≡ after_lines n (drop from text.now)) }
{
    let mut at = from;
    for i in 0..n {
        at = node_row(text, at, i)?;
    }
    Ok(at)
}

// The lines of e triangles, after n nodes.
fn triangle_rows(text: &[u8], from: usize, n: usize, e: usize) -> Asked
    requires { (n < 2 ^ 60) × (3 * e < 2 ^ 62) }
    ensures { answered result ≡ scan (λ k. triangle_line_rows n k (line_of (drop from text.now) k)) e }
{
    let mut at = from;
    for k in 0..e {
        at = triangle_row(text, at, n, k)?;
    }
    Ok(())
}

// Rows 30 to 33 of a text, lent rooms of these lengths.
pub(crate) fn grid_rows(x: usize, y: usize, h: usize, tri: usize, text: &[u8]) -> Asked
    requires { (h < 2 ^ 60) × (tri < 2 ^ 62) }
    ensures { answered result ≡ grid_rows (lengths x y h tri) text.now }
{
    rows::tested(0 < text.len(), Row::GridField, 0)?;
    let nodes = counts_row(x, y, h, tri, text, scanning::past_line(text, 0))?;
    let triangles = node_rows(text, nodes, h)?;
    triangle_rows(text, triangles, h, tri / 3)
}
