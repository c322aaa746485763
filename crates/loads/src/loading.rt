// The lines of a save of either edition, read back: the rows of a load, the clock and the state that the lines hold.
ghost use Rattle.std.specs.Prelude.{◌≡◌, ℕ, ◌+◌, ◌*◌, ◌<◌, ◌≤◌, length};
ghost use Rattle.rows.specs.Scan.{scan};
ghost use Rattle.rows.specs.Refusals.{answered};
ghost use Rattle.bounds.specs.State.{state_runs};
ghost use Rattle.frames.specs.Frames.{digits_of};
ghost use Rattle.frames.specs.Texts.{start_of};
ghost use Rattle.editions.specs.Lines.{layout_at, node_line, line_count};
ghost use Rattle.editions.specs.Editions.{lines_of};
ghost use Rattle.loads.specs.Load.{line_in, line_rows, trailing_row, clock_in, node_in, row10_in, rows_in, state_in};
ghost use Rattle.loads.specs.Private.{head_wind, stored};

use editions::Edition;
use frames::reading;
use quantities::{Node, Parameters, Wind};
use rows::{Asked, Row};
use surge::Clock;

// How the lines of an edition lie: so many before the nodes', in so many bytes, and a node's line of so many.
#[derive(Clone, Copy)]
struct Measures {
    heads: usize,
    head_bytes: usize,
    node_bytes: usize,
}

// Edition 1 has a head of 57 bytes, edition 2 one of 25 and a line 05 of 89.
fn measures_of(edition: Edition) -> Measures
    ensures heads { result.heads ≡ length (lines_of edition).heads }
    ensures head_bytes { (n : ℕ) → result.head_bytes ≡ start_of (layout_at (lines_of edition) n) (node_line (lines_of edition) 0) }
    ensures node_bytes { result.node_bytes ≡ digits_of (lines_of edition).node.widths + 1 }
    ensures most { (result.heads ≤ 2) × (result.head_bytes ≤ 114) × (result.node_bytes ≤ 105) }
{
    match edition {
        Edition::One => Measures {
            heads: 1,
            head_bytes: 57,
            node_bytes: 73,
        },
        Edition::Two => Measures {
            heads: 2,
            head_bytes: 114,
            node_bytes: 105,
        },
    }
}

// A text that is read as a save of this edition, of n nodes.
#[derive(Clone, Copy)]
pub(crate) struct SaveText<'a> {
    pub edition: Edition,
    pub n: usize,
    pub text: &'a [u8],
}

impl SaveText<'_> {
    // Where line j starts. Of the lines before the nodes', only line 05 has one before it: a head of 25 bytes.
    fn start(&self, j: usize) -> usize
        requires { (self.now.n ≤ 4096) × (j < line_count (lines_of self.now.edition) self.now.n) }
        ensures { result ≡ start_of (layout_at (lines_of self.now.edition) self.now.n) j }
    {
        let its = measures_of(self.edition);
        if j < its.heads {
            return 25 * j;
        }
        its.head_bytes + its.node_bytes * (j - its.heads)
    }

    // Line j. One that the text breaks off is as much of it as there is, which is of wrong length.
    fn line_at(&self, j: usize) -> &[u8]
        requires { (self.now.n ≤ 4096) × (j < line_count (lines_of self.now.edition) self.now.n) }
        ensures { result.now ≡ line_in (lines_of self.now.edition) self.now.n self.now.text.now j }
    {
        let count = editions::due(self.edition, self.n, j).digits + 1;
        reading::part(self.text, self.start(j), count)
    }

    // Rows 20 to 23 and 25 of line j.
    fn line_row(&self, e: usize, sum: u64, p: Parameters, j: usize) -> Asked
        requires { (self.now.n ≤ 4096) × (j < line_count (lines_of self.now.edition) self.now.n) }
        ensures { answered result ≡ line_rows (lines_of self.now.edition) self.now.n self.now.text.now e sum p j }
    {
        let line = self.line_at(j);
        let its = editions::due(self.edition, self.n, j);
        editions::line_row(line, its.digits, its.kind.byte(), self.n, e, sum, p, j)
    }

    // How many lines there are: the last is the end line.
    fn line_count(&self) -> usize
        requires { self.now.n ≤ 4096 }
        ensures { result ≡ line_count (lines_of self.now.edition) self.now.n }
    {
        self.n + measures_of(self.edition).heads + 1
    }

    // Rows 20 to 23 and 25: the first line that is not as it is due.
    fn lines(&self, e: usize, sum: u64, p: Parameters) -> Asked
        requires { self.now.n ≤ 4096 }
        ensures { answered result ≡ scan (line_rows (lines_of self.now.edition) self.now.n self.now.text.now e sum p) (line_count (lines_of self.now.edition) self.now.n) }
    {
        rows::scan(self.line_count(), |j| self.line_row(e, sum, p, j))
    }

    // How long all lines are together: an end line has 13 bytes.
    fn whole(&self) -> usize
        requires { self.now.n ≤ 4096 }
        ensures { result ≡ start_of (layout_at (lines_of self.now.edition) self.now.n) (line_count (lines_of self.now.edition) self.now.n) }
    {
        let its = measures_of(self.edition);
        its.head_bytes + its.node_bytes * self.n + 13
    }

    // Bytes after the last line.
    fn trailing(&self) -> Asked
        requires { self.now.n ≤ 4096 }
        ensures { answered result ≡ trailing_row (lines_of self.now.edition) self.now.n self.now.text.now }
    {
        let fits = self.text.len() <= self.whole();
        rows::tested(fits, Row::Framing, self.line_count())
    }

    // The step number that the head holds: at the same place in both editions.
    pub(crate) fn clock(&self) -> Clock
        requires { self.now.n ≤ 4096 }
        ensures { result ≡ clock_in (lines_of self.now.edition) self.now.n self.now.text.now }
    {
        let head = self.line_at(0);
        Clock {
            step: reading::value(head, 7, 4) as u32,
        }
    }

    // The wind that an edition 1 head holds.
    fn head_wind(&self) -> Wind
        requires { self.now.n ≤ 4096 }
        ensures { result ≡ head_wind (lines_of self.now.edition) self.now.n self.now.text.now }
    {
        let head = self.line_at(0);
        Wind {
            x: reading::float_at(head, 11),
            y: reading::float_at(head, 19),
        }
    }

    // The line of node i.
    fn node_text(&self, i: usize) -> &[u8]
        requires { (i < self.now.n) × (self.now.n ≤ 4096) }
        ensures { result.now ≡ line_in (lines_of self.now.edition) self.now.n self.now.text.now (node_line (lines_of self.now.edition) i) }
    {
        let its = measures_of(self.edition);
        let start = its.head_bytes + its.node_bytes * i;
        reading::part(self.text, start, its.node_bytes)
    }

    // Node i, as the lines hold it. The head's wind is read once for all nodes.
    fn node_at(&self, h: &[f64], held: Wind, i: usize) -> Node
        requires { (i < self.now.n) × (length h.now ≡ self.now.n) × (self.now.n ≤ 4096) × (held ≡ head_wind (lines_of self.now.edition) self.now.n self.now.text.now) }
        ensures { result ≡ node_in (lines_of self.now.edition) self.now.n self.now.text.now h.now i }
    {
        let values = reading::values(self.node_text(i));
        let wind = editions::node_wind(self.edition, held, values);
        Node {
            h: h[i],
            earlier: patterns::float_of(values[0]),
            z: patterns::float_of(values[1]),
            u: patterns::float_of(values[2]),
            v: patterns::float_of(values[3]),
            wx: wind.x,
            wy: wind.y,
        }
    }

    // Row 10: the first loaded node that is out of its bounds.
    fn bounds(&self, h: &[f64], held: Wind) -> Asked
        requires { (length h.now ≡ self.now.n) × (self.now.n ≤ 4096) × (held ≡ head_wind (lines_of self.now.edition) self.now.n self.now.text.now) }
        ensures { answered result ≡ scan (row10_in (lines_of self.now.edition) self.now.n self.now.text.now h.now) self.now.n }
    {
        rows::scan(
            self.n,
            |i| rows::tested(limits::in_bounds(self.node_at(h, held, i)), Row::State, i),
        )
    }

    // The rows of a text against a mesh of e triangles with this sum of D, parameters and depths: its lines, trailing bytes, the loaded values.
    pub(crate) fn text_rows(&self, e: usize, sum: u64, p: Parameters, h: &[f64]) -> Asked
        requires { (length h.now ≡ self.now.n) × (self.now.n ≤ 4096) }
        ensures { answered result ≡ rows_in (lines_of self.now.edition) self.now.n self.now.text.now e sum p h.now }
    {
        self.lines(e, sum, p)?;
        self.trailing()?;
        self.bounds(h, self.head_wind())
    }

    // The loaded state, where the text's rows have passed.
    pub(crate) fn fill(&self, state: &mut [f64], h: &[f64])
        requires { (self.now.n ≤ 4096) × (length h.now ≡ self.now.n) × (length state.old ≡ state_runs * self.now.n) }
        ensures { state.new ≡ state_in (lines_of self.now.edition) self.now.n self.now.text.now h.now }
    {
        let held = self.head_wind();
        for i in 0..self.n {
            put_node(state, self.n, i, self.node_at(h, held, i));
        }
    }
}

// Node i's values into the six runs.
fn put_node(state: &mut [f64], n: usize, i: usize, c: Node)
    requires { (i < n) × (n ≤ 4096) × (length state.old ≡ state_runs * n) }
    ensures { state.new ≡ stored n state.old i c }
{
    state[0 * n + i] = c.earlier;
    state[1 * n + i] = c.z;
    state[2 * n + i] = c.u;
    state[3 * n + i] = c.v;
    state[4 * n + i] = c.wx;
    state[5 * n + i] = c.wy;
}
