// The lines of a save, in either edition: of which edition a text is, what is due at a line, and what is asked of one.
#![tactic(auto)]

ghost use Rattle.std.specs.Prelude.{◌≡◌, ◌≤◌};
ghost use Rattle.rows.specs.Scan.{◌then◌};
ghost use Rattle.rows.specs.Refusals.{answered};
ghost use Rattle.frames.specs.Kinds.{kind_of};
ghost use Rattle.frames.specs.Texts.{due};
ghost use Rattle.faults.specs.Faults.{fault};
ghost use Rattle.editions.specs.Lines.{edition_of, layout_at};
ghost use Rattle.editions.specs.Editions.{lines_of, wind_in};
ghost use Rattle.editions.specs.Rows.{row23, run_right, row25};

use frames::{Kind, reading};
use quantities::{Parameters, Wind};
use rows::{Asked, Row};

// The editions of a save.
#[derive(Clone, Copy)]
pub enum Edition {
    One,
    Two,
}

// A text that starts with 01 is of edition 1, any other of edition 2.
pub fn edition_of(text: &[u8]) -> Edition
    ensures { lines_of result ≡ edition_of text.now }
{
    if reading::starts(text, b'0', b'1') {
        Edition::One
    } else {
        Edition::Two
    }
}

// What is due at a line: its digits and its kind.
#[derive(Clone, Copy)]
pub struct LineKind {
    pub digits: usize,
    pub kind: Kind,
}

// What is due at line j of a save of n nodes: in edition 1 head, nodes, end; in edition 2 head, line 05, nodes, end.
pub fn due(d: Edition, n: usize, j: usize) -> LineKind
    ensures { (result.digits ≡ due (layout_at (lines_of d) n) j) × (kind_of result.kind ≡ (layout_at (lines_of d) n j).kind) × (result.digits ≤ 104) }
{
    let (digits, kind) = match (d, j) {
        (Edition::One, 0) => (56, Kind::Head1),
        (Edition::One, _) if j <= n => (72, Kind::Node1),
        (Edition::Two, 0) => (24, Kind::Head2),
        (Edition::Two, 1) => (88, Kind::Run),
        (Edition::Two, _) if j - 2 < n => (104, Kind::Node2),
        _ => (12, Kind::End),
    };
    LineKind { digits, kind }
}

// The wind of a node, from the fields of its line: edition 1 has none, and every node has the head's.
pub fn node_wind(d: Edition, held: Wind, values: [u64; 6]) -> Wind
    ensures { result ≡ wind_in d held values }
{
    match d {
        Edition::One => held,
        Edition::Two => Wind {
            x: patterns::float_of(values[4]),
            y: patterns::float_of(values[5]),
        },
    }
}

// Row 23 of a line of this kind: N and E at a head, N at the end line, nothing at another.
fn counts(n: usize, e: usize, line: &[u8], kind: u8, j: usize) -> Asked
    ensures { answered result ≡ row23 n e line.now kind j }
{
    if (kind == Kind::Head1.byte()) | (kind == Kind::Head2.byte()) {
        let nodes = reading::value(line, 3, 2) == n as u64;
        let triangles = reading::value(line, 5, 2) == e as u64;
        return rows::tested(nodes & triangles, Row::MeshSize, j);
    }
    if kind == Kind::End.byte() {
        return rows::tested(reading::value(line, 3, 2) == n as u64, Row::MeshSize, j);
    }
    Ok(())
}

// The fields of a line 05 are the run's, bit by bit.
fn run_right(p: Parameters, sum: u64, line: &[u8]) -> bool
    ensures { result ≡ run_right p sum line.now }
{
    let dt = reading::value(line, 3, 8) == patterns::pattern_of(p.dt);
    let tau = reading::value(line, 11, 8) == patterns::pattern_of(p.tau);
    let k = reading::value(line, 19, 8) == patterns::pattern_of(p.k);
    let f = reading::value(line, 27, 8) == patterns::pattern_of(p.f);
    let same = reading::value(line, 35, 8) == sum;
    dt & tau & k & f & same
}

// Row 25 of a line of this kind.
fn settings(p: Parameters, sum: u64, line: &[u8], kind: u8, j: usize) -> Asked
    ensures { answered result ≡ row25 p sum line.now kind j }
{
    if kind == Kind::Run.byte() {
        return rows::tested(run_right(p, sum, line), Row::Settings, j);
    }
    Ok(())
}

// Rows 20 to 23 and 25 of line j, where these digits and this kind are due: of a mesh of n nodes and e triangles, the sum of its D, and parameters.
pub fn line_row(
    line: &[u8],
    due: usize,
    kind: u8,
    n: usize,
    e: usize,
    sum: u64,
    p: Parameters,
    j: usize,
) -> Asked
    ensures { answered result ≡ (fault line.now due kind j j then row23 n e line.now kind j then row25 p sum line.now kind j) }
{
    faults::fault(line, due, kind, j as u64, j)?;
    counts(n, e, line, kind, j)?;
    settings(p, sum, line, kind, j)
}
