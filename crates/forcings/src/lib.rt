// Reading a forcing: one line of kind 10, or one of kind 14 and then one of kind 15 for each node.
#![tactic(auto)]

ghost use Rattle.std.specs.Prelude.{◌≡◌, ◌+◌, ◌*◌, ◌^◌, ◌<◌, ◌≤◌, length, set};
ghost use Rattle.rows.specs.Refusals.{answered};
ghost use Rattle.faults.specs.Faults.{line_fault};
ghost use Rattle.forcings.specs.Forcings.{forcing_lines, forcing_length, rows14, forcing10, forcing14, taken, taken_of};

use frames::{Kind, reading};
use rows::{Asked, Row};

// Line j of kinds 14 and 15, as much of it as there is: nothing of a line that would start further on than a usize can count.
fn line_row(text: &[u8], j: usize) -> Asked
    ensures { answered result ≡ line_fault forcing_lines text.now j }
{
    if j == 0 {
        return faults::fault(reading::part(text, 0, 25), 24, Kind::Elevation.byte(), 0, 0);
    }
    let at = (j - 1).saturating_mul(41).saturating_add(25);
    let line = reading::part(text, at, 41);
    faults::fault(line, 40, Kind::Wind.byte(), j as u64, j)
}

// The lines of kinds 14 and 15 in turn, and then the bytes after the last.
fn rows_14(n: usize, text: &[u8]) -> Asked
    requires { n + 1 < 2 ^ 64 }
    ensures { answered result ≡ rows14 n text.now }
{
    rows::scan(n + 1, |j| line_row(text, j))?;
    rows::tested(text.len() <= 25 + 41 * n, Row::Framing, n + 1)
}

// Wx' and Wy' of node i, each into its run after the elevation.
fn put_wind(room: &mut [f64], n: usize, i: usize, wx: f64, wy: f64)
    requires { (i < n) × (length room.old ≡ 1 + 2 * n) }
    ensures { room.new ≡ set (set room.old (1 + (0 * n + i)) wx) (1 + (1 * n + i)) wy }
{
    room[1 + (0 * n + i)] = wx;
    room[1 + (1 * n + i)] = wy;
}

// What a line of kind 10 holds: its wind for every node.
fn fill_10(room: &mut [f64], n: usize, text: &[u8])
    requires { length room.old ≡ 1 + 2 * n }
    ensures { room.new ≡ forcing10 n text.now }
{
    room[0] = reading::float_at(text, 3);
    let all_wx = reading::float_at(text, 11);
    let all_wy = reading::float_at(text, 19);
    for i in 0..n {
        put_wind(room, n, i, all_wx, all_wy);
    }
}

// What lines of kinds 14 and 15 hold that are all there.
fn fill_14(room: &mut [f64], n: usize, text: &[u8])
    requires { (length room.old ≡ 1 + 2 * n) × (forcing_length n ≤ length text.now) }
    ensures { room.new ≡ forcing14 n text.now }
{
    room[0] = reading::float_at(reading::part(text, 0, 25), 3);
    for i in 0..n {
        let line = reading::part(text, 25 + 41 * i, 41);
        let wx = reading::float_at(line, 3);
        let wy = reading::float_at(line, 11);
        put_wind(room, n, i, wx, wy);
    }
}

// Reads one forcing into a room of 1 + 2N numbers: the elevation, Wx' of all nodes, Wy' of all nodes. A line of kind 10 has the sequence number that is
// expected, which may be one that no line has. Nothing is written before every row has accepted.
pub fn read_forcing(room: &mut [f64], text: &[u8], expected: u32) -> Asked
    ensures { taken (answered result) room.new ≡ taken_of room.old text.now expected }
{
    let n = room.len() / 2;
    rows::tested(room.len() % 2 == 1, Row::Lengths, 0)?;
    if reading::starts(text, b'1', b'0') {
        faults::fault(text, 56, Kind::Forcing.byte(), expected as u64, 0)?;
        fill_10(room, n, text);
    } else {
        rows_14(n, text)?;
        fill_14(room, n, text);
    }
    Ok(())
}
