// Rows 20 to 22 of the refusal table, of one line.
#![tactic(auto)]

ghost use Rattle.std.specs.Prelude.{◌≡◌};
ghost use Rattle.rows.specs.Refusals.{answered};
ghost use Rattle.faults.specs.Faults.{is_framed, fault};

use frames::{digits, reading};
use rows::{Asked, Row};

// The digits due, two for each byte, and then the line feed and nothing more.
fn is_framed(line: &[u8], due: usize) -> bool
    ensures { result ≡ is_framed line.now due }
{
    if line.len() <= due {
        return false;
    }
    (line.len() == due + 1) & (due % 2 == 0) & (line[due] == b'\n')
}

// Rows 20, 21 and 22 of a line of `due` digits that is to have this kind and this sequence.
pub fn fault(line: &[u8], due: usize, kind: u8, sequence: u64, place: usize) -> Asked
    ensures { answered result ≡ fault line.now due kind sequence place }
{
    let tally = digits::tallied(line);
    rows::tested(is_framed(line, due) & tally.right, Row::Framing, place)?;
    rows::tested(tally.sum == 0, Row::CheckByte, place)?;
    let same = (reading::value(line, 0, 1) == kind as u64)
        & (reading::value(line, 1, 2) == sequence);
    rows::tested(same, Row::Sequence, place)
}
