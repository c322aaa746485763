// A line while it is built. Appending is total: where there is no room, the line comes back unchanged.
#![tactic(auto)]

ghost use Rattle.std.specs.Prelude.{◌≡◌, ◌<◌};
ghost use Rattle.frames.specs.Bytes.{digit, digits, field};
ghost use Rattle.lines.specs.Building.{appended, begun, sealed, put_out, put_of};

use frames::digits;

// The digits of the longest line, and its line feed.
const LONGEST: usize = 105;

// What a line may hold at most, so that check byte and line feed still go behind it.
const SEALABLE: usize = LONGEST - 3;

// The character of a digit: upper-case hexadecimal.
fn digit(n: u8) -> u8
    requires { n < 16 }
    ensures { result ≡ digit n }
{
    if n < 10 { 48 + n } else { 55 + n }
}

#[derive(Drop)]
pub struct Line {
    bytes: [u8; LONGEST],
    len: usize,
}

impl Line {
    pub fn begin(kind: u8, sequence: u64) -> Line
        ensures { result ≡ begun kind sequence }
    {
        let blank = Line {
            bytes: [0u8; LONGEST],
            len: 0,
        };
        blank.append(1, kind as u64).append(2, sequence)
    }

    // The lowest `width` bytes of the value, written from the last digit to the first, so that each is a remainder.
    pub fn append(self, width: usize, value: u64) -> Line
        ensures { result ≡ appended self (digits (field width value)) }
    {
        let at = self.len;
        if LONGEST < at {
            return self;
        }
        if (LONGEST - at) / 2 < width {
            return self;
        }
        let mut bytes = self.bytes;
        let mut rest = value;
        for k in (0..2 * width).rev() {
            bytes[at + k] = digit((rest % 16) as u8);
            rest /= 16;
        }
        Line {
            bytes,
            len: at + 2 * width,
        }
    }

    // The check byte and the line feed.
    pub fn seal(self) -> Line
        ensures { result ≡ sealed self }
    {
        let at = self.len;
        if SEALABLE < at {
            return self;
        }
        let bytes = self.bytes;
        let tally = digits::tallied(&bytes[0..at]);
        let mut line = self.append(1, 256 - tally.sum as u64);
        line.bytes[at + 2] = b'\n';
        line.len = at + 3;
        line
    }
}

// The line's bytes, put into a text at a place; the place after them comes back. Where they do not fit, nothing is written.
pub fn put(text: &mut [u8], at: usize, line: Line) -> usize
    ensures { put_out result text.new ≡ put_of text.old at line }
{
    let n = line.len.min(LONGEST);
    if text.len() < n {
        return at;
    }
    if text.len() - n < at {
        return at;
    }
    text[at..at + n].copy_from_slice(&line.bytes[..n]);
    at + n
}
