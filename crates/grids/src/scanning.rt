// Bytes of a text, from one of them on. What is left from a byte on is `drop from text`. Fields are short and of much the same length from line to line:
// a run's first bytes are read without a test of the text's end at each of them, in a loop of so few turns that it is unrolled, and only the rest goes byte by byte.
ghost use Rattle.std.specs.Prelude.{◌≡◌, ◌+◌, ◌-◌, ◌*◌, ◌≤◌, min, ◌||◌, length, drop, ◌==◌};
ghost use Rattle.grids.specs.Numbers.{after_first};
ghost use Rattle.grids.specs.Private.{most, GapSeen, DigitsSeen};

// No number that a grid text is asked for comes to this: it is above every count of places that can be lent.
const MOST: u64 = 1800000000000000000;

// Spaces: where they end, and the byte there, a line feed for the text's end.
#[derive(Clone, Copy)]
pub(crate) struct Gap {
    pub(crate) end: usize,
    pub(crate) stop: u8,
}

// A run of digits: its value, or MOST where that is as much or more, where it ends, and the byte there.
#[derive(Clone, Copy)]
pub(crate) struct Digits {
    pub(crate) value: u64,
    pub(crate) end: usize,
    pub(crate) stop: u8,
}

// The spaces from `from` on, byte by byte.
pub(crate) fn skip_rest(text: &[u8], from: usize) -> Gap
    requires { from ≤ length text.now }
    ensures { GapSeen text.now from result }
{
    let end = text.len();
    for at in from..end {
        let byte = text[at];
        if byte != 32 {
            return Gap {
                end: at,
                stop: byte,
            };
        }
    }
    Gap { end, stop: 10 }
}

// The spaces from `from` on.
pub(crate) fn skip(text: &[u8], from: usize) -> Gap
    requires { from ≤ length text.now }
    ensures { GapSeen text.now from result }
{
    if 8 <= text.len() - from {
        for j in 0..8 {
            let byte = text[from + j];
            if byte != 32 {
                return Gap {
                    end: from + j,
                    stop: byte,
                };
            }
        }
    }
    skip_rest(text, from)
}

// A value with one digit more. The count stops at MOST.
fn more(value: u64, byte: u8) -> u64
    requires { (value ≤ most) × (48 ≤ byte) × (byte ≤ 57) }
    ensures { result ≡ min (10 * value + (byte - 48)) most }
{
    let next = 10 * value + (byte as u64 - 48);
    if next < MOST { next } else { MOST }
}

// The digits from `from` on, byte by byte, after those that came to `first`.
fn digits_rest(text: &[u8], from: usize, first: u64) -> Digits
    requires { (from ≤ length text.now) × (first ≤ most) }
    ensures { DigitsSeen text.now from first result }
{
    let mut value = first;
    let end = text.len();
    for at in from..end {
        let byte = text[at];
        if !((48 <= byte) & (byte <= 57)) {
            return Digits {
                value,
                end: at,
                stop: byte,
            };
        }
        value = more(value, byte);
    }
    Digits {
        value,
        end,
        stop: 10,
    }
}

// The digits from `from` on.
pub(crate) fn digits_at(text: &[u8], from: usize) -> Digits
    requires { from ≤ length text.now }
    ensures { DigitsSeen text.now from 0 result }
{
    let mut value: u64 = 0;
    let mut at = from;
    if 5 <= text.len() - from {
        for j in 0..5 {
            let byte = text[from + j];
            let digit = std::num::wrapping_sub_u64(byte as u64, 48);
            if 9 < digit {
                return Digits {
                    value,
                    end: from + j,
                    stop: byte,
                };
            }
            value = 10 * value + digit;
        }
        at += 5;
    }
    digits_rest(text, at, value)
}

// Whether a field ends before this byte: a space or a line feed.
pub(crate) fn is_end(byte: u8) -> bool
    ensures { result ≡ (byte == 32 || byte == 10) }
{
    (byte == 32) | (byte == 10)
}

// Past the line that `from` stands in.
pub(crate) fn past_line(text: &[u8], from: usize) -> usize
    ensures { drop result text.now ≡ after_first 10 (drop from text.now) }
{
    for at in from..text.len() {
        if text[at] == 10 {
            return at + 1;
        }
    }
    text.len()
}
