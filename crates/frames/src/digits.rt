// Hexadecimal in either case, two digits for each byte.
ghost use Rattle.std.specs.Prelude.{◌≡◌, ◌+◌, ◌*◌, ◌<◌, ◌≤◌, length, take, slice_index};
ghost use Rattle.frames.specs.Bytes.{worth, bytes};
ghost use Rattle.frames.specs.Reading.{tallied};

// What a digit is worth, and 16 where it is no digit: the one place that knows what a digit is. It has no early exit, so that the compiler vectorises the
// loops over it.
fn worth(d: u8) -> u8
    ensures { result ≡ worth d }
{
    let lower = if (97 <= d) & (d <= 102) { d - 87 } else { 16 };
    let letter = if (65 <= d) & (d <= 70) { d - 55 } else { lower };
    if (48 <= d) & (d <= 57) {
        d - 48
    } else {
        letter
    }
}

// Byte k of a text that is long enough: that of its two characters, where what is no digit counts as 0.
pub(crate) fn byte_at(text: &[u8], k: usize) -> u8
    requires { 2 * k + 1 < length text.now }
    ensures { (result ≡ slice_index (bytes text.now) k) × (result < 256) }
{
    let high = worth(text[2 * k]);
    let low = worth(text[2 * k + 1]);
    high % 16 * 16 + low % 16
}

// As many bytes of a text as `out` has places. Each caller lends an array, whose length is fixed, so that the compiler vectorises the loop.
pub(crate) fn frame(out: &mut [u8], text: &[u8])
    requires { 2 * length out.old ≤ length text.now }
    ensures { out.new ≡ take (length out.old) (bytes text.now) }
{
    let n = out.len();
    for k in 0..n {
        out[k] = byte_at(text, k);
    }
}

// The sum of a text's bytes, modulo 256, and whether they are made of digits.
#[derive(Clone, Copy)]
pub struct Tally {
    pub sum: u16,
    pub right: bool,
}

// Digits and sum in one pass over the characters, and not over the pairs: what is read lies side by side and all numbers are bytes, so that the compiler
// takes sixteen characters at a time. `side` is 0 at a byte's high digit and 128 at its low one. It grows by 128 and wraps, so that the compiler has the
// sixteen sides once, before the loop; `c % 2` it would work out in 64 bits for each character.
pub fn tallied(text: &[u8]) -> Tally
    ensures { result ≡ tallied text.now }
{
    let n = text.len() / 2 * 2;
    let mut sum: u8 = 0;
    let mut right = true;
    let mut side: u8 = 0;
    for c in 0..n {
        let digit = worth(text[c]);
        right = right & (digit < 16);
        let part = if side == 0 {
            digit % 16 * 16
        } else {
            digit % 16
        };
        sum = std::num::wrapping_add_u8(sum, part);
        side = std::num::wrapping_add_u8(side, 128);
    }
    Tally {
        sum: sum as u16,
        right,
    }
}
