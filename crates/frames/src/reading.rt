// A text, read from a slice: a part of it, how it starts, and the values of a line's fields.
ghost use Rattle.std.specs.Prelude.{◌≡◌, ◌+◌, ◌<◌, ◌≤◌, length, take, drop};
ghost use Rattle.frames.specs.Bytes.{number};
ghost use Rattle.frames.specs.Reading.{value, float, values};
ghost use Rattle.frames.specs.Texts.{starts};

use crate::digits;

// `count` bytes of a text from `from` on, as many as there are.
pub fn part(text: &[u8], from: usize, count: usize) -> &[u8]
    ensures { result.now ≡ take count (drop from text.now) }
{
    if text.len() < from {
        return &text[0..0];
    }
    if text.len() - from < count {
        return &text[from..];
    }
    let to = from + count;
    &text[from..to]
}

// Whether a text's first two characters are these.
pub fn starts(text: &[u8], a: u8, b: u8) -> bool
    ensures { result ≡ starts a b text.now }
{
    if text.len() < 2 {
        return false;
    }
    (text[0] == a) & (text[1] == b)
}

// The field of `width` bytes that starts at byte `at` of a line.
pub fn value(line: &[u8], at: usize, width: usize) -> u64
    ensures { result ≡ value line.now at width }
{
    let bytes = line.len() / 2;
    if 8 < width {
        return 0;
    }
    if bytes < at {
        return 0;
    }
    let count = width.min(bytes - at);
    let mut v: u64 = 0;
    for k in 0..count {
        v = v * 256 + digits::byte_at(line, at + k) as u64;
    }
    v
}

// The float of the 8 bytes that start at a frame byte of a line.
pub fn float_at(line: &[u8], at: usize) -> f64
    ensures { result ≡ float line.now at }
{
    patterns::float_of(value(line, at, 8))
}

// A byte as a number, with its bound: of an element of a slice the bound is not known otherwise.
fn wide(byte: u8) -> u64
    ensures { (result ≡ byte) × (result < 256) }
{
    byte as u64
}

// The number in the 8 bytes of a frame from byte `at` on.
fn field(bytes: &[u8], at: usize) -> u64
    requires { at + 8 ≤ length bytes.now }
    ensures { result ≡ number (take 8 (drop at bytes.now)) }
{
    let mut v: u64 = 0;
    for k in 0..8 {
        v = v * 256 + wide(bytes[at + k]);
    }
    v
}

// The six fields of 8 bytes that follow kind and sequence. Where the line has them all, as a node's in edition 2, or the first four, as in edition 1, the
// digits of these are decoded in one loop.
pub fn values(line: &[u8]) -> [u64; 6]
    ensures { result ≡ values line.now }
{
    if 104 <= line.len() {
        let mut room = [0u8; 52];
        digits::frame(&mut room, line);
        let bytes: &[u8] = &room;
        return [
            field(bytes, 3),
            field(bytes, 11),
            field(bytes, 19),
            field(bytes, 27),
            field(bytes, 35),
            field(bytes, 43),
        ];
    }
    if 72 <= line.len() {
        let mut room = [0u8; 36];
        digits::frame(&mut room, line);
        let bytes: &[u8] = &room;
        return [
            field(bytes, 3),
            field(bytes, 11),
            field(bytes, 19),
            field(bytes, 27),
            value(line, 35, 8),
            value(line, 43, 8),
        ];
    }
    [
        value(line, 3, 8),
        value(line, 11, 8),
        value(line, 19, 8),
        value(line, 27, 8),
        value(line, 35, 8),
        value(line, 43, 8),
    ]
}
