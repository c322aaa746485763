// Numbers as they cross in bytes, big-endian: read and written, and whole slices decoded.
#![tactic(auto)]

ghost use Rattle.std.specs.Prelude.{◌≡◌, ℕ, ◌+◌, ◌<◌, ◌≤◌, ◌^◌, leb, length};
ghost use Rattle.lists.specs.Table.{copied};
ghost use Rattle.crossing.specs.Crossing.{number_at, written_at, signed, unsigned, elements, ints_of, words_of, floats_of};

// ---- one number
// Whether the w places from place `at` on are all below n.
fn is_within(at: usize, w: usize, n: usize) -> bool
    ensures { result ≡ leb (at + w) n }
{
    w <= n && at <= n - w
}

// A byte as a number, with its bound: of an element of a slice the bound is not known otherwise.
fn wide(byte: u8) -> u64
    ensures { (result ≡ byte) × (result < 256) }
{
    byte as u64
}

// The number in w bytes that are there. Where w is a constant, 4 at most, the compiler makes one read of the loop.
fn taken(b: &[u8], at: usize, w: usize) -> u64
    requires { (w ≤ 8) × (at + w ≤ length b.now) }
    ensures { (result ≡ number_at b.now at w) × (result < 256 ^ w) }
{
    let mut v: u64 = 0;
    for k in 0..w {
        v = v * 256 + wide(b[at + k]);
    }
    v
}

// Of one loop over 8 bytes the compiler makes eight reads, of two halves it makes one.
fn taken_8(b: &[u8], at: usize) -> u64
    requires { at + 8 ≤ length b.now }
    ensures { result ≡ number_at b.now at 8 }
{
    taken(b, at, 4) * 0x1_0000_0000 + taken(b, at + 4, 4)
}

// The bound goes with it, since of a list that is lent nothing says that it is one of bytes.
pub fn number_at(b: &[u8], at: usize, w: usize) -> u64
    ensures { (result ≡ number_at b.now at w) × (result < 256 ^ w) }
{
    if w <= 8 && is_within(at, w, b.len()) {
        taken(b, at, w)
    } else {
        0
    }
}

// The lowest w bytes of v, written from the last to the first, so that each is a remainder.
pub fn put_number(b: &mut [u8], at: usize, w: usize, v: u64)
    ensures { b.new ≡ written_at b.old at w v }
{
    if !is_within(at, w, b.len()) {
        return;
    }
    let mut rest = v;
    for k in 0..w {
        b[at + (w - 1 - k)] = (rest % 256) as u8;
        rest = rest / 256;
    }
}

// ---- a signed number of 32 bits
fn signed_of(v: u64) -> i32
    requires { v < 2 ^ 32 }
    ensures { result ≡ signed v }
{
    if v < 0x8000_0000 {
        v as i32
    } else {
        (v as i64 - 0x1_0000_0000) as i32
    }
}

// Modulo 2^32, so that no branch is needed.
pub fn pattern_32(v: i32) -> u64
    ensures { result ≡ unsigned v }
{
    (v as i64 + 0x1_0000_0000) as u64 % 0x1_0000_0000
}

pub fn int_at(b: &[u8], at: usize) -> i32
    ensures { result ≡ signed (number_at b.now at 4) }
{
    signed_of(number_at(b, at, 4))
}

// ---- whole slices: as many elements as both have
// Each element of `width` bytes as `read` reads it at its place.
fn decoded_into<T: Copy, F: Fn(usize) -> T>(to: &mut [T], from: &[u8], width: usize, read: F)
    requires wide { 0 < width }
    requires callable { (at : ℕ) → at + width ≤ length from.now → F.pre read at }
    ensures { (f : ℕ → T) → ((at : ℕ) (r : _) → at + width ≤ length from.now → F.post read at r → r ≡ f (number_at from.now at width)) → to.new ≡ copied (elements width f from.now) to.old }
{
    for i in 0..usize::min(to.len(), from.len() / width) {
        to[i] = read(width * i);
    }
}

pub fn ints_into(to: &mut [i32], from: &[u8])
    ensures { to.new ≡ copied (ints_of from.now) to.old }
{
    decoded_into(to, from, 4, |at| signed_of(taken(from, at, 4)));
}

pub fn words_into(to: &mut [u16], from: &[u8])
    ensures { to.new ≡ copied (words_of from.now) to.old }
{
    decoded_into(to, from, 2, |at| taken(from, at, 2) as u16);
}

pub fn floats_into(to: &mut [f64], from: &[u8])
    ensures { to.new ≡ copied (floats_of from.now) to.old }
{
    decoded_into(to, from, 8, |at| patterns::float_of(taken_8(from, at)));
}
