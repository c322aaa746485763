// What a field of a line is, once its spaces and its digits have been read.
ghost use Rattle.std.specs.Prelude.{◌≡◌, ◌+◌, ◌-◌, ◌*◌, ◌^◌, ◌<◌, ◌≤◌, false, length, drop, if◌then◌else◌, nat_eq, IfSome, MatchOption};
ghost use Rattle.grids.specs.Numbers.{is_depth};
ghost use Rattle.grids.specs.Private.{first, DepthSeen, closed};

use crate::scanning;
use crate::scanning::Digits;

// A number after an optional minus.
#[derive(Clone, Copy)]
pub(crate) struct Whole {
    pub(crate) minus: bool,
    pub(crate) size: u64,
}

// A depth. It is `short` where it has at most nine whole digits and three decimals, and its size is then in thousandths.
#[derive(Clone, Copy)]
pub(crate) struct Depth {
    pub(crate) minus: bool,
    pub(crate) short: bool,
    pub(crate) size: u64,
    pub(crate) next: usize,
}

// Past the byte at `at`, where it is this mark.
pub(crate) fn past(at: usize, byte: u8, mark: u8) -> usize
    requires { at < 2 ^ 63 }
    ensures { result ≡ (if nat_eq byte mark then at + 1 else at) }
{
    if byte == mark { at + 1 } else { at }
}

// Whether the digits from `first` on are a field, or what a minus leaves of one.
pub(crate) fn is_number(first: usize, run: Digits) -> bool
    ensures { result ≡ closed first run }
{
    (first < run.end) & scanning::is_end(run.stop)
}

// What one of the last of so many decimals counts, in thousandths.
fn unit(places: usize) -> u64
    requires { places ≤ 3 }
    ensures { (result ≡ 10 ^ (3 - places)) × (result ≤ 1000) }
{
    match places {
        0 => 1000,
        1 => 100,
        2 => 10,
        _ => 1,
    }
}

// The thousandths of a depth that is short.
fn thousandths(whole: u64, decimals: u64, places: usize) -> u64
    requires { (whole < 10 ^ 9) × (decimals < 1000) × (places ≤ 3) }
    ensures { (result ≡ whole * 1000 + decimals * 10 ^ (3 - places)) × (result ≤ 2 ^ 53) }
{
    whole * 1000 + decimals * unit(places)
}

pub(crate) fn depth_at(text: &[u8], from: usize) -> Option<Depth>
    requires { from ≤ length text.now }
    ensures depth_seen { MatchOption result (false ≡ is_depth (first (drop from text.now))) (λ h. DepthSeen (drop from text.now) h (drop h.next text.now)) }
    ensures next_in_bounds { IfSome result (λ h. h.next ≤ length text.now) }
{
    let gap = scanning::skip(text, from);
    let first = past(gap.end, gap.stop, 45);
    let whole = scanning::digits_at(text, first);
    let point = past(whole.end, whole.stop, 46);
    let decimals = scanning::digits_at(text, point);
    let digits = whole.end - first;
    let places = decimals.end - point;
    let parts = (whole.stop != 46) | (0 < places);
    if !((0 < digits) & parts & scanning::is_end(decimals.stop)) {
        return None;
    }
    let short = (digits <= 9) & (places <= 3);
    let size = if short {
        thousandths(whole.value, decimals.value, places)
    } else {
        0
    };
    Some(Depth {
        minus: gap.stop == 45,
        short,
        size,
        next: decimals.end,
    })
}
