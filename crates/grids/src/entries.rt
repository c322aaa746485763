// The lines of a grid text, each read from its first byte on: what it holds, where it holds what it is to hold, and the place `next` where the next line
// starts. A line whose first fields are not what they are to be is left there. `skip` and `digits_at` are called here and not by a function for one field: that
// would be too long for the compiler to put it in the place of each of its calls, and what it returns would go through memory.
ghost use Rattle.std.specs.Prelude.{drop, MatchOption};
ghost use Rattle.grids.specs.Grid.{count_tests, node_tests, triangle_tests};
ghost use Rattle.grids.specs.Private.{NoLine, CountsSeen, NodeSeen, TriangleSeen};

use crate::fields::{Depth, Whole};
use crate::{fields, scanning};

// "a line with E and N"
#[derive(Clone, Copy)]
pub(crate) struct Counts {
    pub(crate) e: u64,
    pub(crate) n: u64,
    pub(crate) next: usize,
}

// "node lines (number, x, y, depth)"
#[derive(Clone, Copy)]
pub(crate) struct NodeLine {
    pub(crate) number: u64,
    pub(crate) x: Whole,
    pub(crate) y: Whole,
    pub(crate) h: Depth,
    pub(crate) next: usize,
}

// "triangle lines (number, 3, three node numbers from 1)". No two corners stand side by side: they would be loaded as one before they are in memory.
#[derive(Clone, Copy)]
pub(crate) struct TriangleLine {
    pub(crate) first: u64,
    pub(crate) number: u64,
    pub(crate) second: u64,
    pub(crate) next: usize,
    pub(crate) third: u64,
}

pub(crate) fn counts_at(text: &[u8], from: usize) -> Option<Counts>
    ensures { MatchOption result (NoLine count_tests (drop from text.now)) (λ its. CountsSeen (drop from text.now) its (drop its.next text.now)) }
{
    if text.len() <= from {
        return None;
    }
    let a = scanning::skip(text, from);
    let e = scanning::digits_at(text, a.end);
    let b = scanning::skip(text, e.end);
    let n = scanning::digits_at(text, b.end);
    let end = scanning::skip_rest(text, n.end);
    if !(fields::is_number(a.end, e) & (fields::is_number(b.end, n) & (end.stop == 10))) {
        return None;
    }
    Some(Counts {
        e: e.value,
        n: n.value,
        next: end.end + 1,
    })
}

pub(crate) fn node_at(text: &[u8], from: usize) -> Option<NodeLine>
    ensures { MatchOption result (NoLine node_tests (drop from text.now)) (λ its. NodeSeen (drop from text.now) its (drop its.next text.now)) }
{
    if text.len() <= from {
        return None;
    }
    let a = scanning::skip(text, from);
    let number = scanning::digits_at(text, a.end);
    let b = scanning::skip(text, number.end);
    let x_from = fields::past(b.end, b.stop, 45);
    let x = scanning::digits_at(text, x_from);
    let c = scanning::skip(text, x.end);
    let y_from = fields::past(c.end, c.stop, 45);
    let y = scanning::digits_at(text, y_from);
    if !(fields::is_number(a.end, number)
        & (fields::is_number(x_from, x) & fields::is_number(y_from, y)))
    {
        return None;
    }
    let h = fields::depth_at(text, y.end)?;
    let end = scanning::skip_rest(text, h.next);
    if end.stop != 10 {
        return None;
    }
    Some(NodeLine {
        number: number.value,
        x: Whole {
            minus: b.stop == 45,
            size: x.value,
        },
        y: Whole {
            minus: c.stop == 45,
            size: y.value,
        },
        h,
        next: end.end + 1,
    })
}

pub(crate) fn triangle_at(text: &[u8], from: usize) -> Option<TriangleLine>
    ensures { MatchOption result (NoLine triangle_tests (drop from text.now)) (λ its. TriangleSeen (drop from text.now) its (drop its.next text.now)) }
{
    if text.len() <= from {
        return None;
    }
    let a = scanning::skip(text, from);
    let number = scanning::digits_at(text, a.end);
    let b = scanning::skip(text, number.end);
    let three = scanning::digits_at(text, b.end);
    let kind = fields::is_number(b.end, three) & (three.value == 3);
    if !(fields::is_number(a.end, number) & kind) {
        return None;
    }
    let c = scanning::skip(text, three.end);
    let first = scanning::digits_at(text, c.end);
    let d = scanning::skip(text, first.end);
    let second = scanning::digits_at(text, d.end);
    // Tested before the third is read: all of them at the end would be more values than there are registers.
    if !(fields::is_number(c.end, first) & fields::is_number(d.end, second)) {
        return None;
    }
    let e = scanning::skip(text, second.end);
    let third = scanning::digits_at(text, e.end);
    let end = scanning::skip_rest(text, third.end);
    if !(fields::is_number(e.end, third) & (end.stop == 10)) {
        return None;
    }
    Some(TriangleLine {
        first: first.value,
        number: number.value,
        second: second.value,
        next: end.end + 1,
        third: third.value,
    })
}
