// The peak record: what it holds, its refusals, and what is written into it.
#![tactic(auto)]

ghost use Rattle.std.specs.Prelude.{◌≡◌, ◌+◌, ◌*◌, ◌^◌, ◌<◌, ◌≤◌, get_or};
ghost use Rattle.std.specs.Float.{nan};
ghost use Rattle.rows.specs.Scan.{accepted};
ghost use Rattle.rows.specs.Refusals.{answered_by, answered};
ghost use Rattle.keeping.specs.Record.{row_bytes, field, place_of, field_in, seen_field, with_field, count_in, point_in, points_in, mark_in, with_mark, with_point, added, noted, all_noted, row43, keeps};
ghost use Rattle.keeping.specs.Keeping.{number_rows, given_by, add_out, add_answer, add_of, update_out, update_of};

use location::Points;
use location::seeking::Point;
use rows::{Asked, Row, Says};

// The layout: the count, then a row for each gauge.
const RECORD_BYTES: usize = 1345;

const ROW_BYTES: usize = 21;

// A field of a row: where it starts there, and how many bytes it has. Reading and writing share it.
#[derive(Clone, Copy)]
struct Field {
    offset: usize,
    width: usize,
}

const EAST: Field = Field {
    offset: 0,
    width: 4,
};

const NORTH: Field = Field {
    offset: 4,
    width: 4,
};

const SEEN: Field = Field {
    offset: 8,
    width: 1,
};

const PEAK: Field = Field {
    offset: 9,
    width: 8,
};

const STEP: Field = Field {
    offset: 17,
    width: 4,
};

// What a record has of a gauge: whether a state was seen, the highest elevation so far, and the first step that had it.
#[derive(Clone, Copy)]
pub struct Mark {
    pub seen: u8,
    pub peak: f64,
    pub step: u32,
}

// ---- what it holds

// Where a field of row g starts: after the count and g rows.
fn place_of(f: Field, g: u32) -> usize
    requires { f.offset < row_bytes }
    ensures { result ≡ place_of (field f.offset f.width) g }
{
    1 + ROW_BYTES * (g as usize) + f.offset
}

fn read(kept: &[u8], f: Field, g: u32) -> u64
    requires { f.offset < row_bytes }
    ensures { (result ≡ field_in kept.now (field f.offset f.width) g) × (result < 256 ^ f.width) }
{
    crossing::number_at(kept, place_of(f, g), f.width)
}

fn put(kept: &mut [u8], f: Field, g: u32, v: u64)
    requires { f.offset < row_bytes }
    ensures { kept.new ≡ with_field (field f.offset f.width) g v kept.old }
{
    crossing::put_number(kept, place_of(f, g), f.width, v);
}

fn count(kept: &[u8]) -> u32
    ensures { (result ≡ count_in kept.now) × (result < 256) }
{
    crossing::number_at(kept, 0, 1) as u32
}

fn seen_at(kept: &[u8], g: u32) -> u8
    ensures { result ≡ field_in kept.now seen_field g }
{
    read(kept, SEEN, g) as u8
}

pub fn point_at(kept: &[u8], g: u32) -> Point
    ensures { result ≡ point_in kept.now g }
{
    Point {
        x: crossing::int_at(kept, place_of(EAST, g)),
        y: crossing::int_at(kept, place_of(NORTH, g)),
    }
}

pub fn mark_at(kept: &[u8], g: u32) -> Mark
    ensures { result ≡ mark_in kept.now g }
{
    Mark {
        seen: seen_at(kept, g),
        peak: patterns::float_of(read(kept, PEAK, g)),
        step: read(kept, STEP, g) as u32,
    }
}

// The points of all gauges. Those of the rows past the count are read too, and nobody looks at them.
pub fn points(kept: &[u8]) -> Points
    ensures { result ≡ points_in kept.now }
{
    let mut x: [i32; 64] = [0; 64];
    let mut y: [i32; 64] = [0; 64];
    for g in 0..64 {
        let q = point_at(kept, g as u32);
        x[g] = q.x;
        y[g] = q.y;
    }
    let all = count(kept) as usize;
    let count = if all <= 64 { all } else { 0 };
    Points { count, x, y }
}

// ---- its refusals

// Row 43: the length and the count, then whether a seen is above 1.
fn record_rows(kept: &[u8]) -> Asked
    ensures { answered result ≡ row43 kept.now }
{
    rows::tested(
        (kept.len() == RECORD_BYTES) & (count(kept) <= 64),
        Row::Record,
        0,
    )?;
    rows::scan(
        64,
        |g| rows::tested(seen_at(kept, g as u32) <= 1, Row::Record, g),
    )
}

// Row 43, then row 42 of a gauge number.
pub fn number_rows(kept: &[u8], g: u32) -> Asked
    ensures { answered result ≡ number_rows kept.now g }
{
    record_rows(kept)?;
    rows::tested(g < count(kept), Row::GaugeNumber, g as usize)
}

// Row 43, then row 41 of a gauge more, and row 40 at its number.
fn add_rows(kept: &[u8], inside: bool) -> Asked
    ensures { answered result ≡ add_answer accepted inside kept.now }
{
    record_rows(kept)?;
    let g = count(kept);
    rows::tested(g < 64, Row::FullRecord, 64)?;
    rows::tested(inside, Row::Outside, g as usize)
}

// ---- what is written into it

fn put_mark(kept: &mut [u8], g: u32, k: Mark)
    ensures { kept.new ≡ with_mark g k.seen k.peak k.step kept.old }
{
    put(kept, SEEN, g, k.seen as u64);
    put(kept, PEAK, g, patterns::pattern_of(k.peak));
    put(kept, STEP, g, k.step as u64);
}

fn put_point(kept: &mut [u8], g: u32, q: Point)
    ensures { kept.new ≡ with_point g q kept.old }
{
    put(kept, EAST, g, crossing::pattern_32(q.x));
    put(kept, NORTH, g, crossing::pattern_32(q.y));
}

// The whole row, whatever a foreign record had there, and the count.
fn put_gauge(kept: &mut [u8], q: Point)
    ensures { kept.new ≡ added q kept.old }
{
    let g = count(kept);
    put_point(kept, g, q);
    put_mark(
        kept,
        g,
        Mark {
            seen: 0,
            peak: 0.0,
            step: 0,
        },
    );
    crossing::put_number(kept, 0, 1, g as u64 + 1);
}

// Adds a gauge at a point, after what the call tests before, and gives out its number. `inside`: whether some triangle contains the point.
pub fn add<E: Says>(kept: &mut [u8], asked: Result<(), E>, inside: bool, q: Point) -> Result<u32, E>
    ensures { add_out (given_by E.says result) kept.new ≡ add_of (answered_by E.says asked) inside q kept.old }
{
    asked?;
    add_rows(kept, inside)?;
    let gauge = count(kept);
    put_gauge(kept, q);
    Ok(gauge)
}

// Whether a mark stands beside this elevation: one that is seen, and at least as high.
fn keeps(k: Mark, level: f64) -> bool
    ensures { result ≡ keeps k level }
{
    (k.seen != 0) & (level <= k.peak)
}

// Gauge g notes an elevation.
fn note(kept: &mut [u8], g: u32, level: f64, step: u32)
    ensures { kept.new ≡ noted g level step kept.old }
{
    let k = mark_at(kept, g);
    if keeps(k, level) {
        return;
    }
    let new = Mark {
        seen: 1,
        peak: level,
        step,
    };
    put_mark(kept, g, new);
}

// The gauges below `count` note their elevations.
fn note_all(kept: &mut [u8], count: usize, level: &[f64; 64], step: u32)
    requires { count ≤ 64 }
    ensures { kept.new ≡ all_noted (λ g. get_or level.now g nan) step count kept.old }
{
    for g in 0..count {
        note(kept, g as u32, level[g], step);
    }
}

// Hands an elevation to every gauge, after what the call tests before row 43 and after it.
pub fn update<E: Says>(
    kept: &mut [u8],
    asked: Result<(), E>,
    also: Result<(), E>,
    level: &[f64; 64],
    step: u32,
) -> Result<(), E>
    ensures { update_out (answered_by E.says result) kept.new ≡ update_of (answered_by E.says asked) (answered_by E.says also) (λ g. get_or level.now g nan) step kept.old }
{
    asked?;
    record_rows(kept)?;
    also?;
    note_all(kept, count(kept) as usize, level, step);
    Ok(())
}

#[cfg(test)]
mod tests {
    use super::{Point, add, update};
    use rows::{Answer, answers};

    // A number of an answer is below 2^32.
    fn fits(number: u32)
        ensures { number < 4294967296 }
    {}

    // With answers before and after row 43, of any number, and an answer back. An accepted call answers what it asked last.
    fn update_answer(
        kept: &mut [u8],
        asked: Answer,
        also: Answer,
        level: &[f64; 64],
        step: u32,
    ) -> Answer
        ensures { update_out result kept.new ≡ update_of asked also (λ g. get_or level.now g nan) step kept.old }
    {
        fits(asked.number);
        fits(also.number);
        let before = answers::asked(asked);
        let behind = answers::asked(also);
        match update(kept, before, behind, level, step) {
            Ok(()) => also,
            Err(answer) => answer,
        }
    }

    // An answer that no row gives, asked before row 43 or after it, is handed on as it is.
    #[test]
    fn any_answer_is_handed_on(rt: HostRuntime) {
        let other = answers::refuse(99, 7);
        let passed = answers::refuse(0, 5);
        let mut kept = [0; 1345];
        let added = add(&mut kept, answers::asked(other), true, Point { x: 0, y: 0 });
        let add_answer = added.err().unwrap_or(answers::accept());
        let before = update_answer(&mut kept, other, passed, &[0.0; 64], 1);
        let also = update_answer(&mut kept, passed, other, &[0.0; 64], 1);
        for answer in [add_answer, before, also] {
            assert_eq!(rt; (answer.number, answer.place), (99, 7));
        }
        let all = update_answer(&mut kept, passed, passed, &[0.0; 64], 1);
        assert_eq!(rt; (all.number, all.place), (0, 5));
    }
}
