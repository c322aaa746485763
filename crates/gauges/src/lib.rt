// The gauges of the harbour masters' board, for C programs to link: include/gauges.h declares the calls. Every slice that crosses is bytes, big-endian.
// What comes back goes through a pointer each, and the refusal number is the result.
#![tactic(auto)]

ghost use Rattle.std.specs.Prelude.{◌≡◌, ◌≤◌, Err, ltb, get_or};
ghost use Rattle.rows.specs.Scan.{refused, row, scan};
ghost use Rattle.rows.specs.Refusals.{number_of, answered};
ghost use Rattle.keeping.specs.Keeping.{given_of, add_out, update_out};
ghost use Rattle.looking.specs.Lent.{lent, lent_of};
ghost use Rattle.gauges.specs.Calls.{parameters, answer, point, given, located, located_by, locate_of, add_of, measured, measured_by, elevation_of, update_of, mark, peaked, peaked_by, peak_of};

use keeping::Mark;
use location::seeking::Point;
use looking::Lent;
use quantities::Parameters;
use rows::{Answer, Asked, Refusal, Row};

// The setting of advection does not cross: no row speaks of it.
fn parameters(dt: f64, tau: f64, k: f64, f: f64) -> Parameters
    ensures { result ≡ parameters dt tau k f }
{
    Parameters {
        dt,
        tau,
        k,
        f,
        advection: false,
    }
}

// Hands back an answer: all but the number through pointers.
fn hand_back(place: &mut usize, value: &mut f64, asked: Asked) -> u32
    ensures { answer result place.new value.new ≡ answered asked }
{
    let a = Answer::from(asked);
    *place = a.place;
    *value = a.value;
    a.number
}

// ---- the calls

// A row's refusal, where it has no value.
fn refusal(of: Row, place: usize) -> Refusal
    ensures { answered (Err result) ≡ refused (number_of of) place }
{
    Refusal {
        row: of,
        place,
        value: 0.0,
    }
}

// The lowest-numbered triangle that contains a point.
fn locate(lent: &Lent<'_>, q: Point) -> Result<u32, Refusal>
    ensures { located_by result ≡ locate_of (lent_of lent.now) q }
{
    let sight = looking::look_at(lent, q)?.ok_or(refusal(Row::Outside, 0))?;
    Ok(sight.triangle)
}

// Adds a gauge at a point, and gives out its number.
fn add(kept: &mut [u8], lent: &Lent<'_>, q: Point) -> Result<u32, Refusal>
    ensures { add_out (given_of result) kept.new ≡ add_of (lent_of lent.now) kept.old q }
{
    let sight = looking::look_at(lent, q)?;
    keeping::add(kept, Ok(()), sight.is_some(), q)
}

// The elevation at a gauge.
fn elevation(kept: &[u8], lent: &Lent<'_>, gauge: u32) -> Result<f64, Refusal>
    ensures { measured_by result ≡ elevation_of (lent_of lent.now) kept.now gauge }
{
    let seen = looking::look_at(lent, keeping::point_at(kept, gauge))?;
    keeping::number_rows(kept, gauge)?;
    let sight = seen.ok_or(refusal(Row::Outside, gauge as usize))?;
    Ok(sight.level)
}

// Row 40 of the first `count` points: the first that none of e triangles contains.
fn all_on(triangle: &[usize; 64], e: usize, count: usize) -> Asked
    requires { count ≤ 64 }
    ensures { answered result ≡ scan (λ g. row (ltb (get_or triangle.now g 0) e) 40 g) count }
{
    rows::scan(count, |g| rows::tested(triangle[g] < e, Row::Outside, g))
}

// Every gauge notes its elevation, or none does.
fn update(kept: &mut [u8], lent: &Lent<'_>, step: u32) -> Asked
    ensures { update_out (answered result) kept.new ≡ update_of (lent_of lent.now) kept.old step }
{
    let ps = keeping::points(kept);
    let count = ps.count;
    let seen = looking::look(lent, ps)?;
    let inside = all_on(&seen.triangle, lent.tri.len() / 2 / 3, count);
    keeping::update(kept, Ok(()), inside, &seen.level, step)
}

// What a record has of a gauge.
fn peak(kept: &[u8], gauge: u32) -> Result<Mark, Refusal>
    ensures { peaked_by result ≡ peak_of kept.now gauge }
{
    keeping::number_rows(kept, gauge)?;
    Ok(keeping::mark_at(kept, gauge))
}

// ---- the exports

// Finds the lowest-numbered triangle that contains a point.
#[unsafe(no_mangle)]
pub extern "C" fn gauge_locate(
    triangle: &mut u32,
    place: &mut usize,
    value: &mut f64,
    state: &[u8],
    x: &[u8],
    y: &[u8],
    tri: &[u8],
    h: &[u8],
    kind: &[u8],
    dt: f64,
    tau: f64,
    k: f64,
    f: f64,
    px: i32,
    py: i32,
) -> u32
    ensures { located (answer result place.new value.new) triangle.new ≡ locate_of (lent state.now x.now y.now tri.now h.now kind.now (parameters dt tau k f)) (point px py) }
{
    let lent = Lent {
        state,
        x,
        y,
        tri,
        h,
        kind,
        p: parameters(dt, tau, k, f),
    };
    let found = locate(&lent, Point { x: px, y: py });
    *triangle = found.unwrap_or(0);
    hand_back(place, value, found.and(Ok(())))
}

// Adds a gauge at a point.
#[unsafe(no_mangle)]
pub extern "C" fn gauge_add(
    kept: &mut [u8],
    gauge: &mut u32,
    place: &mut usize,
    value: &mut f64,
    state: &[u8],
    x: &[u8],
    y: &[u8],
    tri: &[u8],
    h: &[u8],
    kind: &[u8],
    dt: f64,
    tau: f64,
    k: f64,
    f: f64,
    px: i32,
    py: i32,
) -> u32
    ensures { add_out (given (answer result place.new value.new) gauge.new) kept.new ≡ add_of (lent state.now x.now y.now tri.now h.now kind.now (parameters dt tau k f)) kept.old (point px py) }
{
    let lent = Lent {
        state,
        x,
        y,
        tri,
        h,
        kind,
        p: parameters(dt, tau, k, f),
    };
    let added = add(kept, &lent, Point { x: px, y: py });
    *gauge = added.unwrap_or(0);
    hand_back(place, value, added.and(Ok(())))
}

// The elevation at a gauge, in the state that is lent.
#[unsafe(no_mangle)]
pub extern "C" fn gauge_elevation(
    elevation: &mut f64,
    place: &mut usize,
    value: &mut f64,
    kept: &[u8],
    state: &[u8],
    x: &[u8],
    y: &[u8],
    tri: &[u8],
    h: &[u8],
    kind: &[u8],
    dt: f64,
    tau: f64,
    k: f64,
    f: f64,
    gauge: u32,
) -> u32
    ensures { measured (answer result place.new value.new) elevation.new ≡ elevation_of (lent state.now x.now y.now tri.now h.now kind.now (parameters dt tau k f)) kept.now gauge }
{
    let lent = Lent {
        state,
        x,
        y,
        tri,
        h,
        kind,
        p: parameters(dt, tau, k, f),
    };
    let found = self::elevation(kept, &lent, gauge);
    *elevation = found.unwrap_or(0.0);
    hand_back(place, value, found.and(Ok(())))
}

// Hands a state over: every gauge notes its elevation, or none does.
#[unsafe(no_mangle)]
pub extern "C" fn gauge_update(
    kept: &mut [u8],
    place: &mut usize,
    value: &mut f64,
    state: &[u8],
    x: &[u8],
    y: &[u8],
    tri: &[u8],
    h: &[u8],
    kind: &[u8],
    dt: f64,
    tau: f64,
    k: f64,
    f: f64,
    step: u32,
) -> u32
    ensures { update_out (answer result place.new value.new) kept.new ≡ update_of (lent state.now x.now y.now tri.now h.now kind.now (parameters dt tau k f)) kept.old step }
{
    let lent = Lent {
        state,
        x,
        y,
        tri,
        h,
        kind,
        p: parameters(dt, tau, k, f),
    };
    let asked = update(kept, &lent, step);
    hand_back(place, value, asked)
}

// What a record has of a gauge.
#[unsafe(no_mangle)]
pub extern "C" fn gauge_peak(
    seen: &mut u8,
    peak: &mut f64,
    step: &mut u32,
    place: &mut usize,
    value: &mut f64,
    kept: &[u8],
    gauge: u32,
) -> u32
    ensures { peaked (answer result place.new value.new) (mark seen.new peak.new step.new) ≡ peak_of kept.now gauge }
{
    let none = Mark {
        seen: 0,
        peak: 0.0,
        step: 0,
    };
    let found = self::peak(kept, gauge);
    let k = found.unwrap_or(none);
    *seen = k.seen;
    *peak = k.peak;
    *step = k.step;
    hand_back(place, value, found.and(Ok(())))
}
