// The static library of the gauges' calls: each export is the call of the same name of `gauges`, with its clauses. include/gauges.h declares them.
#![tactic(auto)]

ghost use Rattle.std.specs.Prelude.{◌≡◌};
ghost use Rattle.keeping.specs.Keeping.{add_out, update_out};
ghost use Rattle.looking.specs.Lent.{lent};
ghost use Rattle.gauges.specs.Calls.{parameters, answer, point, given, located, locate_of, add_of, measured, elevation_of, update_of, mark, peaked, peak_of};

// Finds the lowest-numbered triangle that contains a point.
#[unsafe(no_mangle)]
pub extern "C" fn gauge_locate(
    triangle: &mut u32,
    place: &mut usize,
    value: &mut f64,
    state: &[u8],
    x: &[u8],
    y: &[u8],
    tri: &[u8],
    h: &[u8],
    kind: &[u8],
    dt: f64,
    tau: f64,
    k: f64,
    f: f64,
    px: i32,
    py: i32,
) -> u32
    ensures { located (answer result place.new value.new) triangle.new ≡ locate_of (lent state.now x.now y.now tri.now h.now kind.now (parameters dt tau k f)) (point px py) }
{
    gauges::gauge_locate(
        triangle, place, value, state, x, y, tri, h, kind, dt, tau, k, f, px, py,
    )
}

// Adds a gauge at a point.
#[unsafe(no_mangle)]
pub extern "C" fn gauge_add(
    kept: &mut [u8],
    gauge: &mut u32,
    place: &mut usize,
    value: &mut f64,
    state: &[u8],
    x: &[u8],
    y: &[u8],
    tri: &[u8],
    h: &[u8],
    kind: &[u8],
    dt: f64,
    tau: f64,
    k: f64,
    f: f64,
    px: i32,
    py: i32,
) -> u32
    ensures { add_out (given (answer result place.new value.new) gauge.new) kept.new ≡ add_of (lent state.now x.now y.now tri.now h.now kind.now (parameters dt tau k f)) kept.old (point px py) }
{
    gauges::gauge_add(
        kept, gauge, place, value, state, x, y, tri, h, kind, dt, tau, k, f, px, py,
    )
}

// The elevation at a gauge, in the state that is lent.
#[unsafe(no_mangle)]
pub extern "C" fn gauge_elevation(
    elevation: &mut f64,
    place: &mut usize,
    value: &mut f64,
    kept: &[u8],
    state: &[u8],
    x: &[u8],
    y: &[u8],
    tri: &[u8],
    h: &[u8],
    kind: &[u8],
    dt: f64,
    tau: f64,
    k: f64,
    f: f64,
    gauge: u32,
) -> u32
    ensures { measured (answer result place.new value.new) elevation.new ≡ elevation_of (lent state.now x.now y.now tri.now h.now kind.now (parameters dt tau k f)) kept.now gauge }
{
    gauges::gauge_elevation(
        elevation, place, value, kept, state, x, y, tri, h, kind, dt, tau, k, f, gauge,
    )
}

// Hands a state over: every gauge notes its elevation, or none does.
#[unsafe(no_mangle)]
pub extern "C" fn gauge_update(
    kept: &mut [u8],
    place: &mut usize,
    value: &mut f64,
    state: &[u8],
    x: &[u8],
    y: &[u8],
    tri: &[u8],
    h: &[u8],
    kind: &[u8],
    dt: f64,
    tau: f64,
    k: f64,
    f: f64,
    step: u32,
) -> u32
    ensures { update_out (answer result place.new value.new) kept.new ≡ update_of (lent state.now x.now y.now tri.now h.now kind.now (parameters dt tau k f)) kept.old step }
{
    gauges::gauge_update(
        kept, place, value, state, x, y, tri, h, kind, dt, tau, k, f, step,
    )
}

// What a record has of a gauge.
#[unsafe(no_mangle)]
pub extern "C" fn gauge_peak(
    seen: &mut u8,
    peak: &mut f64,
    step: &mut u32,
    place: &mut usize,
    value: &mut f64,
    kept: &[u8],
    gauge: u32,
) -> u32
    ensures { peaked (answer result place.new value.new) (mark seen.new peak.new step.new) ≡ peak_of kept.now gauge }
{
    gauges::gauge_peak(seen, peak, step, place, value, kept, gauge)
}
