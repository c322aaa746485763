// The static library of the calls on a run: each export is the call of the same name of `capi`, with its clauses. include/surge.h declares them.
#![tactic(auto)]

ghost use Rattle.std.specs.Prelude.{◌≡◌};
ghost use Rattle.mesh.specs.Lent.{mesh};
ghost use Rattle.surge.specs.Lent.{run, after};
ghost use Rattle.surge.specs.Open.{open_of};
ghost use Rattle.surge.specs.Step.{step_out, step_of};
ghost use Rattle.surge.specs.StepAll.{list_out, step_all_of};
ghost use Rattle.passes.specs.Settle.{lent_rooms};
ghost use Rattle.saves.specs.Save.{save_out, save_of};
ghost use Rattle.loads.specs.Load.{load_of};
ghost use Rattle.forcings.specs.Forcings.{taken, taken_of};
ghost use Rattle.grids.specs.Grid.{grid, read_out, read_of};
ghost use Rattle.capi.specs.Numbers.{parameters, clock, answer, reply, list_reply};

// Opens a mesh. The clock only comes back: it is the cold one, refused or not.
#[unsafe(no_mangle)]
pub extern "C" fn surge_open(
    state: &mut [f64],
    place: &mut usize,
    value: &mut f64,
    step: &mut u32,
    x: &[i32],
    y: &[i32],
    tri: &[u16],
    h: &[f64],
    kind: &[u8],
    dt: f64,
    tau: f64,
    k: f64,
    f: f64,
    advection: u8,
) -> u32
    ensures { after (reply (answer result place.new value.new) (clock step.new)) state.new ≡ open_of (mesh x.now y.now tri.now h.now kind.now) (parameters dt tau k f advection) state.old }
{
    capi::surge_open(
        state, place, value, step, x, y, tri, h, kind, dt, tau, k, f, advection,
    )
}

// Steps. The clock goes in and comes back.
#[unsafe(no_mangle)]
pub extern "C" fn surge_step(
    next: &mut [f64],
    work: &mut [f64],
    sums: &mut [u64],
    place: &mut usize,
    value: &mut f64,
    step: &mut u32,
    state: &[f64],
    forcing: &[f64],
    x: &[i32],
    y: &[i32],
    tri: &[u16],
    h: &[f64],
    kind: &[u8],
    dt: f64,
    tau: f64,
    k: f64,
    f: f64,
    advection: u8,
) -> u32
    ensures { step_out (reply (answer result place.new value.new) (clock step.new)) next.new work.new sums.new ≡ step_of (mesh x.now y.now tri.now h.now kind.now) (parameters dt tau k f advection) (run state.now (clock step.old)) forcing.now (lent_rooms next.old work.old sums.old) }
{
    capi::surge_step(
        next, work, sums, place, value, step, state, forcing, x, y, tri, h, kind, dt, tau, k, f,
        advection,
    )
}

// Steps through a list. The clock goes in and comes back, and the count of accepted steps comes back.
#[unsafe(no_mangle)]
pub extern "C" fn surge_step_all(
    next: &mut [f64],
    work: &mut [f64],
    sums: &mut [u64],
    place: &mut usize,
    value: &mut f64,
    step: &mut u32,
    accepted: &mut u32,
    state: &[f64],
    forcings: &[f64],
    x: &[i32],
    y: &[i32],
    tri: &[u16],
    h: &[f64],
    kind: &[u8],
    dt: f64,
    tau: f64,
    k: f64,
    f: f64,
    advection: u8,
) -> u32
    ensures { list_out (list_reply (reply (answer result place.new value.new) (clock step.new)) accepted.new) next.new work.new sums.new ≡ step_all_of (mesh x.now y.now tri.now h.now kind.now) (parameters dt tau k f advection) (run state.now (clock step.old)) forcings.now (lent_rooms next.old work.old sums.old) }
{
    capi::surge_step_all(
        next, work, sums, place, value, step, accepted, state, forcings, x, y, tri, h, kind, dt,
        tau, k, f, advection,
    )
}

// Saves. The clock only goes in; the place of an accepted answer is the bytes written.
#[unsafe(no_mangle)]
pub extern "C" fn surge_save(
    text: &mut [u8],
    place: &mut usize,
    value: &mut f64,
    state: &[f64],
    x: &[i32],
    y: &[i32],
    tri: &[u16],
    h: &[f64],
    kind: &[u8],
    dt: f64,
    tau: f64,
    k: f64,
    f: f64,
    advection: u8,
    step: u32,
) -> u32
    ensures { save_out (answer result place.new value.new) text.new ≡ save_of (mesh x.now y.now tri.now h.now kind.now) (parameters dt tau k f advection) state.now (clock step) text.old }
{
    capi::surge_save(
        text, place, value, state, x, y, tri, h, kind, dt, tau, k, f, advection, step,
    )
}

// Loads. The clock goes in, since a refusal leaves it as found, and comes back.
#[unsafe(no_mangle)]
pub extern "C" fn surge_load(
    state: &mut [f64],
    place: &mut usize,
    value: &mut f64,
    step: &mut u32,
    text: &[u8],
    x: &[i32],
    y: &[i32],
    tri: &[u16],
    h: &[f64],
    kind: &[u8],
    dt: f64,
    tau: f64,
    k: f64,
    f: f64,
    advection: u8,
) -> u32
    ensures { after (reply (answer result place.new value.new) (clock step.new)) state.new ≡ load_of (mesh x.now y.now tri.now h.now kind.now) (parameters dt tau k f advection) text.now state.old (clock step.old) }
{
    capi::surge_load(
        state, place, value, step, text, x, y, tri, h, kind, dt, tau, k, f, advection,
    )
}

// Reads a forcing into a room. The room is written only where the reading is accepted.
#[unsafe(no_mangle)]
pub extern "C" fn surge_read_forcing(
    forcing: &mut [f64],
    place: &mut usize,
    value: &mut f64,
    text: &[u8],
    expected: u32,
) -> u32
    ensures { taken (answer result place.new value.new) forcing.new ≡ taken_of forcing.old text.now expected }
{
    capi::surge_read_forcing(forcing, place, value, text, expected)
}

// Reads a grid file into the rooms of a mesh.
#[unsafe(no_mangle)]
pub extern "C" fn surge_read_grid(
    x: &mut [i32],
    y: &mut [i32],
    h: &mut [f64],
    tri: &mut [u16],
    place: &mut usize,
    value: &mut f64,
    text: &[u8],
) -> u32
    ensures { read_out (answer result place.new value.new) (grid x.new y.new h.new tri.new) ≡ read_of (grid x.old y.old h.old tri.old) text.now }
{
    capi::surge_read_grid(x, y, h, tri, place, value, text)
}
