// The calls on a run, for C programs to link: include/surge.h declares them. Each is the product's call of the same name. A slice crosses as a pointer
// and a length, and a record as the numbers that it holds: those that come back, or go in and come back, through a pointer each, the others as
// themselves. The refusal number is the result. No length is tested here: the product's row 1 does it, so a call answers exactly as the product's.
#![tactic(auto)]

ghost use Rattle.std.specs.Prelude.{◌≡◌};
ghost use Rattle.rows.specs.Refusals.{answered};
ghost use Rattle.mesh.specs.Lent.{mesh};
ghost use Rattle.surge.specs.Lent.{run, replied, after};
ghost use Rattle.surge.specs.Open.{open_of};
ghost use Rattle.surge.specs.Step.{step_out, step_of};
ghost use Rattle.surge.specs.StepAll.{list_out, step_all_of};
ghost use Rattle.passes.specs.Settle.{lent_rooms};
ghost use Rattle.saves.specs.Save.{save_out, save_of};
ghost use Rattle.loads.specs.Load.{load_of};
ghost use Rattle.forcings.specs.Forcings.{taken, taken_of};
ghost use Rattle.grids.specs.Grid.{grid, read_out, read_of};
ghost use Rattle.capi.specs.Numbers.{parameters, clock, answer, reply, list_reply};

use mesh::Mesh;
use quantities::Parameters;
use rows::{Answer, Asked, Refusal};
use surge::Clock;

// The setting of advection crosses as a byte: 0 is off, every other value on.
fn parameters(dt: f64, tau: f64, k: f64, f: f64, advection: u8) -> Parameters
    ensures { result ≡ parameters dt tau k f advection }
{
    Parameters {
        dt,
        tau,
        k,
        f,
        advection: advection != 0,
    }
}

// Hands back what was asked: all but the number through pointers.
fn hand_back(place: &mut usize, value: &mut f64, asked: Asked) -> u32
    ensures { answer result place.new value.new ≡ answered asked }
{
    let answer = Answer::from(asked);
    *place = answer.place;
    *value = answer.value;
    answer.number
}

// And what a step or a load gives: a refusal leaves the step number.
fn hand_clock(
    place: &mut usize,
    value: &mut f64,
    step: &mut u32,
    called: Result<Clock, Refusal>,
) -> u32
    ensures { reply (answer result place.new value.new) (clock step.new) ≡ replied (clock step.old) called }
{
    match called {
        Ok(clock) => {
            *step = clock.step;
            hand_back(place, value, Ok(()))
        }
        Err(refusal) => hand_back(place, value, Err(refusal)),
    }
}

// Opens a mesh. The clock only comes back: it is the cold one, refused or not.
#[unsafe(no_mangle)]
pub extern "C" fn surge_open(
    state: &mut [f64],
    place: &mut usize,
    value: &mut f64,
    step: &mut u32,
    x: &[i32],
    y: &[i32],
    tri: &[u16],
    h: &[f64],
    kind: &[u8],
    dt: f64,
    tau: f64,
    k: f64,
    f: f64,
    advection: u8,
) -> u32
    ensures { after (reply (answer result place.new value.new) (clock step.new)) state.new ≡ open_of (mesh x.now y.now tri.now h.now kind.now) (parameters dt tau k f advection) state.old }
{
    let p = parameters(dt, tau, k, f, advection);
    let m = Mesh { x, y, tri, h, kind };
    let opened = surge::open(state, &m, p);
    *step = opened.clock.step;
    hand_back(place, value, opened.asked)
}

// Steps. The clock goes in and comes back.
#[unsafe(no_mangle)]
pub extern "C" fn surge_step(
    next: &mut [f64],
    work: &mut [f64],
    sums: &mut [u64],
    place: &mut usize,
    value: &mut f64,
    step: &mut u32,
    state: &[f64],
    forcing: &[f64],
    x: &[i32],
    y: &[i32],
    tri: &[u16],
    h: &[f64],
    kind: &[u8],
    dt: f64,
    tau: f64,
    k: f64,
    f: f64,
    advection: u8,
) -> u32
    ensures { step_out (reply (answer result place.new value.new) (clock step.new)) next.new work.new sums.new ≡ step_of (mesh x.now y.now tri.now h.now kind.now) (parameters dt tau k f advection) (run state.now (clock step.old)) forcing.now (lent_rooms next.old work.old sums.old) }
{
    let p = parameters(dt, tau, k, f, advection);
    let m = Mesh { x, y, tri, h, kind };
    let c = Clock { step: *step };
    let stepped = surge::step(next, work, sums, state, forcing, &m, p, c);
    hand_clock(place, value, step, stepped)
}

// Steps through a list. The clock goes in and comes back, and the count of accepted steps comes back.
#[unsafe(no_mangle)]
pub extern "C" fn surge_step_all(
    next: &mut [f64],
    work: &mut [f64],
    sums: &mut [u64],
    place: &mut usize,
    value: &mut f64,
    step: &mut u32,
    accepted: &mut u32,
    state: &[f64],
    forcings: &[f64],
    x: &[i32],
    y: &[i32],
    tri: &[u16],
    h: &[f64],
    kind: &[u8],
    dt: f64,
    tau: f64,
    k: f64,
    f: f64,
    advection: u8,
) -> u32
    ensures { list_out (list_reply (reply (answer result place.new value.new) (clock step.new)) accepted.new) next.new work.new sums.new ≡ step_all_of (mesh x.now y.now tri.now h.now kind.now) (parameters dt tau k f advection) (run state.now (clock step.old)) forcings.now (lent_rooms next.old work.old sums.old) }
{
    let p = parameters(dt, tau, k, f, advection);
    let m = Mesh { x, y, tri, h, kind };
    let c = Clock { step: *step };
    let stepped = surge::step_all(next, work, sums, state, forcings, &m, p, c);
    *accepted = stepped.accepted;
    *step = stepped.clock.step;
    hand_back(place, value, stepped.asked)
}

// Saves. The clock only goes in; the place of an accepted answer is the bytes written.
#[unsafe(no_mangle)]
pub extern "C" fn surge_save(
    text: &mut [u8],
    place: &mut usize,
    value: &mut f64,
    state: &[f64],
    x: &[i32],
    y: &[i32],
    tri: &[u16],
    h: &[f64],
    kind: &[u8],
    dt: f64,
    tau: f64,
    k: f64,
    f: f64,
    advection: u8,
    step: u32,
) -> u32
    ensures { save_out (answer result place.new value.new) text.new ≡ save_of (mesh x.now y.now tri.now h.now kind.now) (parameters dt tau k f advection) state.now (clock step) text.old }
{
    let p = parameters(dt, tau, k, f, advection);
    let m = Mesh { x, y, tri, h, kind };
    let c = Clock { step };
    match saves::save(text, state, &m, p, c) {
        Ok(bytes) => {
            let number = hand_back(place, value, Ok(()));
            *place = bytes;
            number
        }
        Err(refusal) => hand_back(place, value, Err(refusal)),
    }
}

// Loads. The clock goes in, since a refusal leaves it as found, and comes back.
#[unsafe(no_mangle)]
pub extern "C" fn surge_load(
    state: &mut [f64],
    place: &mut usize,
    value: &mut f64,
    step: &mut u32,
    text: &[u8],
    x: &[i32],
    y: &[i32],
    tri: &[u16],
    h: &[f64],
    kind: &[u8],
    dt: f64,
    tau: f64,
    k: f64,
    f: f64,
    advection: u8,
) -> u32
    ensures { after (reply (answer result place.new value.new) (clock step.new)) state.new ≡ load_of (mesh x.now y.now tri.now h.now kind.now) (parameters dt tau k f advection) text.now state.old (clock step.old) }
{
    let p = parameters(dt, tau, k, f, advection);
    let m = Mesh { x, y, tri, h, kind };
    hand_clock(place, value, step, loads::load(state, text, &m, p))
}

// Reads a forcing into a room. The room is written only where the reading is accepted.
#[unsafe(no_mangle)]
pub extern "C" fn surge_read_forcing(
    forcing: &mut [f64],
    place: &mut usize,
    value: &mut f64,
    text: &[u8],
    expected: u32,
) -> u32
    ensures { taken (answer result place.new value.new) forcing.new ≡ taken_of forcing.old text.now expected }
{
    let taken = forcings::read_forcing(forcing, text, expected);
    hand_back(place, value, taken)
}

// Reads a grid file into the rooms of a mesh.
#[unsafe(no_mangle)]
pub extern "C" fn surge_read_grid(
    x: &mut [i32],
    y: &mut [i32],
    h: &mut [f64],
    tri: &mut [u16],
    place: &mut usize,
    value: &mut f64,
    text: &[u8],
) -> u32
    ensures { read_out (answer result place.new value.new) (grid x.new y.new h.new tri.new) ≡ read_of (grid x.old y.old h.old tri.old) text.now }
{
    let read = grids::read_grid(x, y, h, tri, text);
    hand_back(place, value, read)
}
