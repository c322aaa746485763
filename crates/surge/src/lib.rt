// The storm-surge run of document 01: the calls that are made on it, and what goes into them and comes back.
#![tactic(auto)]

ghost use Rattle.std.specs.Prelude.{◌≡◌, ◌<◌};
ghost use Rattle.mesh.specs.Lent.{mesh_of};
ghost use Rattle.passes.specs.Settle.{lent_rooms};
ghost use Rattle.surge.specs.Lent.{run, cold_clock, advanced, replied, after};
ghost use Rattle.surge.specs.Open.{open_replied, open_of};
ghost use Rattle.surge.specs.Step.{step_out, step_of};
ghost use Rattle.surge.specs.StepAll.{list_replied, list_out, step_all_of};

use bounds::STATE_RUNS;
use lists::slices;
use mesh::Mesh;
use quantities::Parameters;
use rows::{Asked, Refusal, Row};

// The step number.
#[derive(Clone, Copy)]
pub struct Clock {
    pub step: u32,
}

impl Clock {
    // The clock of a cold start.
    pub(crate) fn cold() -> Self
        ensures { result ≡ cold_clock }
    {
        Clock { step: 0 }
    }

    // The clock after a step: one step more.
    pub(crate) fn advanced(self) -> Self
        requires { self.step < 4294967295 }
        ensures { result ≡ advanced self }
    {
        let step = self.step + 1;
        Clock { step }
    }
}

// What opening a mesh hands back: what it answers, and in either case the clock.
#[derive(Clone, Copy)]
pub struct Reply {
    pub asked: Asked,
    pub clock: Clock,
}

// What a call on a list of forcings hands back: what it answers, and in either case the clock and the count of accepted steps.
#[derive(Clone, Copy)]
pub struct ListReply {
    pub asked: Asked,
    pub clock: Clock,
    pub accepted: u32,
}

// Opens a mesh: rows 1 to 9, then the cold state. A refusal leaves the state as found. The cold clock comes back either way.
pub fn open(state: &mut [f64], m: &Mesh<'_>, p: Parameters) -> Reply
    ensures { after (open_replied result) state.new ≡ open_of (mesh_of m.now) p state.old }
{
    let long = slices::is_runs(state.len(), STATE_RUNS, m.x.len());
    let asked = nodes::open_rows(rows::tested(long, Row::Lengths, 0), m, p);
    if asked.is_ok() {
        slices::clear(state);
    }
    Reply {
        asked,
        clock: Clock::cold(),
    }
}

// A step: what is tested of mesh, state, clock and forcing, then row 13 and the next state in `next`. A refusal leaves `next` and the clock as found,
// and the work room too unless it is 13.
pub fn step(
    next: &mut [f64],
    work: &mut [f64],
    sums: &mut [u64],
    state: &[f64],
    f: &[f64],
    m: &Mesh<'_>,
    p: Parameters,
    clock: Clock,
) -> Result<Clock, Refusal>
    ensures { step_out (replied clock result) next.new work.new sums.new ≡ step_of (mesh_of m.now) p (run state.now clock) f.now (lent_rooms next.old work.old sums.old) }
{
    let also = limits::may_count(clock.step);
    passes::settle(next, work, sums, m, p, state, f, also)?;
    Ok(clock.advanced())
}

// Steps through a list of forcings, at most 4,096, one after another, and stops at the first refusal: what single steps would answer and leave. Rows 14 and 1 to
// 10 are asked once, 11 to 13 of each forcing. Once a step has been accepted, `next` holds the state after those accepted, and the work room is zero.
pub fn step_all(
    next: &mut [f64],
    work: &mut [f64],
    sums: &mut [u64],
    state: &[f64],
    list: &[f64],
    m: &Mesh<'_>,
    p: Parameters,
    clock: Clock,
) -> ListReply
    ensures { list_out (list_replied result) next.new work.new sums.new ≡ step_all_of (mesh_of m.now) p (run state.now clock) list.now (lent_rooms next.old work.old sums.old) }
{
    let made = passes::settle_all(next, work, sums, m, p, state, list, clock.step);
    ListReply {
        asked: made.asked,
        clock: Clock { step: made.step },
        accepted: made.accepted,
    }
}
