// A log of forcings, taken one by one on mesh T: what the printing program does, but for its reading and writing.
#![tactic(auto)]

ghost use Rattle.std.specs.Prelude.{◌≡◌};
ghost use Rattle.saves.specs.Save.{saved, save_out};
ghost use Rattle.forcelog.specs.Log.{cold_log, stepped, lines_in, later, took, after_step, take_of, end_of};
ghost use Rattle.forcelog.specs.Private.{at_line};

use frames::reading;
use mesh::Mesh;
use quantities::Parameters;
use rows::Refusal;
use surge::Clock;

// Mesh T. A static, so that each use refers to the one value: the compiler follows it into the rows that every step asks. It does not follow a constant, which
// each use builds anew (docs/DECISIONS.md 160).
static MESH: Mesh<'static> = Mesh {
    x: &[0, 100, 0],
    y: &[0, 0, 100],
    tri: &[0, 1, 2],
    h: &[8.0, 8.0, 8.0],
    kind: &[0, 0, 0],
};

const P: Parameters = Parameters {
    dt: 1.0,
    tau: 0.0,
    k: 0.0,
    f: 0.0,
    advection: false,
};

// The input lines of the forcings taken so far, and the run as they left it. Each forcing that is taken is one step, so that the clock counts them.
#[derive(Drop)]
pub struct Log {
    pub lines: usize,
    pub clock: Clock,
    pub state: [f64; 18],
}

// Mesh T opened, and no line taken.
pub fn cold() -> Log
    ensures { result ≡ cold_log }
{
    let mut state = [0.0; 18];
    let opened = surge::open(&mut state, &MESH, P);
    opened.asked.unwrap();
    Log {
        lines: 0,
        clock: opened.clock,
        state,
    }
}

// How many lines a forcing has: one of kind 10, or one of kind 14 and one of kind 15 for each node of T.
fn lines_in(text: &[u8]) -> usize
    ensures { result ≡ lines_in text.now }
{
    if reading::starts(text, b'1', b'0') {
        return 1;
    }
    4
}

// So many lines on. The count stays where 64 bits do not hold it: `take` answers on every log, also on one with more lines than any input leads to.
fn later(lines: usize, more: usize) -> usize
    ensures { result ≡ later lines more }
{
    lines.checked_add(more).unwrap_or(lines)
}

// A refusal at an input line.
fn at_line(line: usize, refusal: Refusal) -> Refusal
    ensures { result ≡ at_line line refusal }
{
    Refusal {
        place: line,
        ..refusal
    }
}

// The step of a forcing that was read, of so many lines. It is refused at the forcing's first line, which is the one that is due.
fn step(forcing: &[f64], lines: usize, log: &Log) -> Result<Log, Refusal>
    ensures { took log.now result ≡ after_step (stepped log.now forcing.now) lines log.now }
{
    let mut next = [0.0; 18];
    let mut work = [0.0; 15];
    let mut sums = [0u64; 3];
    match surge::step(
        &mut next, &mut work, &mut sums, &log.state, forcing, &MESH, P, log.clock,
    ) {
        Ok(clock) => Ok(Log {
            lines: later(log.lines, lines),
            clock,
            state: next,
        }),
        Err(refusal) => Err(at_line(log.lines, refusal)),
    }
}

// The next forcing is read and stepped by. The place of a refusal is the input line. Of a line of kind 10 the sequence that is expected is how many forcings
// were taken.
pub fn take(text: &[u8], log: &Log) -> Result<Log, Refusal>
    ensures { took log.now result ≡ take_of text.now log.now }
{
    let mut forcing = [0.0; 7];
    match forcings::read_forcing(&mut forcing, text, log.clock.step) {
        Ok(()) => step(&forcing, lines_in(text), log),
        Err(fault) => Err(at_line(later(log.lines, fault.place), fault)),
    }
}

// The save of the log's run. Gives the bytes written.
pub fn end(text: &mut [u8], log: &Log) -> Result<usize, Refusal>
    ensures { save_out (saved result) text.new ≡ end_of log.now text.old }
{
    saves::save(text, &log.state, &MESH, P, log.clock)
}
