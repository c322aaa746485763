// Example 13 of document 01, with its wind at every node: two steps on mesh T from a cold start. Each number of the state after each step is written as
// its binary64 pattern, one a line, and last the clock's step number. The file `stdout` beside src/ holds what the independent second program gives. Standard
// error says of a write that fails why it did, and of a step that is refused which row refuses it.
#![tactic(auto)]

use mesh::Mesh;
use quantities::Parameters;
use rows::Refusal;
use std::io;
use surge::Clock;

fn print_number(rt: &impl Print, number: f64) -> io::Result<()> {
    println!(rt; "{:016x}", patterns::pattern_of(number))
}

fn print_state(rt: &impl Print, state: &[f64]) -> io::Result<()> {
    for number in state {
        print_number(rt, *number)?;
    }
    Ok(())
}

fn print_step(rt: &impl Print, step: u32) -> io::Result<()> {
    println!(rt; "{step}")
}

fn print_run(rt: &impl Print, first: &[f64], second: &[f64], step: u32) -> io::Result<()> {
    print_state(rt, first)?;
    print_state(rt, second)?;
    print_step(rt, step)
}

// The two steps, the second with no wind: `next` holds the state after the first, and `state` that after the second.
fn two_steps(state: &mut [f64], next: &mut [f64]) -> Result<Clock, Refusal> {
    let m = Mesh {
        x: &[0, 100, 0],
        y: &[0, 0, 100],
        tri: &[0, 1, 2],
        h: &[8.0, 8.0, 8.0],
        kind: &[0, 0, 0],
    };
    let p = Parameters {
        dt: 1.0,
        tau: 0.0,
        k: 0.0,
        f: 0.0,
        advection: false,
    };
    let wind = [0.0, 0.015625, 0.015625, 0.015625, 0.0, 0.0, 0.0];
    let calm = [0.0; 7];
    let mut work = [0.0; 15];
    let mut sums = [0u64; 3];
    let opened = surge::open(state, &m, p);
    opened.asked?;
    let cold = opened.clock;
    let first = surge::step(next, &mut work, &mut sums, state, &wind, &m, p, cold)?;
    surge::step(state, &mut work, &mut sums, next, &calm, &m, p, first)
}

// The error that it ends with is of standard error, where a refusal and a failed write are told.
fn main(rt: HostRuntime) -> io::Result<()> {
    let mut state = [0.0; 18];
    let mut next = [0.0; 18];
    match two_steps(&mut state, &mut next) {
        Ok(clock) => {
            if let Err(error) = print_run(&rt, &next, &state, clock.step) {
                eprintln!(rt; "example13: cannot write standard output: {error}")?;
            }
            Ok(())
        }
        Err(refusal) => {
            let row = refusal.row.number();
            eprintln!(rt; "example13: row {row} refuses at {}", refusal.place)
        }
    }
}
