// Row 13 of the refusal table on single values: what becomes of a node, and the answer for it.
#![tactic(auto)]

ghost use Rattle.std.specs.Prelude.{◌≡◌};
ghost use Rattle.rows.specs.Refusals.{answered};
ghost use Rattle.outcomes.specs.Outcomes.{of_rise, speed, of_east, of_north, answer_of, rise_row, flow_row};

use quantities::Flow;
use rows::{Asked, Refusal, Row};

// What becomes of a node: the value that is accepted, or the quantity that left its range: z', H', U' or V'.
#[derive(Clone, Copy)]
pub enum Outcome {
    Accepted(f64),
    Elevation(f64),
    Column(f64),
    East(f64),
    North(f64),
}

// z' in size, then H'.
fn of_rise(h: f64, z: f64) -> Outcome
    ensures { result ≡ of_rise h z }
{
    if rows::in_range(-30.0, z, 30.0) {
        let column = h + z;
        if 0.1 <= column {
            Outcome::Accepted(z)
        } else {
            Outcome::Column(column)
        }
    } else {
        Outcome::Elevation(z)
    }
}

fn speed(v: f64, refusal: Outcome) -> Outcome
    ensures { result ≡ speed v refusal }
{
    if rows::in_range(-20.0, v, 20.0) {
        Outcome::Accepted(v)
    } else {
        refusal
    }
}

fn of_east(u: f64) -> Outcome
    ensures { result ≡ of_east u }
{
    speed(u, Outcome::East(u))
}

fn of_north(v: f64) -> Outcome
    ensures { result ≡ of_north v }
{
    speed(v, Outcome::North(v))
}

// The refusal of an outcome that has one: its value, and the node's number.
fn answer(o: Outcome, node: usize) -> Asked
    ensures { answered result ≡ answer_of o node }
{
    match o {
        Outcome::Accepted(_) => Ok(()),
        Outcome::Elevation(x) | Outcome::Column(x) | Outcome::East(x) | Outcome::North(x) => {
            Err(Refusal {
                row: Row::NextState,
                place: node,
                value: x,
            })
        }
    }
}

// Row 13 of a node's z', at depth h.
pub fn rise_row(h: f64, z: f64, node: usize) -> Asked
    ensures { answered result ≡ rise_row h z node }
{
    answer(of_rise(h, z), node)
}

// Row 13 of a node's U' and V'.
pub fn flow_row(v: Flow, node: usize) -> Asked
    ensures { answered result ≡ flow_row v node }
{
    answer(of_east(v.u), node)?;
    answer(of_north(v.v), node)
}
