// Answers as they cross to C, on any number and any answer: what a row answers, and the first of two.
ghost use Rattle.std.specs.Prelude.{◌≡◌, Ok, Err, cond, eqb};
ghost use Rattle.rows.specs.Scan.{accepted, refused, row, ◌then◌};
ghost use Rattle.rows.specs.Refusals.{said, answered};
ghost use Rattle.rows.specs.Says.{itself};
ghost use Rattle.rows.specs.SaysLaws.{answers_say};

use crate::{Answer, Asked, Refusal, Says};

pub fn accept() -> Answer
    ensures { result ≡ accepted }
{
    refuse(0, 0)
}

pub fn refuse(number: u32, place: usize) -> Answer
    ensures { result ≡ refused number place }
{
    Answer {
        number,
        place,
        value: 0.0,
    }
}

// A row whose test is `holds`.
pub fn tested(holds: bool, number: u32, place: usize) -> Answer
    ensures { result ≡ row holds number place }
{
    if holds {
        accept()
    } else {
        refuse(number, place)
    }
}

// The first of two answers that refuses.
pub fn first(a: Answer, b: Answer) -> Answer
    ensures { result ≡ (a then b) }
{
    if a.number == 0 { b } else { a }
}

// What an answer is as what a call asked before: one that accepts goes on, and one that refuses is handed on as it is.
pub fn asked(a: Answer) -> Result<(), Answer>
    ensures { result ≡ cond (eqb a.number 0) (Ok tt) (Err a) }
{
    if a.number == 0 { Ok(()) } else { Err(a) }
}

impl From<Refusal> for Answer {
    ghost from_gives = { λ refusal answer. answer ≡ said refusal };

    fn from(refusal: Refusal) -> Answer {
        Answer {
            value: refusal.value,
            ..refuse(refusal.row.number(), refusal.place)
        }
    }
}

impl Says for Answer {
    ghost says = { itself };

    ghost laws = { answers_say };
}

impl From<Asked> for Answer {
    ghost from_gives = { λ asked answer. answer ≡ answered asked };

    fn from(asked: Asked) -> Answer {
        match asked {
            Ok(()) => accept(),
            Err(refusal) => Answer::from(refusal),
        }
    }
}
