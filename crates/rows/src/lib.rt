// What a row of the refusal table answers.
#![tactic(auto)]

pub mod answers;

ghost use Rattle.std.specs.Prelude.{◌≡◌, ℕ, ◌<◌};
ghost use Rattle.rows.specs.Numbers.{within};
ghost use Rattle.rows.specs.declared.Answer.{Answer};
ghost use Rattle.rows.specs.Scan.{refused, row, ◌then◌, scan};
ghost use Rattle.rows.specs.Refusals.{number_of, said, answered_by, answered};
ghost use Rattle.rows.specs.Says.{SaysOf};
ghost use Rattle.rows.specs.SaysLaws.{refusals_say};

// The rows of the refusal table, each by what it refuses.
#[derive(Clone, Copy, Debug, PartialEq, Eq)]
pub enum Row {
    // triangle list no multiple of 3, or a slice of another length
    Lengths = 1,
    // N not 3..4,096 or E not 1..8,192
    Counts = 2,
    // a node number is N or more
    Corner = 3,
    // an a or b beyond 100,000 in size
    Side = 4,
    // D is 0 or less
    Area = 5,
    // a directed leg seen in an earlier triangle
    Leg = 6,
    // node in no triangle
    Unnamed = 7,
    // h not 1..12,000, or kind above 2
    Depth = 8,
    // dt, tau, K or f out of its range
    Parameter = 9,
    // a node's z, present h+z, U, V or wind out of its range
    State = 10,
    // step number is 4,294,967,295
    LastStep = 11,
    // forcing elevation beyond 30; Wx', Wy' beyond 0.1
    Forcing = 12,
    // z' beyond 30, H' below 0.1, U' or V' beyond 20
    NextState = 13,
    // a list above 4,096 forcings
    ListLength = 14,
    // line of wrong length, wrong digit, no line feed, bytes after the end
    Framing = 20,
    // check byte
    CheckByte = 21,
    // kind or sequence
    Sequence = 22,
    // N or E differs
    MeshSize = 23,
    // text room below 127+105N
    Room = 24,
    // a field of line 05 differs from the run's
    Settings = 25,
    // a malformed, missing or extra field or a missing line
    GridField = 30,
    // a number out of order
    GridOrder = 31,
    // a coordinate, a depth or a corner number out of its range
    GridRange = 32,
    // a room lent hasn't the length its N and E give
    GridRooms = 33,
    // no triangle contains the point
    Outside = 40,
    // a 65th gauge
    FullRecord = 41,
    // a gauge number not yet given out
    GaugeNumber = 42,
    // a record of another length, count above 64 or seen above 1
    Record = 43,
}

impl Row {
    pub fn number(self) -> u32
        ensures { result ≡ number_of self }
    {
        self as u32
    }
}

// The row that refuses, the place, and the value there: +0 but at row 13.
#[derive(Clone, Copy, Debug)]
pub struct Refusal {
    pub row: Row,
    pub place: usize,
    pub value: f64,
}

// What a row answers, and a call that gives nothing else back.
pub type Asked = Result<(), Refusal>;

// What a call hands back where it refuses: the table's refusals, or a caller's own that stand beside them.
pub trait Says: From<Refusal> + Copy {
    // the number, place and value that one says
    ghost says: { Self → Answer };

    ghost laws: { SaysOf Self.from_gives says };
}

impl Says for Refusal {
    ghost says = { said };

    ghost laws = { refusals_say };
}

// An answer as it crosses to C: number, place and value. Number 0 accepts.
#[derive(Clone, Copy)]
pub struct Answer {
    pub number: u32,
    pub place: usize,
    pub value: f64,
}

pub fn refuse(of: Row, place: usize) -> Asked
    ensures { answered result ≡ refused (number_of of) place }
{
    let value = 0.0;
    Err(Refusal {
        row: of,
        place,
        value,
    })
}

// A row whose test is `holds`.
pub fn tested(holds: bool, of: Row, place: usize) -> Asked
    ensures { answered result ≡ row holds (number_of of) place }
{
    if holds { Ok(()) } else { refuse(of, place) }
}

// The first of two answers that refuses.
pub fn first<E: Says>(a: Result<(), E>, b: Asked) -> Result<(), E>
    ensures { answered_by E.says result ≡ (answered_by E.says a then answered b) }
{
    a?;
    b?;
    Ok(())
}

// "the first place in each": what the first of n places answers at which `ask` refuses.
pub fn scan<F: Fn(usize) -> Asked>(n: usize, ask: F) -> Asked
    requires { (i : ℕ) → i < n → F.pre ask i }
    ensures { (f : ℕ → Answer) → ((i : ℕ) (r : _) → i < n → F.post ask i r → answered r ≡ f i) → answered result ≡ scan f n }
{
    for i in 0..n {
        ask(i)?;
    }
    Ok(())
}

// The same, but all places are asked before the first is looked for that refuses: the loop has no early exit, so that a compiler can vectorise it.
pub fn scan_tests<F: Fn(usize) -> Asked>(n: usize, ask: F) -> Asked
    requires callable { (i : ℕ) → i < n → F.pre ask i }
    ensures { (f : ℕ → Answer) → ((i : ℕ) (r : _) → i < n → F.post ask i r → answered r ≡ f i) → answered result ≡ scan f n }
{
    let mut all = true;
    for i in 0..n {
        all = all & ask(i).is_ok();
    }
    if all {
        return Ok(());
    }
    scan(n, ask)
}

// A NaN is outside every range.
pub fn in_range(low: f64, v: f64, high: f64) -> bool
    ensures { result ≡ within low v high }
{
    (low <= v) & (v <= high)
}
