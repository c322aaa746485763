// The limits of document 01 on single values: what rows 8 to 12 of the refusal table ask of a node, the parameters, a clock, a wind and an elevation.
#![tactic(auto)]

ghost use Rattle.std.specs.Prelude.{◌≡◌};
ghost use Rattle.rows.specs.Numbers.{within};
ghost use Rattle.rows.specs.Scan.{row};
ghost use Rattle.rows.specs.Refusals.{number_of, answered};
ghost use Rattle.limits.specs.Limits.{is_node, row9, is_calm, in_bounds, row11, row12_level};

use quantities::{Node, Parameters, Wind};
use rows::{Asked, Row};

// Row 8 of one node: its depth and its kind.
pub fn is_node(h: f64, kind: u8) -> bool
    ensures { result ≡ is_node h kind }
{
    rows::in_range(1.0, h, 12000.0) & (kind <= 2)
}

// A row whose test is a range.
fn limit(low: f64, v: f64, high: f64, of: Row, place: usize) -> Asked
    ensures { answered result ≡ row (within low v high) (number_of of) place }
{
    rows::tested(rows::in_range(low, v, high), of, place)
}

// Row 9: the first parameter that is out of its range.
pub fn parameters(p: Parameters) -> Asked
    ensures { answered result ≡ row9 p }
{
    limit(0.125, p.dt, 60.0, Row::Parameter, 0)?;
    limit(0.0, p.tau, 1.0, Row::Parameter, 1)?;
    limit(0.0, p.k, 1.0, Row::Parameter, 2)?;
    limit(-0.001, p.f, 0.001, Row::Parameter, 3)
}

// A wind within 0.1, as rows 10 and 12 ask it of one that is held and of a new one.
pub fn is_calm(w: Wind) -> bool
    ensures { result ≡ is_calm w }
{
    rows::in_range(-0.1, w.x, 0.1) & rows::in_range(-0.1, w.y, 0.1)
}

// Row 10 of one node.
pub fn in_bounds(c: Node) -> bool
    ensures { result ≡ in_bounds c }
{
    let level = rows::in_range(-30.0, c.earlier, 30.0) & rows::in_range(-30.0, c.z, 30.0);
    let column = 0.1 <= c.h + c.z;
    let slow = level & column & rows::in_range(-20.0, c.u, 20.0) & rows::in_range(-20.0, c.v, 20.0);
    slow & is_calm(Wind { x: c.wx, y: c.wy })
}

// Row 11: the last step number.
pub fn may_count(step: u32) -> Asked
    ensures { answered result ≡ row11 step }
{
    rows::tested(step != 4294967295, Row::LastStep, 0)
}

// Row 12 of a forcing's elevation.
pub fn elevation(z: f64) -> Asked
    ensures { answered result ≡ row12_level z }
{
    limit(-30.0, z, 30.0, Row::Forcing, 1)
}
