// Triangle geometry on single values, in whole numbers; a node's sum also as a float, without loss. No slice is lent to any function here, and no public one asks anything of its caller.
#![tactic(auto)]

ghost use Rattle.std.specs.Prelude.{◌≡◌, pos, ◌-ℤ◌};
ghost use Rattle.std.specs.Float.Ieee.{of_int};
ghost use Rattle.std.specs.Float.{binary64};
ghost use Rattle.geometry.specs.Geometry.{sides_at, near, all_near, near_d};

// The node numbers of a triangle's corners 1, 2 and 3.
#[derive(Clone, Copy)]
pub struct Corners {
    pub n1: usize,
    pub n2: usize,
    pub n3: usize,
}

// The coordinates of a triangle's corners 1, 2 and 3.
#[derive(Clone, Copy)]
pub struct Places {
    pub x1: i32,
    pub x2: i32,
    pub x3: i32,
    pub y1: i32,
    pub y2: i32,
    pub y3: i32,
}

// The a and b of one triangle, in whole metres.
#[derive(Clone, Copy)]
pub struct WholeSides {
    pub a1: i64,
    pub a2: i64,
    pub a3: i64,
    pub b1: i64,
    pub b2: i64,
    pub b3: i64,
}

// The difference of two coordinates. That of 32-bit numbers holds in 64 bits.
fn gap(p: i32, q: i32) -> i64
    ensures { result ≡ p -ℤ q }
{
    (p as i64) - (q as i64)
}

pub fn sides_of(p: Places) -> WholeSides
    ensures { result ≡ sides_at p }
{
    WholeSides {
        a1: gap(p.x3, p.x2),
        a2: gap(p.x1, p.x3),
        a3: gap(p.x2, p.x1),
        b1: gap(p.y2, p.y3),
        b2: gap(p.y3, p.y1),
        b3: gap(p.y1, p.y2),
    }
}

// At most 100,000 in size.
fn is_near(v: i64) -> bool
    ensures { result ≡ near v }
{
    (-100000 <= v) & (v <= 100000)
}

pub fn all_near(s: WholeSides) -> bool
    ensures { result ≡ all_near s }
{
    is_near(s.a1) & is_near(s.a2) & is_near(s.a3) & is_near(s.b1) & is_near(s.b2) & is_near(s.b3)
}

// D, twice the area, with its sign, of sides that row 4 accepts.
pub fn twice_area(s: WholeSides) -> i64
    ensures { result ≡ near_d s }
{
    if all_near(s) {
        s.a3 * s.b2 - s.a2 * s.b3
    } else {
        0
    }
}

// A node's sum S as a float.
pub fn sum_of(s: u64) -> f64
    ensures { result ≡ of_int binary64 (pos s) }
{
    std::num::nearest_u64_to_f64(s)
}
