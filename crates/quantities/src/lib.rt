// What the formulas of document 01 read and give, as records, and the arithmetic on them.
#![tactic(auto)]

// The acceleration of gravity, g.
pub const G: f64 = 9.81;

// The parameters of a run: time step, the report's tau-zero, linear bottom friction K, Coriolis f, and whether the advective terms are on.
#[derive(Clone, Copy)]
pub struct Parameters {
    pub dt: f64,
    pub tau: f64,
    pub k: f64,
    pub f: f64,
    pub advection: bool,
}

// A wind: stress over density.
#[derive(Clone, Copy)]
pub struct Wind {
    pub x: f64,
    pub y: f64,
}

// What a node lends to a triangle: depth, earlier elevation, present elevation, U, V, and the wind that it holds.
#[derive(Clone, Copy)]
pub struct Node {
    pub h: f64,
    pub earlier: f64,
    pub z: f64,
    pub u: f64,
    pub v: f64,
    pub wx: f64,
    pub wy: f64,
}

// a, b and D of one triangle.
#[derive(Clone, Copy)]
pub struct Sides {
    pub a1: f64,
    pub a2: f64,
    pub a3: f64,
    pub b1: f64,
    pub b2: f64,
    pub b3: f64,
    pub d: f64,
}

// What the three corners of a triangle receive.
#[derive(Clone, Copy)]
pub struct Shares {
    pub r1: f64,
    pub r2: f64,
    pub r3: f64,
}

// What a node's velocity is made from: depth, z and z', U and V, Px and Py, Au and Av, S, the wind that is held and the new one.
#[derive(Clone, Copy)]
pub struct Push {
    pub h: f64,
    pub z: f64,
    pub rise: f64,
    pub u: f64,
    pub v: f64,
    pub px: f64,
    pub py: f64,
    pub au: f64,
    pub av: f64,
    pub s: f64,
    pub wx: f64,
    pub wy: f64,
    pub wx_new: f64,
    pub wy_new: f64,
}

// U' and V'.
#[derive(Clone, Copy)]
pub struct Flow {
    pub u: f64,
    pub v: f64,
}
