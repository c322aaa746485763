// The gradients and means of one triangle, as one record.
#![tactic(auto)]

ghost use Rattle.std.specs.Prelude.{◌≡◌};
ghost use Rattle.triangle.specs.Triangle.{mean, slope, means, advection};

use quantities::{Node, Sides};

// hb, Ub, Vb, Z, Qx, Qy, Gx, Gy, Sx and Sy; Xu, Yu, Xv and Yv; the means of the winds, Wx and Wy.
#[derive(Clone, Copy)]
pub struct Means {
    pub hb: f64,
    pub ub: f64,
    pub vb: f64,
    pub z: f64,
    pub qx: f64,
    pub qy: f64,
    pub gx: f64,
    pub gy: f64,
    pub sx: f64,
    pub sy: f64,
    pub xu: f64,
    pub yu: f64,
    pub xv: f64,
    pub yv: f64,
    pub wx: f64,
    pub wy: f64,
}

// What a triangle adds to Au and to Av of its corners.
#[derive(Clone, Copy)]
pub struct Advection {
    pub u: f64,
    pub v: f64,
}

fn mean(v1: f64, v2: f64, v3: f64) -> f64
    ensures { result ≡ mean v1 v2 v3 }
{
    ((v1 + v2) + v3) / 3.0
}

// Along x with the b of each corner, along y with its a.
pub fn slope(v1: f64, v2: f64, v3: f64, c1: f64, c2: f64, c3: f64) -> f64
    ensures { result ≡ slope v1 v2 v3 c1 c2 c3 }
{
    (v1 * c1 + v2 * c2) + v3 * c3
}

pub fn means_of(n1: Node, n2: Node, n3: Node, s: Sides) -> Means
    ensures { result ≡ means n1 n2 n3 s }
{
    let column1 = n1.h + n1.z;
    let column2 = n2.h + n2.z;
    let column3 = n3.h + n3.z;
    Means {
        hb: mean(n1.h, n2.h, n3.h),
        ub: mean(n1.u, n2.u, n3.u),
        vb: mean(n1.v, n2.v, n3.v),
        z: mean(n1.z - n1.earlier, n2.z - n2.earlier, n3.z - n3.earlier),
        qx: mean(n1.u * column1, n2.u * column2, n3.u * column3),
        qy: mean(n1.v * column1, n2.v * column2, n3.v * column3),
        gx: slope(n1.z, n2.z, n3.z, s.b1, s.b2, s.b3),
        gy: slope(n1.z, n2.z, n3.z, s.a1, s.a2, s.a3),
        sx: slope(n1.z * n1.z, n2.z * n2.z, n3.z * n3.z, s.b1, s.b2, s.b3),
        sy: slope(n1.z * n1.z, n2.z * n2.z, n3.z * n3.z, s.a1, s.a2, s.a3),
        xu: slope(n1.u, n2.u, n3.u, s.b1, s.b2, s.b3),
        yu: slope(n1.u, n2.u, n3.u, s.a1, s.a2, s.a3),
        xv: slope(n1.v, n2.v, n3.v, s.b1, s.b2, s.b3),
        yv: slope(n1.v, n2.v, n3.v, s.a1, s.a2, s.a3),
        wx: mean(n1.wx, n2.wx, n3.wx),
        wy: mean(n1.wy, n2.wy, n3.wy),
    }
}

pub fn advection_of(m: Means) -> Advection
    ensures { result ≡ advection m }
{
    let u = m.ub * m.xu + m.vb * m.yu;
    let v = m.ub * m.xv + m.vb * m.yv;
    Advection { u, v }
}
