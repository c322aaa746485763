// Sums by node: a triangle's values are added at its three corners.
ghost use Rattle.std.specs.Prelude.{◌≡◌, cond, ℕ, ◌+◌, ◌*◌, ◌^◌, ◌<◌, length, get_or};
ghost use Rattle.std.specs.Float.{nan};
ghost use Rattle.lists.specs.Gather.{alike, whole};
ghost use Rattle.lists.specs.Private.{Below, past, added_at, spread};
ghost use Rattle.geometry.specs.Geometry.{nodes_of};
ghost use Rattle.triangle.specs.Triangle.{advection};
ghost use Rattle.passes.specs.Equations.{three_of, floating};
ghost use Rattle.passes.specs.Settle.{work_runs};
ghost use Rattle.passes.specs.Private.{spread_both};

use geometry::Corners;
use quantities::Shares;
use triangle::Means;

// Adds a value at one place.
fn add_at(work: &mut [f64], at: usize, v: f64)
    requires { at < length work.old }
    ensures { work.new ≡ added_at floating nan work.old at v }
{
    work[at] = work[at] + v;
}

// Adds a triangle's values at its corners, in the run that starts at place `at`.
pub(crate) fn spread(work: &mut [f64], at: usize, c: Corners, v: Shares)
    requires { Below (past at (nodes_of c)) (length work.old) }
    ensures { work.new ≡ spread floating nan (past at (nodes_of c)) (three_of v) work.old }
{
    add_at(work, at + c.n1, v.r1);
    add_at(work, at + c.n2, v.r2);
    add_at(work, at + c.n3, v.r3);
}

// Each corner receives the same.
pub(crate) fn alike(v: f64) -> Shares
    ensures { three_of result ≡ alike v }
{
    Shares {
        r1: v,
        r2: v,
        r3: v,
    }
}

// Adds what a triangle adds to Au and to Av of its corners, in the fourth and the fifth run of n, where advection is on.
pub(crate) fn spread_advection(work: &mut [f64], n: usize, c: Corners, on: bool, m: Means)
    requires { (Below (nodes_of c) n) × (length work.old ≡ work_runs * n) }
    ensures { work.new ≡ cond on (spread_both n (nodes_of c) (advection m) work.old) work.old }
{
    if on {
        let a = triangle::advection_of(m);
        spread(work, 3 * n, c, alike(a.u));
        spread(work, 4 * n, c, alike(a.v));
    }
}

// Adds an area at one place.
fn add_area(sums: &mut [u64], i: usize, d: u64)
    requires { (i < length sums.old) × (get_or sums.old i 0 + d < 2 ^ 53) }
    ensures { sums.new ≡ added_at whole 0 sums.old i d }
{
    sums[i] = sums[i] + d;
}

// Adds a triangle's area at its corners.
pub(crate) fn spread_area(sums: &mut [u64], c: Corners, d: u64)
    requires below { Below (nodes_of c) (length sums.old) }
    requires by_index { (i : ℕ) → get_or sums.old i 0 + 3 * d < 2 ^ 53 }
    ensures { sums.new ≡ spread whole 0 (nodes_of c) (alike d) sums.old }
{
    add_area(sums, c.n1, d);
    add_area(sums, c.n2, d);
    add_area(sums, c.n3, d);
}
