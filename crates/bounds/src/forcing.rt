// A forcing: the new elevation, then the new winds in two runs; its length and row 12.
ghost use Rattle.std.specs.Prelude.{◌≡◌, ◌+◌, ◌*◌, ◌<◌, length};
ghost use Rattle.rows.specs.Refusals.{answered};
ghost use Rattle.rows.specs.Scan.{scan};
ghost use Rattle.limits.specs.Limits.{row12_wind};
ghost use Rattle.bounds.specs.Forcing.{wind_runs, is_forcing, wind_at, row12};

use lists::slices;
use quantities::Wind;
use rows::{Asked, Row};

// The runs of the winds: Wx', Wy'.
pub(crate) const WIND_RUNS: usize = 2;

// Whether this is a forcing of n nodes.
pub(crate) fn is_forcing(n: usize, f: &[f64]) -> bool
    ensures { result ≡ is_forcing n f.now }
{
    if f.len() == 0 {
        return false;
    }
    slices::is_runs(f.len() - 1, WIND_RUNS, n)
}

// The wind of node i of n.
fn wind_at(n: usize, winds: &[f64], i: usize) -> Wind
    requires { (i < n) × (length winds.now ≡ wind_runs * n) }
    ensures { result ≡ wind_at n winds.now i }
{
    Wind {
        x: winds[0 * n + i],
        y: winds[1 * n + i],
    }
}

// Row 12 of the winds: the first node whose wind is refused.
fn winds_rows(n: usize, winds: &[f64]) -> Asked
    requires { length winds.now ≡ wind_runs * n }
    ensures { answered result ≡ scan (λ i. row12_wind (wind_at n winds.now i) i) n }
{
    rows::scan_tests(n, |i| {
        rows::tested(limits::is_calm(wind_at(n, winds, i)), Row::Forcing, 2 + i)
    })
}

// Row 12 of a forcing of n nodes: its elevation, then its winds.
pub(crate) fn forcing_rows(n: usize, f: &[f64]) -> Asked
    requires { length f.now ≡ 1 + wind_runs * n }
    ensures { answered result ≡ row12 n f.now }
{
    limits::elevation(f[0])?;
    winds_rows(n, &f[1..])
}
