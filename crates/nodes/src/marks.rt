// Row 7: the marks.
ghost use Rattle.std.specs.Prelude.{◌≡◌, ℕ, ◌<◌, ◌≤◌, length, get_or};
ghost use Rattle.rows.specs.Refusals.{answered};
ghost use Rattle.rows.specs.Scan.{scan};
ghost use Rattle.lists.specs.Table.{table};
ghost use Rattle.nodes.specs.Rows.{is_named, row7};

use rows::{Asked, Row};

// Each node is marked when a triangle names it.
fn marks(tri: &[u16]) -> [bool; 4096]
    requires { (j : ℕ) → j < length tri.now → get_or tri.now j 0 < 4096 }
    ensures { result ≡ table 4096 (is_named tri.now) }
{
    let mut seen = [false; 4096];
    for j in 0..tri.len() {
        let node = tri[j] as usize;
        seen[node] = true;
    }
    seen
}

// Row 7: the first node below n that no triangle names.
pub(crate) fn named(n: usize, tri: &[u16]) -> Asked
    requires n_bound { n ≤ 4096 }
    requires by_index { (j : ℕ) → j < length tri.now → get_or tri.now j 0 < n }
    ensures { answered result ≡ scan (row7 tri.now) n }
{
    let seen = marks(tri);
    rows::scan(n, |i| rows::tested(seen[i], Row::Unnamed, i))
}
