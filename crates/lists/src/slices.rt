// Slices of any length: how many runs one has, and how one is cleared and copied.
ghost use Rattle.std.specs.Prelude.{◌≡◌, length};
ghost use Rattle.lists.specs.Table.{table, zeros, copied};
ghost use Rattle.lists.specs.Runs.{is_runs};

// Whether a slice of this length is k runs of n. Nothing is multiplied, so nothing overflows.
pub fn is_runs(long: usize, k: usize, n: usize) -> bool
    ensures { result ≡ is_runs long k n }
{
    if k == 0 {
        return long == 0;
    }
    (long % k == 0) & (long / k == n)
}

// Every place +0.
pub fn clear(s: &mut [f64])
    ensures { s.new ≡ zeros (length s.old) }
{
    s.fill(0.0);
}

// Every place 0.
pub fn clear_whole(s: &mut [u64])
    ensures { s.new ≡ table (length s.old) (λ _. 0) }
{
    s.fill(0);
}

// As many places as both have.
pub fn copy(to: &mut [f64], from: &[f64])
    ensures { to.new ≡ copied from.now to.old }
{
    let n = to.len().min(from.len());
    for i in 0..n {
        to[i] = from[i];
    }
}
