ghost use Rattle.std.specs.Prelude.{◌≡◌, ◌↔◌, ℕ, ◌<◌, ◌≤◌, true};
ghost use Rattle.slab.specs.Slab.{entries};
ghost use Rattle.slab_laws.specs.Tables.{is_after, name_after, names};
ghost use Rattle.dcel_records.specs.KeyLimits.{HasNoKeyFrom};

use slab::Slab;

// The least of the numbers up to a limit that come after a number.
fn first_after(number: Option<usize>, limit: usize) -> usize
    ensures { (n : ℕ) → n < limit → (is_after number n ≡ true) ↔ (result ≤ n) }
{
    match number {
        None => 0,
        Some(n) if n < limit => n + 1,
        Some(_) => limit,
    }
}

/// The next greater key that has a value, or the least; `None` after the last. All keys are below the limit.
pub(crate) fn key_after<T>(slab: &Slab<T>, key: Option<usize>, limit: usize) -> Option<usize>
    requires { HasNoKeyFrom slab.now limit }
    ensures { result ≡ name_after (names (entries slab.now)) key }
{
    let first = first_after(key, limit);
    for k in first..limit {
        if slab.contains(k) {
            return Some(k);
        }
    }
    None
}
