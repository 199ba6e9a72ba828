ghost use Rattle.std.specs.Prelude.{◌≡◌, ◌≤◌, ◌<◌, true, false};
ghost use Rattle.boundary_cycles.specs.Counted.{cycle_length};
ghost use Rattle.slab_laws.specs.Sound.{IsGraphSound};
ghost use Rattle.slab_laws.specs.View.{HasDart};

use slab_laws::{DartId, Darts};

/// Whether the cycle of one dart has no more darts than that of another. It goes along both side by side, so that it takes
/// time in the length of the shorter one, and no memory (this project).
pub fn is_no_longer<R: Darts>(records: &R, d: DartId, e: DartId) -> bool
    requires sound { IsGraphSound (R.graph records.now) }
    requires one { HasDart (R.graph records.now) d }
    requires other { HasDart (R.graph records.now) e }
    ensures no_longer { let v = R.graph records.now in result ≡ true → cycle_length v d ≤ cycle_length v e }
    ensures longer { let v = R.graph records.now in result ≡ false → cycle_length v e < cycle_length v d }
{
    let mut first = d;
    let mut second = e;
    'both: loop {
        first = records.next(first);
        if first == d {
            return true;
        }
        second = records.next(second);
        if second == e {
            return false;
        }
    }
}
