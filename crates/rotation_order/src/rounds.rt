ghost use Rattle.std.specs.Prelude.{◌≡◌};
ghost use Rattle.slab_laws.specs.Sound.{IsGraphSound};
ghost use Rattle.slab_laws.specs.View.{HasDart, IsOutOf, source_in};
ghost use Rattle.arr_notes.specs.AfterAround.{after_in};

use slab_laws::{DartId, Darts};

/// The dart that `d` comes directly after, clockwise round its source; `d` itself where it is the only dart there (CGAL
/// manual, circulator around a vertex).
///
/// It goes round the vertex once, and takes no memory.
pub fn previous_around_source<R: Darts>(records: &R, d: DartId) -> DartId
    requires sound { IsGraphSound (R.graph records.now) }
    requires dart { HasDart (R.graph records.now) d }
    ensures out { IsOutOf (R.graph records.now) (source_in (R.graph records.now) d) result }
    ensures after { after_in (R.graph records.now) result ≡ d }
{
    let mut dart = d;
    'ring: loop {
        let after = records.next(records.twin(dart));
        if after == d {
            return dart;
        }
        dart = after;
    }
}
