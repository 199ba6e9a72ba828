ghost use Rattle.std.specs.Prelude.{◌≡◌};
ghost use Rattle.slab_laws.specs.Sound.{IsGraphSound};
ghost use Rattle.slab_laws.specs.View.{HasDart, point_in, source_in, target_in};

use exact_plane::Point;
use slab_laws::{DartId, Darts};

/// The point that a dart leaves.
pub(crate) fn start_of<R: Darts>(records: &R, d: DartId) -> Point
    requires sound { IsGraphSound (R.graph records.now) }
    requires dart { HasDart (R.graph records.now) d }
    ensures { result ≡ point_in (R.graph records.now) (source_in (R.graph records.now) d) }
{
    records.point(records.source(d))
}

/// The point that a dart reaches.
pub(crate) fn end_of<R: Darts>(records: &R, d: DartId) -> Point
    requires sound { IsGraphSound (R.graph records.now) }
    requires dart { HasDart (R.graph records.now) d }
    ensures { result ≡ point_in (R.graph records.now) (target_in (R.graph records.now) d) }
{
    records.point(records.target(d))
}

/// Both.
pub(crate) fn ends_of<R: Darts>(records: &R, d: DartId) -> (Point, Point)
    requires sound { IsGraphSound (R.graph records.now) }
    requires dart { HasDart (R.graph records.now) d }
    ensures source { result.0 ≡ point_in (R.graph records.now) (source_in (R.graph records.now) d) }
    ensures target { result.1 ≡ point_in (R.graph records.now) (target_in (R.graph records.now) d) }
{
    (start_of(records, d), end_of(records, d))
}
