ghost use Rattle.std.specs.Prelude.{◌≡◌};
ghost use Rattle.slab_laws.specs.FacesSound.{lead_in};
ghost use Rattle.slab_laws.specs.Rotation.{dart_below};
ghost use Rattle.slab_laws.specs.Sound.{IsGraphSound, dart_in};
ghost use Rattle.slab_laws.specs.View.{HasDart, point_in, source_in};

use crate::ends::{end_of, start_of};
use exact_plane::Point;
use slab_laws::{DartId, Darts};
use std::cmp::Ordering;

// Whether a dart comes before another one, by source and then by target. The points that they leave are known; those that they
// reach are read only where they leave one point.
fn comes_before<R: Darts>(records: &R, d: DartId, start: &Point, e: DartId, other: &Point) -> bool
    requires sound { IsGraphSound (R.graph records.now) }
    requires one { HasDart (R.graph records.now) d }
    requires start { let v = R.graph records.now in start.now ≡ point_in v (source_in v d) }
    requires other { HasDart (R.graph records.now) e }
    requires other_start { let v = R.graph records.now in other.now ≡ point_in v (source_in v e) }
    ensures { result ≡ dart_below (dart_in (R.graph records.now) d) (dart_in (R.graph records.now) e) }
{
    match start.cmp(other) {
        Ordering::Less => true,
        Ordering::Equal => end_of(records, d) < end_of(records, e),
        Ordering::Greater => false,
    }
}

/// The least dart of a dart's cycle, by source and then by target, by which the cycle is told (this project).
///
/// It goes along the cycle once, and takes no memory. Of each dart the point that it leaves is read once.
pub fn least_dart<R: Darts>(records: &R, d: DartId) -> DartId
    requires sound { IsGraphSound (R.graph records.now) }
    requires dart { HasDart (R.graph records.now) d }
    ensures has { HasDart (R.graph records.now) result }
    ensures least { dart_in (R.graph records.now) result ≡ lead_in (R.graph records.now) d }
{
    let mut least = d;
    let mut least_start = start_of(records, d);
    let mut dart = d;
    'cycle: loop {
        dart = records.next(dart);
        if dart == d {
            return least;
        }
        let start = start_of(records, dart);
        if comes_before(records, dart, &start, least, &least_start) {
            least = dart;
            least_start = start;
        }
    }
}
