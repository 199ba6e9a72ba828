ghost use Rattle.std.specs.Prelude.{◌≡◌, pos, ◌<ℤ◌};
ghost use Rattle.slab_laws.specs.Skeleton.{HasWeight};
ghost use Rattle.piece_location.specs.Heights.{is_higher as is_higher_at};

use exact_plane::{Line, Point, above_at, slope_order};
use std::cmp::Ordering;

/// Whether the first line is higher than the second where the leant vertical below the point meets both; neither is vertical (Fogel, Halperin and Wein:
/// status order at an event).
pub(crate) fn is_higher(point: &Point, first: &Line, second: &Line) -> bool
    requires first_not_vertical { pos 0 <ℤ first.now.b }
    requires second_not_vertical { pos 0 <ℤ second.now.b }
    ensures { result ≡ is_higher_at point.now first.now second.now }
{
    point.laws();
    match above_at(first, second, point) {
        Ordering::Less => false,
        Ordering::Equal => slope_order(first, second).is_gt(),
        Ordering::Greater => true,
    }
}
