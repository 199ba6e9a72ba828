ghost use Rattle.std.specs.Prelude.{◌≡◌};
ghost use Rattle.slab_laws.specs.Skeleton.{left_of, lower_than, on_wall, precedes as comes_before, same_point};

use exact_plane::Point;
use std::cmp::Ordering;

/// Whether the first point's abscissa is less.
pub fn is_left_of(point: &Point, other: &Point) -> bool
    ensures { result ≡ left_of point.now other.now }
{
    point.compare_x(other).is_lt()
}

/// Whether the first point's ordinate is less.
pub fn is_lower_than(point: &Point, other: &Point) -> bool
    ensures { result ≡ lower_than point.now other.now }
{
    point.compare_y(other).is_lt()
}

/// Whether both points have one abscissa.
pub fn is_on_wall(point: &Point, other: &Point) -> bool
    ensures { result ≡ on_wall point.now other.now }
{
    point.compare_x(other).is_eq()
}

/// Whether the first point comes before the second, by abscissa and then by ordinate.
pub fn precedes(point: &Point, other: &Point) -> bool
    ensures { result ≡ comes_before point.now other.now }
{
    match point.compare_x(other) {
        Ordering::Less => true,
        Ordering::Equal => is_lower_than(point, other),
        Ordering::Greater => false,
    }
}

/// Whether both are one point.
pub fn is_same(point: &Point, other: &Point) -> bool
    ensures { result ≡ same_point point.now other.now }
{
    point == other
}
