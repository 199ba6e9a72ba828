ghost use Rattle.std.specs.Prelude.{◌≡◌};
ghost use Rattle.rotation_order.specs.Directions.{straight_down, direction_before};
ghost use Rattle.rotation_order.specs.Place.{sooner_way};

use exact_plane::{Direction, Segment, line_of, next_order};

// The direction straight down.
pub(crate) fn down() -> Direction
    ensures { result ≡ straight_down }
{
    let Ok(upright) = Segment::new(0, 0, 0, 1) else {
        unreachable!()
    };
    Direction::along(&line_of(&upright)).back()
}

// Whether a is met before b, clockwise from just after straight down, which is met last.
fn is_before(down: Direction, a: Direction, b: Direction) -> bool
    requires { down ≡ straight_down }
    ensures { result ≡ direction_before a b }
{
    next_order(down, a, b).is_lt()
}

// Whether a is met before b, clockwise from just after first, which is met last.
pub(crate) fn comes_first_clockwise(
    down: Direction,
    first: Direction,
    a: Direction,
    b: Direction,
) -> bool
    requires { down ≡ straight_down }
    ensures { result ≡ sooner_way first a b }
{
    if is_before(down, first, a) {
        !is_before(down, first, b) || is_before(down, a, b)
    } else {
        !is_before(down, first, b) && is_before(down, a, b)
    }
}
