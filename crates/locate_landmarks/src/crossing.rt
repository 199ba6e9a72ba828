//! Where the edges of a face cross the horizontal of a landmark.
//!
//! A crossing is told by signs alone, and no point of it is made. No answer rests on what is told here: the way along the horizontal
//! only shows from which face the way along the vertical starts, and any would do. How much is looked at does: each face that the way
//! comes into lies behind a later crossing.
ghost use Rattle.std.specs.Prelude.{◌≡◌, true, not, cond, IfSome};
ghost use Rattle.slab_laws.specs.View.{HasDart};
ghost use Rattle.locate_landmarks.specs.Courses.{is_above_level};
ghost use Rattle.locate_landmarks.specs.Crossings.{is_later, is_on_way, is_rising, order_along, order_at, order_in_fan};
ghost use Rattle.locate_landmarks.specs.Horizontals.{IsCrossing};
ghost use Rattle.locate_landmarks.specs.Looks.{IsDrawnLook};
ghost use Rattle.locate_landmarks.specs.Walks.{dart_towards};

use crate::course::Course;
use counted_looks::{Glance, Glimpse, NameCalls};
use exact_plane::{Line, Point, Sign, side, slope_order};
use slab_laws::DartId;
use std::cmp::Ordering;

/// Where an edge crosses the horizontal of a landmark, by its dart that has on the left what is before it on the way.
#[derive(Clone, Copy)]
pub struct Crossing {
    pub dart: DartId,
    pub line: Line,
    /// The end of the edge above the horizontal.
    pub upper: Point,
}

// Whether a line rises from left to right, as a vertical one does too.
fn is_rising(level: &Line, line: &Line) -> bool
    ensures { result ≡ is_rising level.now line.now }
{
    slope_order(level, line).is_lt()
}

// How a line that isn't level lies to a point at the point's ordinate, from left to right. Each line runs to the right, so one that rises
// has on its right what comes after it, and one that falls has it on its left.
fn order_at(level: &Line, line: &Line, point: &Point) -> Ordering
    ensures { result ≡ order_at level.now line.now point.now }
{
    match (side(line, point), is_rising(level, line)) {
        (Sign::Zero, _) => Ordering::Equal,
        (Sign::Minus, true) | (Sign::Plus, false) => Ordering::Less,
        _ => Ordering::Greater,
    }
}

// Whether a line meets the horizontal between the landmark, itself included, and the vertical of the point, which is leant by less than
// any number: so the order of points tells it.
fn is_on_way(course: &Course, line: &Line) -> bool
    ensures { result ≡ is_on_way course.now line.now }
{
    let of_landmark = order_at(&course.level, line, &course.landmark);
    let of_point = order_at(&course.level, line, &course.corner).then(course.corner_order);
    if course.eastward {
        !of_landmark.is_lt() && of_point.is_lt()
    } else {
        !of_landmark.is_gt() && of_point.is_gt()
    }
}

// The order from left to right of two edges that go down from one vertex: rising ones come first, the flat ones before the steep ones,
// and then the falling ones, the steep ones first.
fn order_in_fan(level: &Line, first: &Line, second: &Line) -> Ordering
    ensures { result ≡ order_in_fan level.now first.now second.now }
{
    is_rising(level, second)
        .cmp(&is_rising(level, first))
        .then(slope_order(first, second))
}

// The order in which the horizontal, raised by less than any number, meets two edges from left to right. They cross nowhere, so where one
// of them ends above the horizontal they are in the same order; and where both end there, they are so below.
fn order_along(level: &Line, first: &Crossing, second: &Crossing) -> Ordering
    ensures { result ≡ order_along level.now first.now second.now }
{
    let order = if first.upper.compare_y(&second.upper).is_gt() {
        order_at(level, &first.line, &second.upper)
    } else {
        order_at(level, &second.line, &first.upper).reverse()
    };
    match order {
        Ordering::Equal => order_in_fan(level, &first.line, &second.line),
        other => other,
    }
}

// Whether a crossing comes after another one on the way, as each does after none.
fn is_later(course: &Course, last: &Option<Crossing>, crossing: &Crossing) -> bool
    ensures { result ≡ is_later course.now last.now crossing.now }
{
    match last {
        None => true,
        Some(before) => {
            if course.eastward {
                order_along(&course.level, before, crossing).is_lt()
            } else {
                order_along(&course.level, crossing, before).is_lt()
            }
        }
    }
}

// A dart, or its twin.
fn dart_towards(glance: &Glance, dart: DartId, itself: bool) -> DartId
    requires { HasDart glance.now.graph dart }
    ensures { result ≡ dart_towards glance.now.graph dart itself }
{
    if itself { dart } else { glance.twin(dart) }
}

// The end of an edge that is above the horizontal, as its target is or isn't.
fn upper_end(looked: &Glimpse, rises: bool) -> Point
    ensures { result ≡ cond rises looked.now.target looked.now.source }
{
    if rises {
        looked.target()
    } else {
        looked.source()
    }
}

/// Where the edge of a dart that was looked at crosses the horizontal, if that is on the way from the landmark to the vertical of the
/// point, and after the last crossing so far. Its ends are on different sides, and `rises` tells whether the target is above.
pub fn later_crossing(
    glance: &Glance,
    course: &Course,
    dart: DartId,
    looked: &Glimpse,
    rises: bool,
    last: &Option<Crossing>,
) -> Option<Crossing>
    requires drawn { IsDrawnLook glance.now.graph dart looked.now }
    requires target { is_above_level course.now looked.now.target ≡ rises }
    requires source { is_above_level course.now looked.now.source ≡ not rises }
    ensures crossing { IsCrossing glance.now.graph course.now result }
    ensures later { IfSome result (λ x. is_later course.now last.now x ≡ true) }
{
    let line = looked.line();
    if !is_on_way(course, &line) {
        return None;
    }
    let crossing = Crossing {
        dart: dart_towards(glance, dart, rises == course.eastward),
        line,
        upper: upper_end(looked, rises),
    };
    if is_later(course, last, &crossing) {
        Some(crossing)
    } else {
        None
    }
}
