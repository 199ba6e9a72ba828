//! The way of a query from its landmark: along the horizontal to its own abscissa, then along the vertical.
ghost use Rattle.std.specs.Prelude.{◌≡◌, ◌<◌, ◌≤◌, ◌*ℤ◌, unsigned_abs};
ghost use Rattle.exact_plane.specs.declared.bounds.TheConstants.{MAX_COORDINATE, WEIGHT_LIMIT};
ghost use Rattle.locate_landmarks.specs.Courses.{corner_of, course_to, is_above_level};

use crate::grid::{grid_number, landmark_at, level_of_row, row_of};
use exact_plane::{Line, Point};
use std::cmp::Ordering;

// A whole number over a weight.
fn numerator(number: i64, w: i128) -> i128
    requires number { unsigned_abs number ≤ MAX_COORDINATE }
    requires weight { unsigned_abs w < WEIGHT_LIMIT }
    ensures { result ≡ number *ℤ w }
{
    number as i128 * w
}

// The point of a row's horizontal at the abscissa of another point.
fn corner_of(point: &Point, row: usize) -> Point
    requires { row < 7 }
    ensures { result ≡ corner_of point.now row }
{
    point.laws();
    let w = point.w();
    let y = numerator(grid_number(row), w);
    Point::new(point.x(), y, w).unwrap()
}

/// The way from a landmark to a point.
#[derive(Drop)]
pub struct Course {
    pub landmark: Point,
    pub point: Point,
    /// Where the horizontal of the landmark and the vertical of the point meet.
    pub corner: Point,
    /// How the corner lies to the point.
    pub corner_order: Ordering,
    /// The line of the horizontal.
    pub level: Line,
    /// Whether it goes to the right along the horizontal, in point order.
    pub eastward: bool,
    /// Whether it goes down along the vertical.
    pub downward: bool,
}

impl Course {
    /// The way from a landmark, by its place in the list of them all.
    pub fn to(point: &Point, index: usize) -> Course
        requires { index < 49 }
        ensures { result ≡ course_to point.now index }
    {
        let landmark = landmark_at(index);
        let row = row_of(index);
        let corner_order = landmark.compare_y(point);
        Course {
            landmark,
            point: *point,
            corner: corner_of(point, row),
            corner_order,
            level: level_of_row(row),
            eastward: landmark < *point,
            downward: corner_order.is_gt(),
        }
    }

    /// Whether a point is above the horizontal, which is raised by less than any number.
    #[inline(always)]
    pub fn is_above(&self, point: &Point) -> bool
        ensures { result ≡ is_above_level self.now point.now }
    {
        point.compare_y(&self.landmark).is_gt()
    }
}
