//! The grid of the landmarks.
ghost use Rattle.std.specs.Prelude.{◌≡◌, ◌<◌, ◌%◌, pos, ◌<ℤ◌, unsigned_abs};
ghost use Rattle.exact_plane.specs.declared.bounds.TheConstants.{WEIGHT_LIMIT};
ghost use Rattle.locate_landmarks.specs.Courses.{level_of_row, IsLandmarkOf};
ghost use Rattle.locate_landmarks.specs.Grid.{grid_number, landmark_at, IsNearest};

use exact_plane::{Line, Point, Segment, line_of};

/// How many landmarks there are in a row of the grid, and in a column.
pub(crate) const LANDMARKS_IN_ROW: usize = 7;

/// How many landmarks there are.
pub(crate) const LANDMARKS: usize = 49;

/// The abscissa of a column of the grid, and the ordinate of a row.
pub(crate) fn grid_number(index: usize) -> i64
    requires { index < 7 }
    ensures { result ≡ grid_number index }
{
    index as i64 * 4_194_304 - 12_582_912
}

// The column or the row that is nearest to a number, the lesser one of two equally near.
fn nearest(number: i128, weight: i128) -> usize
    requires positive { pos 0 <ℤ weight }
    requires small { unsigned_abs weight < WEIGHT_LIMIT }
    ensures within { result < 7 }
    ensures nearest { IsNearest number weight (grid_number result) }
{
    if number <= -10_485_760 * weight {
        0
    } else if number <= -6_291_456 * weight {
        1
    } else if number <= -2_097_152 * weight {
        2
    } else if number <= 2_097_152 * weight {
        3
    } else if number <= 6_291_456 * weight {
        4
    } else if number <= 10_485_760 * weight {
        5
    } else {
        6
    }
}

/// The abscissa and the ordinate of the landmark from which a query for the point starts: each is the nearest of -12582912,
/// -8388608, -4194304, 0, 4194304, 8388608 and 12582912, the lesser one of two equally near. It takes no memory.
pub fn landmark_of(point: &Point) -> (i64, i64)
    ensures abscissa { IsNearest point.now.x point.now.w result.0 }
    ensures ordinate { IsNearest point.now.y point.now.w result.1 }
{
    let column = nearest(point.x(), point.w());
    let row = nearest(point.y(), point.w());
    (grid_number(column), grid_number(row))
}

/// The place of that landmark in the list of them all.
pub(crate) fn landmark_index(point: &Point) -> usize
    ensures within { result < 49 }
    ensures nearest { IsLandmarkOf point.now result }
{
    let column = nearest(point.x(), point.w());
    let row = nearest(point.y(), point.w());
    column * LANDMARKS_IN_ROW + row
}

/// The row of a landmark, by its place in the list of them all, which goes from column to column.
pub(crate) fn row_of(index: usize) -> usize
    ensures { result ≡ index % 7 }
{
    index % LANDMARKS_IN_ROW
}

/// The line of a row.
pub(crate) fn level_of_row(row: usize) -> Line
    requires { row < 7 }
    ensures { result ≡ level_of_row row }
{
    let y = grid_number(row);
    line_of(&Segment::new(0, y, 1, y).unwrap())
}

/// A landmark, by its place in the list of them all.
pub(crate) fn landmark_at(index: usize) -> Point
    requires { index < 49 }
    ensures { result ≡ landmark_at index }
{
    let x = grid_number(index / LANDMARKS_IN_ROW);
    let y = grid_number(row_of(index));
    Point::new(x as i128, y as i128, 1).unwrap()
}
