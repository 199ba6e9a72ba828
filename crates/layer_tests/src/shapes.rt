// Points and segments, by their numbers.

use exact_plane::{Point, Segment};
use std::test::Fail;

/// A point by its three numbers.
pub type At = (i128, i128, i128);

/// A segment by its ends.
pub type Ends = (i64, i64, i64, i64);

pub fn point((x, y, w): At) -> Result<Point, Fail> {
    Ok(Point::new(x, y, w)?)
}

pub fn segment((x1, y1, x2, y2): Ends) -> Result<Segment, Fail> {
    Ok(Segment::new(x1, y1, x2, y2)?)
}
