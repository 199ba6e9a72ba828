// Points, segments and lines, by their numbers; and numbers and points as they are written.

use exact_plane::{Line, Point, Segment, line_of};
use itoa::{Buffer, Integer};
use no_memory::NoMemory;
use std::test::Fail;

/// A point by its three numbers.
pub type At = (i128, i128, i128);

/// A segment by its ends, or the line through them.
pub type Ends = (i64, i64, i64, i64);

pub fn point((x, y, w): At) -> Result<Point, Fail> {
    Ok(Point::new(x, y, w)?)
}

pub fn segment((x1, y1, x2, y2): Ends) -> Result<Segment, Fail> {
    Ok(Segment::new(x1, y1, x2, y2)?)
}

pub fn line(ends: Ends) -> Result<Line, Fail> {
    Ok(line_of(&segment(ends)?))
}

/// A number, with a space behind it.
pub fn write_number<I: Integer>(text: &mut Vec<u8>, number: I) -> Result<(), NoMemory> {
    let mut buffer = Buffer::new();
    text.extend_from_slice(buffer.format(number).as_bytes())?;
    text.push(b' ')?;
    Ok(())
}

/// The three numbers of a point.
pub fn write_point(text: &mut Vec<u8>, point: &Point) -> Result<(), NoMemory> {
    write_number(text, point.x())?;
    write_number(text, point.y())?;
    write_number(text, point.w())
}
