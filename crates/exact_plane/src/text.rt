ghost use Rattle.std.specs.Prelude.{Some};
ghost use Rattle.exact_plane.specs.PointText.{point_text};

use crate::point::Point;
use std::fmt;

/// The three numbers with a space between them, as a script writes a point: `X Y W`.
impl fmt::Display for Point {
    ghost output = { λ point. Some (point_text point) };

    fn fmt<W: fmt::Write>(&self, f: &mut fmt::Formatter<W>) -> fmt::Result {
        let (x, y, w) = (self.x(), self.y(), self.w());
        write!(f, "{x} {y} {w}")
    }
}

/// As its `Display`.
impl fmt::Debug for Point {
    ghost debug_output = { λ point. Some (point_text point) };

    fn fmt<W: fmt::Write>(&self, f: &mut fmt::Formatter<W>) -> fmt::Result {
        write!(f, "{self}")
    }
}
