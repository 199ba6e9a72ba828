ghost use Rattle.std.specs.Prelude.{◌≡◌, ◌<◌, ◌≤◌, pos, [], ◌∷◌, ◌++◌, length};
ghost use Rattle.exact_plane.specs.Segment.{whole_point};
ghost use Rattle.script_lines.specs.declared.points.TheConstants.{MAX_POINTS, MAX_BATCH};

use exact_plane::{MAX_SIDES, Point};
use std::marker::Model;

// A path has one point more than sides.
const MAX_POINTS: usize = MAX_SIDES + 1;

// How many points a batch may have.
const MAX_BATCH: usize = 8;

/// The points (x, y) of the line of a path, in whole plane units and in the line's order.
///
/// There are at most nine, and no memory is taken.
#[derive(Clone, Copy)]
pub struct PathPoints {
    // The first `count` are the points, and the others are the origin.
    points: [(i64, i64); MAX_POINTS],
    count: usize,
}

impl Model for PathPoints {
    ghost use Rattle.std.specs.Prelude.{ℤ, List, length, take};
    ghost use Rattle.script_lines.specs.PathPoints.{path_filled, IsPathFilled, path_filled_back};

    ghost Value = { List (ℤ × ℤ) };

    ghost view = { λ p. take p.count p.points };

    ghost invariant = { λ p. IsPathFilled p };

    ghost inverse = { λ points. record { points = path_filled points; count = length points } };

    ghost inverse_ok = { λ a h. path_filled_back a h };
}

impl PathPoints {
    // None.
    pub(crate) fn new() -> PathPoints
        ensures { result ≡ [] }
    {
        PathPoints {
            points: [(0, 0); MAX_POINTS],
            count: 0,
        }
    }

    // One more, behind the others.
    pub(crate) fn push(&mut self, x: i64, y: i64)
        requires { length self.old < MAX_POINTS }
        ensures { self.new ≡ self.old ++ (x, y) ∷ [] }
    {
        self.points[self.count] = (x, y);
        self.count += 1;
    }

    /// All of them.
    pub fn as_slice(&self) -> &[(i64, i64)]
        ensures value { result.now ≡ self.now }
        ensures count { length self.now ≤ MAX_POINTS }
        ensures limit { MAX_POINTS ≡ 9 }
    {
        &self.points[..self.count]
    }
}

/// The points of the line of a batch, in lowest terms and in the line's order.
///
/// There are at most eight, some may be equal, and no memory is taken.
#[derive(Clone, Copy)]
pub struct BatchPoints {
    // The first `count` are the points, and the others are the origin.
    points: [Point; MAX_BATCH],
    count: usize,
}

impl Model for BatchPoints {
    ghost use Rattle.std.specs.Prelude.{List, length, take};
    ghost use Rattle.exact_plane.specs.Point.{Point as Coordinates};
    ghost use Rattle.script_lines.specs.BatchPoints.{batch_filled, IsBatchFilled, batch_filled_back};

    ghost Value = { List Coordinates };

    ghost view = { λ p. take p.count p.points };

    ghost invariant = { λ p. IsBatchFilled p };

    ghost inverse = { λ points. record { points = batch_filled points; count = length points } };

    ghost inverse_ok = { λ a h. batch_filled_back a h };
}

// What fills the rest.
fn origin() -> Point
    ensures { result ≡ whole_point (pos 0) (pos 0) }
{
    Point::new(0, 0, 1).unwrap()
}

impl BatchPoints {
    // None.
    pub(crate) fn new() -> BatchPoints
        ensures { result ≡ [] }
    {
        BatchPoints {
            points: [origin(); MAX_BATCH],
            count: 0,
        }
    }

    // One more, behind the others.
    pub(crate) fn push(&mut self, point: Point)
        requires { length self.old < MAX_BATCH }
        ensures { self.new ≡ self.old ++ point ∷ [] }
    {
        self.points[self.count] = point;
        self.count += 1;
    }

    /// All of them.
    pub fn as_slice(&self) -> &[Point]
        ensures value { result.now ≡ self.now }
        ensures count { length self.now ≤ MAX_BATCH }
        ensures limit { MAX_BATCH ≡ 8 }
    {
        &self.points[..self.count]
    }
}
