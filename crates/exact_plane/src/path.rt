ghost use Rattle.std.specs.Prelude.{◌≡◌, ◌↔◌, ◌+◌, All, Any, length, Some, None, Ok, Err, IsErrOf, IfOk, if◌then◌else◌};
ghost use Rattle.std.specs.List.{list_all, list_any};
ghost use Rattle.exact_plane.specs.declared.bounds.TheConstants.{MAX_SIDES};
ghost use Rattle.exact_plane.specs.Path.{path_of, are_in_range, are_equal, is_point_count, neighbours, side_between, sides_between, AreInRange, AreEqual, IsPointCount, ArePathSides};

use crate::bounds::MAX_SIDES;
use crate::segment::{Segment, within};
use std::marker::Model;
use thiserror::Error;

/// Why a list of points makes no path.
#[derive(Clone, Copy, Debug, PartialEq, Eq, Error)]
pub enum PathError {
    /// There aren't two to nine points.
    #[error("there aren't two to nine points")]
    Count,
    /// A coordinate is out of its range.
    #[error("a number is out of its range")]
    Range,
    /// Two neighbouring points are one point.
    #[error("two neighbouring points are equal")]
    Equal,
}

/// A polyline of one to eight sides, which may touch, cross and overlap.
///
/// Each side is the segment between two neighbouring points, its lower end first.
#[derive(Clone, Copy)]
pub struct Path {
    // The first `count` are the sides, and the others repeat the first one.
    sides: [Segment; MAX_SIDES],
    count: usize,
}

impl Model for Path {
    ghost use Rattle.std.specs.Prelude.{List, length, take};
    ghost use Rattle.exact_plane.specs.Segment.{Segment as Ends};
    ghost use Rattle.exact_plane.specs.PathSides.{padded, IsPadded, padded_back};

    ghost Value = { List Ends };

    ghost view = { λ p. take p.count p.sides };

    ghost invariant = { λ p. IsPadded p.sides p.count };

    ghost inverse = { λ sides. record { sides = padded sides; count = length sides } };

    ghost inverse_ok = { λ a h. padded_back a h };
}

fn is_point_count(count: usize) -> bool
    ensures { result ≡ is_point_count count }
{
    (2..=MAX_SIDES + 1).contains(&count)
}

fn are_in_range(points: &[(i64, i64)]) -> bool
    ensures { result ≡ list_all are_in_range points.now }
{
    points.iter().all(|&(x, y)| within(x) && within(y))
}

// The side between two points whose coordinates are in range, where they differ.
fn side(from: (i64, i64), to: (i64, i64)) -> Option<Segment>
    requires from { AreInRange from }
    requires to { AreInRange to }
    ensures { result ≡ (if are_equal (from, to) then None else Some (side_between (from, to))) }
{
    Segment::new(from.0, from.1, to.0, to.1).ok()
}

// The path along points whose count is right, and whose coordinates are in range.
fn along(points: &[(i64, i64)]) -> Result<Path, PathError>
    requires count { IsPointCount (length points.now) }
    requires range { All AreInRange points.now }
    ensures { result ≡ (if list_any are_equal (neighbours points.now) then Err PathError.Equal else Ok (sides_between points.now)) }
{
    let Some(first) = side(points[0], points[1]) else {
        return Err(PathError::Equal);
    };
    let mut sides = [first; MAX_SIDES];
    let count = points.len() - 1;
    for place in 1..count {
        let Some(side) = side(points[place], points[place + 1]) else {
            return Err(PathError::Equal);
        };
        sides[place] = side;
    }
    Ok(Path { sides, count })
}

impl Path {
    /// The path along a list of points (x, y), in whole plane units.
    ///
    /// There are two to nine of them, no coordinate is larger than `MAX_COORDINATE` in size, and neighbours differ. Points
    /// that aren't neighbours may be equal, so a path may end where it begins. No memory is taken.
    pub fn new(points: &[(i64, i64)]) -> Result<Path, PathError>
        ensures value { result ≡ path_of points.now }
        ensures count { IsErrOf result PathError.Count ↔ ¬ IsPointCount (length points.now) }
        ensures range { IsErrOf result PathError.Range ↔ (IsPointCount (length points.now) × ¬ All AreInRange points.now) }
        ensures equal { IsErrOf result PathError.Equal
            ↔ (IsPointCount (length points.now) × All AreInRange points.now × Any AreEqual (neighbours points.now)) }
        ensures sides { IfOk result (λ sides. length sides + 1 ≡ length points.now) }
        ensures limit { MAX_SIDES ≡ 8 }
    {
        if !is_point_count(points.len()) {
            return Err(PathError::Count);
        }
        if !are_in_range(points) {
            return Err(PathError::Range);
        }
        along(points)
    }

    /// Its sides, from its first point to its last, each with its lower end first.
    pub fn sides(&self) -> &[Segment]
        ensures value { result.now ≡ self.now }
        ensures count { ArePathSides self.now }
    {
        &self.sides[..self.count]
    }
}
