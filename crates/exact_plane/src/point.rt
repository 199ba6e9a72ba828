ghost use Rattle.std.specs.Prelude.{◌≡◌, ◌≢◌, ◌↔◌, ◌<◌, ◌-◌, ◌^◌, pos, ◌*ℤ◌, unsigned_abs, IsTrue, IsErrOf, IfOk, refl};
ghost use Rattle.std.specs.Cmp.{po, partial_equiv_from_equiv};
ghost use Rattle.std.specs.Ordering.{as_partial_cmp};
ghost use Rattle.exact_plane.specs.declared.bounds.TheConstants.{MAX_COORDINATE, WEIGHT_LIMIT};
ghost use Rattle.integers.specs.Lowest.{IsLowest};
ghost use Rattle.integers.specs.Ratio.{ratio_cmp};
ghost use Rattle.exact_plane.specs.MeetOf.{place_cmp};
ghost use Rattle.exact_plane.specs.Point.{in_range, point_eq, IsInRange, IsPoint};
ghost use Rattle.exact_plane.specs.PointOf.{point_of};
ghost use Rattle.exact_plane.specs.PointOrder.{point_cmp};
ghost use Rattle.exact_plane.specs.PointOrderLaws.{point_cmp_total, point_cmp_ties, point_eq_equiv, hash_input, hash_respects};
ghost use Rattle.exact_plane.specs.Segment.{whole_point, IsCoordinate};
ghost use Rattle.exact_plane.specs.WholeParts.{whole_parts};

use crate::bounds::{MAX_COORDINATE, WEIGHT_LIMIT};
use crate::place::Place;
use crate::whole_parts::WholeParts;
use std::cmp::Ordering;
use std::hash::{Hash, Hasher};
use std::marker::Model;
use thiserror::Error;

/// Why three numbers are no point.
#[derive(Clone, Copy, Debug, PartialEq, Eq, Error)]
pub enum PointError {
    /// The weight is 0.
    #[error("the weight is 0")]
    ZeroWeight,
    /// The weight or a coordinate is out of its range.
    #[error("a number is out of its range")]
    Range,
}

/// The point (x/w, y/w), in lowest terms: no number but 1 divides all three.
///
/// Points are ordered by x, then by y, and equal points have equal numbers.
#[derive(Clone, Copy)]
pub struct Point {
    pub(crate) place: Place,
}

impl Model for Point {
    ghost use Rattle.exact_plane.specs.Point.{Point as Coordinates, IsPoint};

    ghost Value = { Coordinates };

    ghost view = { λ p. p.place };

    ghost invariant = { λ p. IsPoint p.place };

    ghost inverse = { λ p. record { place = p } };
}

pub(crate) fn is_in_range(x: i128, y: i128, w: i128) -> bool
    ensures { result ≡ in_range x y w }
{
    0 < w
        && w.unsigned_abs() < WEIGHT_LIMIT
        && x.unsigned_abs() <= MAX_COORDINATE * w.unsigned_abs()
        && y.unsigned_abs() <= MAX_COORDINATE * w.unsigned_abs()
}

impl Point {
    /// The point (x/w, y/w).
    ///
    /// The weight w is at least 1 and below `WEIGHT_LIMIT`, and x and y are at most `MAX_COORDINATE` times w in
    /// size. The three numbers need not be in lowest terms.
    pub fn new(x: i128, y: i128, w: i128) -> Result<Point, PointError>
        ensures value { result ≡ point_of x y w }

        ensures zero_weight { IsErrOf result PointError.ZeroWeight ↔ (w ≡ pos 0) }
        ensures range { IsErrOf result PointError.Range ↔ ((w ≢ pos 0) × ¬ IsInRange x y w) }

        ensures same_place { IfOk result (λ p. (p.x *ℤ w ≡ x *ℤ p.w) × (p.y *ℤ w ≡ y *ℤ p.w)) }
        ensures in_range { IfOk result (λ p. IsInRange p.x p.y p.w) }
        ensures lowest { IfOk result (λ p. IsLowest p.x p.y p.w) }
        ensures limits { (MAX_COORDINATE ≡ 2 ^ 24 - 1) × (WEIGHT_LIMIT ≡ 2 ^ 51) }
    {
        if w == 0 {
            return Err(PointError::ZeroWeight);
        }
        if !is_in_range(x, y, w) {
            return Err(PointError::Range);
        }
        Ok(Point {
            place: Place::of(x, y, w as i64).lowest(),
        })
    }

    // The point with these coordinates.
    pub(crate) fn whole(x: i64, y: i64) -> Point
        requires x_within { IsCoordinate x }
        requires y_within { IsCoordinate y }
        ensures { result ≡ whole_point x y }
    {
        Point {
            place: Place::whole(x, y),
        }
    }

    /// What is true of all points: the weight is positive, no number is out of its range, and no number but 1 divides all three.
    pub fn laws(&self)
        ensures { IsPoint self.now }
    {
        // Any use of a field tells what is kept.
        let _ = &self.place;
    }

    /// The greatest whole numbers that aren't past the coordinates.
    #[inline(always)]
    pub fn whole_parts(&self) -> WholeParts
        ensures { result ≡ whole_parts self.now }
    {
        self.place.whole_parts()
    }

    /// The abscissa times the weight.
    pub fn x(&self) -> i128
        ensures { result ≡ self.now.x }
    {
        self.place.x()
    }

    /// The ordinate times the weight.
    pub fn y(&self) -> i128
        ensures { result ≡ self.now.y }
    {
        self.place.y()
    }

    /// The weight, which is at least 1.
    pub fn w(&self) -> i128
        ensures value { result ≡ self.now.w }
        ensures point { IsPoint self.now }
    {
        self.place.w() as i128
    }

    /// The order of the abscissas (CGAL, `Compare_x_2`).
    pub fn compare_x(&self, other: &Point) -> Ordering
        ensures { result ≡ ratio_cmp self.now.x self.now.w other.now.x other.now.w }
    {
        self.place.compare_x(&other.place)
    }

    /// The order of the ordinates (CGAL, `Compare_y_2`).
    pub fn compare_y(&self, other: &Point) -> Ordering
        ensures { result ≡ ratio_cmp self.now.y self.now.w other.now.y other.now.w }
    {
        self.place.compare_y(&other.place)
    }
}

impl PartialEq for Point {
    ghost eq = { point_eq };

    ghost laws = { partial_equiv_from_equiv point_eq_equiv };

    fn eq(&self, other: &Point) -> bool {
        self.cmp(other).is_eq()
    }
}

impl Eq for Point {
    ghost laws = { point_eq_equiv };
}

impl Hash for Point {
    ghost hash_input = { hash_input };

    ghost respects_eq = { hash_respects };

    fn hash<H: Hasher>(&self, state: &mut H) {
        self.x().hash(state);
        self.y().hash(state);
        self.w().hash(state);
    }
}

impl Ord for Point {
    ghost cmp = { point_cmp };

    ghost total = { point_cmp_total };

    ghost matches_partial_cmp = { λ _ _. refl };

    ghost matches_eq = { point_cmp_ties };

    // In lowest terms two points at one place have one weight, by which the order of all triples goes last.
    fn cmp(&self, other: &Point) -> Ordering {
        self.place.compare(&other.place)
    }
}

impl PartialOrd for Point {
    ghost partial_cmp = { as_partial_cmp point_cmp };

    ghost laws = { po point_cmp_total point_cmp_ties };

    fn partial_cmp(&self, other: &Point) -> Option<Ordering> {
        Some(self.cmp(other))
    }
}
