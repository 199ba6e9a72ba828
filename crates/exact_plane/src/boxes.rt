//! How two boxes lie to each other. A box's borders are among its points, so boxes that touch meet.
ghost use Rattle.std.specs.Prelude.{◌≡◌};
ghost use Rattle.std.specs.Int.{int_min, int_max};
ghost use Rattle.exact_plane.specs.Boxes.{are_apart, are_apart_across, are_apart_along, are_ranges_apart, are_same_boxes, are_same_places, box_between, covering, exceeds, exceeds_across, exceeds_along, exceeds_range, is_below_or_above, is_beside, is_beside_or_above};

use crate::point::Point;
use crate::whole_parts::{BoundingBox, WholeParts};

// Whether a range is beyond one end of another one.
#[inline(always)]
fn are_ranges_apart(low: i32, high: i32, from: i32, to: i32) -> bool
    ensures { result ≡ are_ranges_apart low high from to }
{
    high < from || to < low
}

// Whether a range has numbers outside another one.
#[inline(always)]
fn exceeds_range(low: i32, high: i32, from: i32, to: i32) -> bool
    ensures { result ≡ exceeds_range low high from to }
{
    low < from || to < high
}

// The lesser of two, along each axis.
fn lesser(a: WholeParts, b: WholeParts) -> WholeParts
    ensures x { result.x ≡ int_min a.x b.x }
    ensures y { result.y ≡ int_min a.y b.y }
{
    WholeParts {
        x: a.x.min(b.x),
        y: a.y.min(b.y),
    }
}

// The greater of two, along each axis.
fn greater(a: WholeParts, b: WholeParts) -> WholeParts
    ensures x { result.x ≡ int_max a.x b.x }
    ensures y { result.y ≡ int_max a.y b.y }
{
    WholeParts {
        x: a.x.max(b.x),
        y: a.y.max(b.y),
    }
}

#[inline(always)]
fn are_same_places(a: WholeParts, b: WholeParts) -> bool
    ensures { result ≡ are_same_places a b }
{
    a.x == b.x && a.y == b.y
}

impl BoundingBox {
    /// The least box with whole sides that has the whole parts of two points.
    pub fn between(p: &Point, q: &Point) -> BoundingBox
        ensures { result ≡ box_between p.now q.now }
    {
        let first = p.whole_parts();
        let second = q.whole_parts();
        BoundingBox {
            least: lesser(first, second),
            greatest: greater(first, second),
        }
    }

    // Whether another box is to its left, or to its right.
    #[inline(always)]
    fn is_apart_across(&self, other: &BoundingBox) -> bool
        ensures { result ≡ are_apart_across self.now other.now }
    {
        are_ranges_apart(
            other.least.x,
            other.greatest.x,
            self.least.x,
            self.greatest.x,
        )
    }

    // Whether another box is below it, or above it.
    #[inline(always)]
    fn is_apart_along(&self, other: &BoundingBox) -> bool
        ensures { result ≡ are_apart_along self.now other.now }
    {
        are_ranges_apart(
            other.least.y,
            other.greatest.y,
            self.least.y,
            self.greatest.y,
        )
    }

    /// Whether the two have no point in common (CGAL, `do_overlap` of two `Bbox_2`).
    #[inline(always)]
    pub fn is_apart(&self, other: &BoundingBox) -> bool
        ensures { result ≡ are_apart self.now other.now }
    {
        self.is_apart_across(other) || self.is_apart_along(other)
    }

    #[inline(always)]
    fn is_exceeded_across(&self, other: &BoundingBox) -> bool
        ensures { result ≡ exceeds_across self.now other.now }
    {
        exceeds_range(
            other.least.x,
            other.greatest.x,
            self.least.x,
            self.greatest.x,
        )
    }

    #[inline(always)]
    fn is_exceeded_along(&self, other: &BoundingBox) -> bool
        ensures { result ≡ exceeds_along self.now other.now }
    {
        exceeds_range(
            other.least.y,
            other.greatest.y,
            self.least.y,
            self.greatest.y,
        )
    }

    /// Whether another box has points outside it.
    #[inline(always)]
    pub fn is_exceeded(&self, other: &BoundingBox) -> bool
        ensures { result ≡ exceeds self.now other.now }
    {
        self.is_exceeded_across(other) || self.is_exceeded_along(other)
    }

    /// The least box that covers both (CGAL, the sum of two `Bbox_2`).
    pub fn covering(&self, other: &BoundingBox) -> BoundingBox
        ensures { result ≡ covering self.now other.now }
    {
        BoundingBox {
            least: lesser(self.least, other.least),
            greatest: greater(self.greatest, other.greatest),
        }
    }

    /// Whether another box has the same sides.
    #[inline(always)]
    pub fn is_same(&self, other: &BoundingBox) -> bool
        ensures { result ≡ are_same_boxes self.now other.now }
    {
        are_same_places(self.least, other.least) && are_same_places(self.greatest, other.greatest)
    }

    /// Whether it is to the left of a place, or to its right.
    #[inline(always)]
    pub fn is_beside(&self, at: WholeParts) -> bool
        ensures { result ≡ is_beside at self.now }
    {
        are_ranges_apart(self.least.x, self.greatest.x, at.x, at.x)
    }

    /// Whether it is to the left of a place, to its right, or above it.
    #[inline(always)]
    pub fn is_beside_or_above(&self, at: WholeParts) -> bool
        ensures { result ≡ is_beside_or_above at self.now }
    {
        self.is_beside(at) || at.y < self.least.y
    }

    /// Whether it is below a place, or above it.
    #[inline(always)]
    pub fn is_below_or_above(&self, at: WholeParts) -> bool
        ensures { result ≡ is_below_or_above at self.now }
    {
        are_ranges_apart(self.least.y, self.greatest.y, at.y, at.y)
    }
}
