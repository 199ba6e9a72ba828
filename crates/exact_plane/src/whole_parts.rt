//! Whole parts of coordinates, which tell most orders before an exact one is asked for.
ghost use Rattle.std.specs.Prelude.{◌≡◌};
ghost use Rattle.exact_plane.specs.WholeParts.{are_beyond, are_greater, are_less, bounding_box, excludes, excludes_across, excludes_along, is_above_or_below, is_left_or_right_of};

use crate::spans::Span;

/// The greatest whole numbers that aren't past the coordinates of a point.
#[derive(Clone, Copy)]
pub struct WholeParts {
    pub x: i32,
    pub y: i32,
}

/// A box with whole sides (CGAL, `Bbox_2`): no point of a span has whole parts beyond its box.
#[derive(Clone, Copy)]
pub struct BoundingBox {
    pub least: WholeParts,
    pub greatest: WholeParts,
}

#[inline(always)]
fn are_less(a: i32, b: i32, limit: i32) -> bool
    ensures { result ≡ are_less a b limit }
{
    a < limit && b < limit
}

#[inline(always)]
fn are_greater(a: i32, b: i32, limit: i32) -> bool
    ensures { result ≡ are_greater a b limit }
{
    limit < a && limit < b
}

// Whether two numbers are both beyond the same end of a range.
#[inline(always)]
fn are_beyond(a: i32, b: i32, least: i32, greatest: i32) -> bool
    ensures { result ≡ are_beyond a b least greatest }
{
    are_less(a, b, least) || are_greater(a, b, greatest)
}

impl WholeParts {
    /// Whether two others are both to the left of it, or both to the right.
    #[inline(always)]
    pub fn is_left_or_right_of(self, a: WholeParts, b: WholeParts) -> bool
        ensures { result ≡ is_left_or_right_of self a b }
    {
        are_beyond(a.x, b.x, self.x, self.x)
    }

    /// Whether two others are both below it, or both above.
    #[inline(always)]
    pub fn is_above_or_below(self, a: WholeParts, b: WholeParts) -> bool
        ensures { result ≡ is_above_or_below self a b }
    {
        are_beyond(a.y, b.y, self.y, self.y)
    }
}

impl BoundingBox {
    /// The box of a span.
    pub fn of(span: &Span) -> BoundingBox
        ensures { result ≡ bounding_box span.now }
    {
        let lower = span.lower().whole_parts();
        let upper = span.upper().whole_parts();
        BoundingBox {
            least: WholeParts {
                x: lower.x,
                y: lower.y.min(upper.y),
            },
            greatest: WholeParts {
                x: upper.x,
                y: lower.y.max(upper.y),
            },
        }
    }

    // Both places are to its left, or both to its right.
    #[inline(always)]
    fn excludes_across(&self, a: WholeParts, b: WholeParts) -> bool
        ensures { result ≡ excludes_across self.now a b }
    {
        are_beyond(a.x, b.x, self.least.x, self.greatest.x)
    }

    // Both are below it, or both above.
    #[inline(always)]
    fn excludes_along(&self, a: WholeParts, b: WholeParts) -> bool
        ensures { result ≡ excludes_along self.now a b }
    {
        are_beyond(a.y, b.y, self.least.y, self.greatest.y)
    }

    /// Whether two places are both beyond one of its sides. Then a span with ends of these whole parts has no point in common with
    /// one that has this box.
    #[inline(always)]
    pub fn excludes(&self, a: WholeParts, b: WholeParts) -> bool
        ensures { result ≡ excludes self.now a b }
    {
        self.excludes_across(a, b) || self.excludes_along(a, b)
    }
}
