ghost use Rattle.std.specs.Prelude.{◌≡◌};
ghost use Rattle.exact_plane.specs.Boxes.{are_apart, is_below_or_above, is_beside, is_beside_or_above};

use crate::glimpse::Glimpse;
use exact_plane::{BoundingBox, WholeParts};
use slab_laws::DartId;

/// One look at a cycle: at the dart that is kept for it, and at the cycle's box. Where the box is beside what is asked for, no dart on the
/// cycle needs another look (CGAL, `Bbox_2` as a filter).
#[derive(Drop)]
pub struct CycleGlimpse<'a> {
    /// The dart that is kept for the cycle.
    pub dart: DartId,
    /// What a look at that dart tells.
    pub first: Glimpse<'a>,
    /// A box that has the whole parts of all points on the cycle. It may be larger than the least one.
    pub area: BoundingBox,
}

impl<'a> CycleGlimpse<'a> {
    /// Whether the cycle's box is beyond one side of another one.
    #[inline(always)]
    pub fn is_outside(&self, bounds: &BoundingBox) -> bool
        ensures { result ≡ are_apart bounds.now self.now.area }
    {
        bounds.is_apart(&self.area)
    }

    /// Whether the cycle's box is to the left of a place, or to its right.
    #[inline(always)]
    pub fn is_left_or_right_of(&self, at: WholeParts) -> bool
        ensures { result ≡ is_beside at self.now.area }
    {
        self.area.is_beside(at)
    }

    /// Whether the cycle's box is to the left of a place, to its right, or above it.
    #[inline(always)]
    pub fn is_beside_or_above(&self, at: WholeParts) -> bool
        ensures { result ≡ is_beside_or_above at self.now.area }
    {
        self.area.is_beside_or_above(at)
    }

    /// Whether the cycle's box is below a place, or above it.
    #[inline(always)]
    pub fn is_above_or_below(&self, at: WholeParts) -> bool
        ensures { result ≡ is_below_or_above at self.now.area }
    {
        self.area.is_below_or_above(at)
    }
}
