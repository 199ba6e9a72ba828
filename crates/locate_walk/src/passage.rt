ghost use Rattle.std.specs.Prelude.{◌≡◌, ◌&&◌, int_lt, pos, ◌<ℤ◌};
ghost use Rattle.locate_walk.specs.Passages.{IsPassage, spans};

use counted_looks::Glimpse;
use exact_plane::{Point, WholeParts};
use std::cmp::Ordering;

/// How a dart lies to the leant vertical through a point, by its ends.
#[derive(Clone, Copy)]
pub enum Passage {
    /// It starts at the point.
    FromPoint,
    /// It ends at the point.
    ToPoint,
    /// It starts before the point and ends after it.
    Forward,
    /// It starts after the point and ends before it.
    Backward,
    /// Both ends are before the point, or both after it.
    Apart,
}

impl Passage {
    /// Whether one end is before the point and one after it.
    pub fn spans(self) -> bool
        ensures { result ≡ spans self }
    {
        matches!(self, Passage::Forward | Passage::Backward)
    }
}

// Whether a place is right of one and left of another, by whole parts.
#[inline(always)]
fn is_between(left: WholeParts, place: WholeParts, right: WholeParts) -> bool
    ensures { result ≡ (int_lt left.x place.x && int_lt place.x right.x) }
{
    left.x < place.x && place.x < right.x
}

// The passage of a dart, by the comparison of both ends with the point.
fn compared(looked: &Glimpse, point: &Point) -> Passage
    ensures { IsPassage looked.now.source point.now looked.now.target result }
{
    match (looked.source().cmp(point), looked.target().cmp(point)) {
        (Ordering::Equal, _) => Passage::FromPoint,
        (_, Ordering::Equal) => Passage::ToPoint,
        (Ordering::Less, Ordering::Greater) => Passage::Forward,
        (Ordering::Greater, Ordering::Less) => Passage::Backward,
        _ => Passage::Apart,
    }
}

/// The passage of a dart that was looked at. Of most that span the point the whole parts of both ends tell it, and no vertex is read;
/// else both ends are compared with the point.
pub fn passage_of(looked: &Glimpse, point: &Point) -> Passage
    requires weights { (pos 0 <ℤ looked.now.source.w) × (pos 0 <ℤ looked.now.target.w) }
    ensures { IsPassage looked.now.source point.now looked.now.target result }
{
    point.laws();
    let from = looked.source_parts();
    let at = point.whole_parts();
    let to = looked.target_parts();
    if is_between(from, at, to) {
        return Passage::Forward;
    }
    if is_between(to, at, from) {
        return Passage::Backward;
    }
    compared(looked, point)
}
