ghost use Rattle.std.specs.Prelude.{◌≡◌, ◌&&◌, not, IfOk};
ghost use Rattle.exact_plane.specs.Segment.{line_of_segment};
ghost use Rattle.plane_graphs.specs.Line.{is_on as is_on_line, precedes};
ghost use Rattle.zone_walk.specs.Zone.{is_on_segment};
ghost use Rattle.path_zone.specs.Begun.{begin_cmp, AreBegun, AreInSweepOrder};
ghost use Rattle.path_zone.specs.PathZone.{has_behind, is_begun as is_begun_by, AreStarts};

use dcel_records::Spot;
use exact_plane::{Point, Segment, Sign, orientation};
use no_memory::NoMemory;
use std::alloc::Global;
use std::cmp::Ordering;

/// A side with the spot that was handed in for its lower end.
#[derive(Clone, Copy)]
pub(crate) struct BegunSide {
    pub(crate) side: Segment,
    pub(crate) start: Spot,
    /// Its place in the path.
    pub(crate) place: usize,
}

// Whether a point is on the line through the ends of a side.
fn is_on(side: &Segment, point: &Point) -> bool
    ensures { result ≡ is_on_line (line_of_segment side.now) point.now }
{
    orientation(side, point) == Sign::Zero
}

fn comes_before(p: &Point, q: &Point) -> bool
    ensures { result ≡ precedes p.now q.now }
{
    *p < *q
}

// Whether a point is neither before the lower nor behind the upper end.
fn is_within(side: &Segment, point: &Point) -> bool
    ensures { result ≡ (not (precedes point.now side.now.lower) && not (precedes side.now.upper point.now)) }
{
    !comes_before(point, &side.lower()) && !comes_before(&side.upper(), point)
}

/// Whether a point is on a side.
pub(crate) fn holds(side: &Segment, point: &Point) -> bool
    ensures { result ≡ is_on_segment side.now point.now }
{
    // Whole parts tell most orders, so this comes first.
    is_within(side, point) && is_on(side, point)
}

// Whether a point is on a side behind its lower end.
fn holds_behind(side: &Segment, point: &Point) -> bool
    ensures { result ≡ has_behind side.now point.now }
{
    comes_before(&side.lower(), point) && holds(side, point)
}

/// Whether a side begins on another one of the path behind that one's lower end. Its zone begins then where the zone of the other one
/// tells, and its start may be any spot.
pub fn is_begun(sides: &[Segment], side: &Segment) -> bool
    ensures { result ≡ is_begun_by sides.now side.now }
{
    let lower = side.lower();
    sides.iter().any(|other| holds_behind(other, &lower))
}

// Sides in the order in which their lower ends come, and of those from one point the long ones first.
fn begin_order(first: &BegunSide, second: &BegunSide) -> Ordering
    ensures { result ≡ begin_cmp first.now second.now }
{
    first
        .side
        .lower()
        .cmp(&second.side.lower())
        .then(second.side.upper().cmp(&first.side.upper()))
}

// The sides with their starts.
fn begun_sides(
    alloc: Global,
    sides: &[Segment],
    starts: &[Spot],
) -> Result<Vec<BegunSide>, NoMemory>
    requires { (v : _) × (f : _) × AreStarts v f sides.now starts.now }
    ensures { IfOk result (λ bs. (v : _) (f : _) → AreStarts v f sides.now starts.now → AreBegun v f sides.now bs.items) }
{
    let mut begun = Vec::with_capacity(alloc, sides.len())?;
    'sides: for (place, side) in sides.iter().enumerate() {
        begun.push(BegunSide {
            side: *side,
            start: starts[place],
            place,
        })?;
    }
    Ok(begun)
}

/// The sides with their starts, in the order in which they begin.
pub(crate) fn in_sweep_order(
    alloc: Global,
    sides: &[Segment],
    starts: &[Spot],
) -> Result<Vec<BegunSide>, NoMemory>
    requires { (v : _) × (f : _) × AreStarts v f sides.now starts.now }
    ensures { IfOk result (λ bs. (v : _) (f : _) → AreStarts v f sides.now starts.now → AreInSweepOrder v f sides.now bs.items) }
{
    let mut begun = begun_sides(alloc, sides, starts)?;
    begun.sort_unstable_by(|first, second| begin_order(first, second));
    Ok(begun)
}
