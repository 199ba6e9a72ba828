ghost use Rattle.std.specs.Prelude.{◌≡◌, ◌⊎◌, ◌||◌, ◌∷◌, [], true, Some, IfSome, OnOk};
ghost use Rattle.exact_plane.specs.Meet.{IsOnlyCommon};
ghost use Rattle.exact_plane.specs.Point.{point_eq};
ghost use Rattle.exact_plane.specs.Segment.{AreEnds};
ghost use Rattle.exact_plane.specs.Span.{span_of_segment, IsSpan};
ghost use Rattle.exact_plane.specs.WholeParts.{excludes};
ghost use Rattle.plane_graphs.specs.Ascending.{Member};
ghost use Rattle.face_location.specs.Spots.{IsSpotOf};
ghost use Rattle.zone_walk.specs.Zone.{is_on_segment, IsZoneOf};
ghost use Rattle.path_zone.specs.Gathered.{HasMore, HasPoint, IsOnZoned, IsSpotWithin};
ghost use Rattle.path_zone.specs.PathZone.{IsCrossing};
ghost use Rattle.path_zone.specs.Zoned.{has_common_end, is_over as is_over_side, sides_zoned, AreZonedSides, HasAdded, HasEnds, IsPlaceOver, IsToldOf, IsZonedSide};

use crate::order::holds;
use dcel_records::Spot;
use exact_plane::{BoundingBox, Meet, Point, Segment, Span, line_of, span_meeting};
use no_memory::NoMemory;
use zone_walk::{Meeting, ZonePlan};

/// A side with its zone.
#[derive(Drop)]
pub(crate) struct ZonedSide {
    pub(crate) side: Segment,
    /// The same, with its line.
    pub(crate) whole: Span,
    pub(crate) bounds: BoundingBox,
    pub(crate) plan: ZonePlan,
}

// All of a side, as a span.
fn whole(side: &Segment) -> Span
    ensures value { result ≡ span_of_segment side.now }
    ensures span { IsSpan (span_of_segment side.now) }
    ensures ends { AreEnds side.now }
{
    let whole = Span::between(side.lower(), side.upper(), line_of(side));
    whole.laws();
    whole
}

impl ZonedSide {
    /// A side and its zone.
    pub(crate) fn new(side: &Segment, plan: ZonePlan) -> ZonedSide
        ensures side { result.side ≡ side.now }
        ensures plan { result.plan ≡ plan }
        ensures zoned { (v : _) (f : _) → IsZoneOf v f side.now plan → IsZonedSide v f result }
    {
        let whole = whole(side);
        ZonedSide {
            side: *side,
            whole,
            bounds: BoundingBox::of(&whole),
            plan,
        }
    }
}

// Whether a point is one of the ends of a side.
fn has_end(side: &Segment, point: &Point) -> bool
    ensures { result ≡ (point_eq side.now.lower point.now || point_eq side.now.upper point.now) }
{
    side.lower() == *point || side.upper() == *point
}

// Whether two sides have an end in common.
fn share_end(side: &Segment, other: &Segment) -> bool
    ensures { result ≡ has_common_end side.now other.now }
{
    has_end(side, &other.lower()) || has_end(side, &other.upper())
}

// Whether the box of a side is beyond one side of the box of another one.
fn are_apart(side: &ZonedSide, other: &ZonedSide) -> bool
    ensures { result ≡ excludes side.now.bounds other.now.bounds.least other.now.bounds.greatest }
{
    side.bounds
        .excludes(other.bounds.least, other.bounds.greatest)
}

// Whether it is plain that a side crosses another one nowhere but at a vertex of its own zone: neighbours on a path cross at their
// common end, if at all.
fn is_plain(side: &ZonedSide, other: &ZonedSide) -> bool
    ensures { result ≡ true → (v : _) (f : _) → IsZonedSide v f side.now → IsZonedSide v f other.now → (x : _) → IsCrossing side.now.side other.now.side x → HasPoint side.now.plan.vertices x }
{
    are_apart(side, other) || share_end(&side.side, &other.side)
}

// The one point that two sides have in common. `None` where they have none, or more.
fn common_point(side: &ZonedSide, other: &ZonedSide) -> Option<Point>
    requires { (v : _) × (f : _) × IsZonedSide v f side.now × IsZonedSide v f other.now }
    ensures only { IfSome result (IsOnlyCommon (span_of_segment side.now.side) (span_of_segment other.now.side)) }
    ensures all { (x : _) → IsCrossing side.now.side other.now.side x → result ≡ Some x }
{
    match span_meeting(&side.whole, &other.whole) {
        Meet::At(point) => Some(point),
        Meet::Apart | Meet::Along(_, _) => None,
    }
}

// The spot of the open part of a side's zone that has a point of the side. `None` where the point is one of the zone's vertices.
fn spot_within(plan: &ZonePlan, point: &Point) -> Option<Spot>
    requires { (v : _) × (f : _) × (s : _) × IsOnZoned v f s plan.now point.now }
    ensures { (v : _) (f : _) (s : _) → IsOnZoned v f s plan.now point.now → IsSpotWithin v f plan.now point.now result }
{
    let vertices = plan.vertices.as_slice();
    match vertices.binary_search_by(|meeting| meeting.point.cmp(point)) {
        Ok(_) => None,
        Err(after) => Some(plan.between.as_slice()[after - 1]),
    }
}

// The spot of a point of a side, by the side's zone.
fn spot_on(plan: &ZonePlan, point: &Point) -> Spot
    requires { (v : _) × (f : _) × (s : _) × IsOnZoned v f s plan.now point.now }
    ensures { (v : _) (f : _) (s : _) → IsOnZoned v f s plan.now point.now → IsSpotOf v f point.now result }
{
    let vertices = plan.vertices.as_slice();
    match vertices.binary_search_by(|meeting| meeting.point.cmp(point)) {
        Ok(at) => vertices[at].spot,
        Err(after) => plan.between.as_slice()[after - 1],
    }
}

// Adds a point of a side, unless it is one of the vertices of the side's zone.
fn add_point(meetings: &mut Vec<Meeting>, plan: &ZonePlan, point: &Point) -> Result<(), NoMemory>
    requires { (v : _) × (f : _) × (s : _) × IsOnZoned v f s plan.now point.now }
    ensures { OnOk result ((v : _) (f : _) (s : _) → IsOnZoned v f s plan.now point.now → HasAdded v f plan.now point.now meetings.old.items meetings.new.items) }
{
    if let Some(spot) = spot_within(plan, point) {
        meetings.push(Meeting {
            point: *point,
            spot,
        })?;
    }
    Ok(())
}

// Adds the point where a side crosses another one, unless it is one of the vertices of the first one's zone.
fn add_crossing(
    meetings: &mut Vec<Meeting>,
    side: &ZonedSide,
    other: &ZonedSide,
) -> Result<(), NoMemory>
    requires { (v : _) × (f : _) × IsZonedSide v f side.now × IsZonedSide v f other.now }
    ensures more { OnOk result ((v : _) (f : _) → IsZoneOf v f side.now.side side.now.plan → HasMore v f (side.now.side ∷ other.now.side ∷ []) meetings.old.items meetings.new.items) }
    ensures there { OnOk result ((x : _) → IsCrossing side.now.side other.now.side x → HasPoint meetings.new.items x ⊎ HasPoint side.now.plan.vertices x) }
{
    if is_plain(side, other) {
        return Ok(());
    }
    let Some(point) = common_point(side, other) else {
        return Ok(());
    };
    if let Some(spot) = spot_within(&side.plan, &point) {
        meetings.push(Meeting { point, spot })?;
    }
    Ok(())
}

/// Adds the points where a side crosses others, but for the vertices of its own zone.
pub(crate) fn add_crossings(
    meetings: &mut Vec<Meeting>,
    side: &ZonedSide,
    others: &[ZonedSide],
) -> Result<(), NoMemory>
    requires { (v : _) × (f : _) × IsZonedSide v f side.now × AreZonedSides v f others.now }
    ensures more { OnOk result ((v : _) (f : _) → IsZoneOf v f side.now.side side.now.plan → HasMore v f (side.now.side ∷ sides_zoned others.now) meetings.old.items meetings.new.items) }
    ensures there { OnOk result ((t : _) (x : _) → Member t (sides_zoned others.now) → IsCrossing side.now.side t x → HasPoint meetings.new.items x ⊎ HasPoint side.now.plan.vertices x) }
{
    'others: for other in others {
        add_crossing(meetings, side, other)?;
    }
    Ok(())
}

/// Adds the ends of a side along one that has a zone, unless they are vertices of that zone.
pub(crate) fn add_ends(
    meetings: &mut Vec<Meeting>,
    over: &ZonedSide,
    side: &Segment,
) -> Result<(), NoMemory>
    requires zoned { (v : _) × (f : _) × IsZonedSide v f over.now }
    requires over { is_over_side over.now side.now ≡ true }
    ensures { OnOk result ((v : _) (f : _) → IsZonedSide v f over.now → HasEnds v f over.now side.now meetings.old.items meetings.new.items) }
{
    add_point(meetings, &over.plan, &side.lower())?;
    add_point(meetings, &over.plan, &side.upper())?;
    Ok(())
}

// Whether a point is on a side that has a zone. Of most points that aren't, its box tells.
fn is_on_zoned(zoned: &ZonedSide, point: &Point) -> bool
    requires { (v : _) × (f : _) × IsZonedSide v f zoned.now }
    ensures { result ≡ is_on_segment zoned.now.side point.now }
{
    // The weight of a point is positive.
    point.laws();
    let parts = point.whole_parts();
    if zoned.bounds.excludes(parts, parts) {
        return false;
    }
    holds(&zoned.side, point)
}

// Whether both ends of a side are on another one.
fn is_over(over: &ZonedSide, side: &Segment) -> bool
    requires { (v : _) × (f : _) × IsZonedSide v f over.now }
    ensures { result ≡ is_over_side over.now side.now }
{
    is_on_zoned(over, &side.lower()) && is_on_zoned(over, &side.upper())
}

/// The place of one of the sides that have zones along which a side runs. `None` where it runs along none of them.
pub(crate) fn place_over(zones: &[ZonedSide], side: &Segment) -> Option<usize>
    requires { (v : _) × (f : _) × AreZonedSides v f zones.now }
    ensures { IfSome result (IsPlaceOver zones.now side.now) }
{
    'zones: for (place, over) in zones.iter().enumerate() {
        if is_over(over, side) {
            return Some(place);
        }
    }
    None
}

/// Where a point lies, by the zones of sides. `None` where the point is on none of them.
pub(crate) fn spot_told(zones: &[ZonedSide], point: &Point) -> Option<Spot>
    requires { (v : _) × (f : _) × AreZonedSides v f zones.now }
    ensures { (v : _) (f : _) → AreZonedSides v f zones.now → IsToldOf v f zones.now point.now result }
{
    point.laws();
    'zones: for zoned in zones {
        if is_on_zoned(zoned, point) {
            return Some(spot_on(&zoned.plan, point));
        }
    }
    None
}
