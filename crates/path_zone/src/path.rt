ghost use Rattle.std.specs.Prelude.{◌≡◌, ◌⊎◌, ◌≤◌, ◌+◌, ◌++◌, [], IfOk, OnOk};
ghost use Rattle.std.specs.List.{sum_by};
ghost use Rattle.exact_plane.specs.Point.{point_eq};
ghost use Rattle.exact_plane.specs.PointOrder.{point_cmp};
ghost use Rattle.plane_graphs.specs.Ascending.{Member, IsAscending};
ghost use Rattle.dcel_records.specs.RecordsView.{tables_of};
ghost use Rattle.dcel_records.specs.SoundMaps.{IsSoundMap};
ghost use Rattle.face_location.specs.Spots.{IsSpotOf};
ghost use Rattle.zone_walk.specs.Zone.{meeting_points, points_of_meetings, CoversVisits, IsZoneOf};
ghost use Rattle.path_zone.specs.Gathered.{HasMore, HasPoint};
ghost use Rattle.path_zone.specs.PathZone.{looks_along, AreStarts, CoverAllVisits, IsPathZone, IsWhereSidesMeet};
ghost use Rattle.path_zone.specs.Zoned.{vertices_zoned, AreZonedSides, HasSide, IsOnOne};

use crate::order::{BegunSide, in_sweep_order};
use crate::plan::PathPlan;
use crate::zoned::{ZonedSide, add_crossings, add_ends, place_over, spot_told};
use dcel_records::{Records, Spot};
use exact_plane::Segment;
use no_memory::NoMemory;
use std::alloc::Global;
use std::cmp::Ordering;
use std::sync::ledger::Ledger;
use work_steps::Steps;
use zone_walk::{Meeting, MeetingSource, NoSource, ZonePlan, zone_by};

// Where a side begins, by the zones of others, or else by its own start.
fn start_for(zones: &[ZonedSide], begun: &BegunSide) -> Spot
    requires { (v : _) × (f : _) × AreZonedSides v f zones.now }
    ensures { (v : _) (f : _) → AreZonedSides v f zones.now → IsSpotOf v f begun.now.side.lower begun.now.start ⊎ IsOnOne zones.now begun.now.side.lower → IsSpotOf v f begun.now.side.lower result }
{
    match spot_told(zones, &begun.side.lower()) {
        Some(spot) => spot,
        None => begun.start,
    }
}

// The zone of a side, from where it begins.
fn zone_of<M: MeetingSource, L: Ledger>(
    alloc: Global,
    records: &Records,
    source: &M,
    zones: &[ZonedSide],
    begun: &BegunSide,
    steps: &mut Steps<L>,
) -> Result<ZonePlan, NoMemory>
    requires map { IsSoundMap records.now }
    requires source { M.knows source.now records.now.graph }
    requires zones { AreZonedSides records.now.graph (tables_of records.now) zones.now }
    requires start { IsSpotOf records.now.graph (tables_of records.now) begun.now.side.lower begun.now.start ⊎ IsOnOne zones.now begun.now.side.lower }
    ensures zone { IfOk result (IsZoneOf records.now.graph (tables_of records.now) begun.now.side) }
    ensures looks { (n : _) → CoversVisits records.now.graph (tables_of records.now) begun.now.side (meeting_points records.now.graph begun.now.side) n → steps.new ≤ steps.old + (n + looks_along records.now.graph begun.now.side) }
{
    // Each face lists its own cycles and isolated vertices.
    records.face_laws();
    zone_by(
        alloc,
        records,
        &begun.side,
        start_for(zones, begun),
        source,
        steps,
    )
}

// Adds what is found along one more side. One that runs along a side with a zone gets none of its own.
fn add_side<M: MeetingSource, L: Ledger>(
    alloc: Global,
    zones: &mut Vec<ZonedSide>,
    meetings: &mut Vec<Meeting>,
    records: &Records,
    source: &M,
    begun: &BegunSide,
    steps: &mut Steps<L>,
) -> Result<(), NoMemory>
    requires map { IsSoundMap records.now }
    requires source { M.knows source.now records.now.graph }
    requires zones { AreZonedSides records.now.graph (tables_of records.now) zones.old.items }
    requires start { IsSpotOf records.now.graph (tables_of records.now) begun.now.side.lower begun.now.start ⊎ IsOnOne zones.old.items begun.now.side.lower }
    ensures side { OnOk result (HasSide records.now.graph (tables_of records.now) begun.now.side zones.old.items meetings.old.items zones.new.items meetings.new.items) }
    ensures looks { (n : _) → CoversVisits records.now.graph (tables_of records.now) begun.now.side (meeting_points records.now.graph begun.now.side) n → steps.new ≤ steps.old + (n + looks_along records.now.graph begun.now.side) }
{
    if let Some(place) = place_over(&*zones, &begun.side) {
        add_ends(meetings, &zones[place], &begun.side)?;
        return Ok(());
    }
    let plan = zone_of(alloc, records, source, &*zones, begun, steps)?;
    let zoned = ZonedSide::new(&begun.side, plan);
    add_crossings(meetings, &zoned, &*zones)?;
    zones.push(zoned)?;
    Ok(())
}

// Adds the meetings that zones have.
fn add_vertices(meetings: &mut Vec<Meeting>, zones: &[ZonedSide]) -> Result<(), NoMemory>
    ensures { OnOk result (meetings.new.items ≡ meetings.old.items ++ vertices_zoned zones.now) }
{
    'zones: for zoned in zones {
        meetings.extend_from_slice(zoned.plan.vertices.as_slice())?;
    }
    Ok(())
}

// The meetings of the sides with the graph and with one another, some of them several times.
fn all_meetings<M: MeetingSource, L: Ledger>(
    alloc: Global,
    records: &Records,
    sides: &[Segment],
    starts: &[Spot],
    source: &M,
    steps: &mut Steps<L>,
) -> Result<Vec<Meeting>, NoMemory>
    requires map { IsSoundMap records.now }
    requires source { M.knows source.now records.now.graph }
    requires starts { AreStarts records.now.graph (tables_of records.now) sides.now starts.now }
    ensures more { IfOk result (λ ms. HasMore records.now.graph (tables_of records.now) sides.now [] ms.items) }
    ensures each { IfOk result (λ ms. (s : _) (x : _) → Member s sides.now → Member x (meeting_points records.now.graph s) → HasPoint ms.items x) }
    ensures own { IfOk result (λ ms. (x : _) → IsWhereSidesMeet sides.now x → HasPoint ms.items x) }
    ensures looks { (n : _) → CoverAllVisits records.now.graph (tables_of records.now) sides.now n → steps.new ≤ steps.old + (n + sum_by (looks_along records.now.graph) sides.now) }
{
    let begun = in_sweep_order(alloc, sides, starts)?;
    let mut zones = Vec::with_capacity(alloc, begun.len())?;
    let mut meetings = Vec::new(alloc);
    'sides: for one in &begun {
        add_side(
            alloc,
            &mut zones,
            &mut meetings,
            records,
            source,
            one,
            steps,
        )?;
    }
    add_vertices(&mut meetings, &zones)?;
    Ok(meetings)
}

fn point_order(first: &Meeting, second: &Meeting) -> Ordering
    ensures { result ≡ point_cmp first.now.point second.now.point }
{
    first.point.cmp(&second.point)
}

fn share_point(first: &Meeting, second: &Meeting) -> bool
    ensures { result ≡ point_eq first.now.point second.now.point }
{
    first.point == second.point
}

// The meetings, ascending, and each point once; which of those at one point stays makes no difference.
fn in_order(meetings: &mut Vec<Meeting>)
    ensures ascend { IsAscending point_cmp (points_of_meetings meetings.new.items) }
    ensures from { (m : _) → Member m meetings.new.items → Member m meetings.old.items }
    ensures points { (x : _) → HasPoint meetings.old.items x → HasPoint meetings.new.items x }
{
    meetings.sort_unstable_by(|first, second| point_order(first, second));
    meetings.dedup_by(|next, last| share_point(next, last));
}

/// The zone of a path, as [`path_zone`] tells it, with a source of meeting points beside, which is asked as for the zone of a segment
/// ([`zone_by`](zone_walk::zone_by)).
///
/// # Errors
///
/// There was no memory for the plan.
pub fn path_zone_by<M: MeetingSource, L: Ledger>(
    alloc: Global,
    records: &Records,
    sides: &[Segment],
    starts: &[Spot],
    source: &M,
    steps: &mut Steps<L>,
) -> Result<PathPlan, NoMemory>
    requires map { IsSoundMap records.now }
    requires source { M.knows source.now records.now.graph }
    requires starts { AreStarts records.now.graph (tables_of records.now) sides.now starts.now }
    ensures zone { IfOk result (IsPathZone records.now.graph (tables_of records.now) sides.now) }
    ensures looks { (n : _) → CoverAllVisits records.now.graph (tables_of records.now) sides.now n → steps.new ≤ steps.old + (n + sum_by (looks_along records.now.graph) sides.now) }
{
    let mut meetings = all_meetings(alloc, records, sides, starts, source, steps)?;
    in_order(&mut meetings);
    Ok(PathPlan { meetings })
}

/// The zone of a path: the points where its sides meet the graph or one another, ascending and each once, with their spots before
/// the insertion. It changes nothing.
///
/// `starts` are the spots of the sides' lower ends, with the name of the face where one is inside a face; where a side begins on
/// another one behind that one's lower end ([`is_begun`](crate::is_begun)), any spot. `steps` counts the looks, which are those of the
/// sides' zones; where sides cross one another nothing is looked at, nor along a side that runs along another one.
///
/// # Errors
///
/// There was no memory for the plan.
pub fn path_zone<L: Ledger>(
    alloc: Global,
    records: &Records,
    sides: &[Segment],
    starts: &[Spot],
    steps: &mut Steps<L>,
) -> Result<PathPlan, NoMemory>
    requires map { IsSoundMap records.now }
    requires starts { AreStarts records.now.graph (tables_of records.now) sides.now starts.now }
    ensures zone { IfOk result (IsPathZone records.now.graph (tables_of records.now) sides.now) }
    ensures looks { (n : _) → CoverAllVisits records.now.graph (tables_of records.now) sides.now n → steps.new ≤ steps.old + (n + sum_by (looks_along records.now.graph) sides.now) }
{
    path_zone_by(alloc, records, sides, starts, &NoSource, steps)
}
