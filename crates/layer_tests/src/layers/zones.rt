// What a zone meets, and its looks. Counters can't be read, so a test shows by what the clause on looks bounds them: the boundary of each
// visited face, the degrees of the vertices that are met, and the edges that are met.

ghost use Rattle.std.specs.Prelude.{◌≡◌, ◌<◌};
ghost use Rattle.arrangement.specs.Arranged.{arranged, IsWatched};
ghost use Rattle.dcel_records.specs.RecordsView.{tables_of};
ghost use Rattle.dcel_records.specs.SoundMaps.{IsSoundMap};
ghost use Rattle.face_location.specs.Spots.{IsSpotOf};

use crate::layers::edits::{Under, at, layer_under};
use crate::layers::looks::{darts_beside, draw, draw_state};
use crate::shapes::{Ends, segment};
use arrangement::Arrangement;
use dcel_records::{Records, Spot};
use exact_plane::Segment;
use locate_naive::locate;
use no_memory::NoMemory;
use slab_laws::{DartId, FaceId, FaceLists};
use std::alloc::Global;
use std::marker::Brand;
use std::sync::ledger::{Blank, Ledger};
use std::test::Fail;
use work_steps::Steps;
use zone_walk::{Meeting, ZonePlan, zone};

// The zone, with a counter of the test's own.
fn zone_counted<L: Ledger>(
    blank: Blank,
    alloc: Global,
    records: &Records,
    segment: &Segment,
    start: Spot,
) -> Result<ZonePlan, NoMemory>
    requires name { blank.name ≡ L.name }
    requires parts { blank.parts ≡ L.parts }
    requires some { 0 < L.parts }
    requires map { IsSoundMap records.now }
    requires start { IsSpotOf records.now.graph (tables_of records.now) segment.now.lower start }
{
    // Each face lists its own cycles and isolated vertices.
    records.face_laws();
    let mut steps = Steps::<L>::new(blank);
    zone(alloc, records, segment, start, &mut steps)
}

// Whether a zone meets nothing from end to end: there are just the segment's ends and the part between, all at one spot.
fn is_all_at(plan: &ZonePlan, spot: Spot) -> bool {
    let meetings = plan.vertices.as_slice();
    meetings.len() == 2
        && meetings.iter().all(|meeting| meeting.spot == spot)
        && plan.between.as_slice() == [spot].as_slice()
        && plan.overlapped.as_slice().is_empty()
}

// The face in which the segment's zone is started and stays; none where there is no such face.
fn face_of_zone(alloc: Global, records: &Records, ends: Ends) -> Result<Option<FaceId>, Fail>
    requires { IsSoundMap records.now }
{
    let segment = segment(ends)?;
    let start = locate(records, &segment.lower());
    let plan = zone_counted::<Brand>(Blank::new(1), alloc, records, &segment, start)?;
    match start {
        Spot::Face(face) if is_all_at(&plan, start) => Ok(Some(face)),
        _ => Ok(None),
    }
}

// The square's face has four darts on its boundary, so the zone takes at most four steps. The unbounded face has eight, and that of the
// rectangle with the fence 604.
fn is_zone_short(alloc: Global, layer: &mut Arrangement) -> Result<bool, Fail>
    requires watched { IsWatched (arranged Observer-dyn layer.old) }
{
    let is_state = draw_state(layer)?;
    let records = layer.records();
    match face_of_zone(alloc, records, (-1, -1, 1, 1))? {
        Some(face) => Ok(is_state && darts_beside(records, face, face) == 4),
        None => Ok(false),
    }
}

// Whether nothing is on the boundary of the unbounded face.
fn is_plane_bare(records: &Records) -> bool {
    records.face_laws();
    records.first_cycle_of(FaceId(0)).is_none() && records.first_isolated_in(FaceId(0)).is_none()
}

// In four directions, and the longest one.
const SEGMENTS: [Ends; 5] = [
    (-1, -1, 1, 1),
    (0, 5, 0, -3),
    (4, 0, 9, 0),
    (-2, 7, 3, -8),
    (-16777215, -16777215, 16777215, 16777215),
];

// The unbounded face has no dart and no isolated vertex on its boundary, so no zone takes a step.
fn are_zones_free(alloc: Global, records: &Records) -> Result<bool, Fail>
    requires { IsSoundMap records.now }
{
    for ends in &SEGMENTS {
        if face_of_zone(alloc, records, *ends)? != Some(FaceId(0)) {
            return Ok(false);
        }
    }
    Ok(is_plane_bare(records))
}

// One segment lies along a part of the other, so the abscissa has three edges.
fn draw_overlapping(layer: &mut Arrangement) -> Result<(), Fail>
    requires watched { IsWatched (arranged Observer-dyn layer.old) }
    ensures watched { IsWatched (arranged Observer-dyn layer.new) }
{
    draw(layer, (2, 0, 4, 0))?;
    draw(layer, (0, 0, 6, 0))
}

// Whether the meetings are at these places of the abscissa.
fn are_met_at(meetings: &[Meeting], wanted: [i128; 4]) -> Result<bool, Fail> {
    let [first, second, third, last] = wanted;
    let points = [at(first, 0)?, at(second, 0)?, at(third, 0)?, at(last, 0)?];
    Ok(
        meetings.len() == 4
            && meetings
                .iter()
                .zip(points.iter())
                .all(|(meeting, point)| meeting.point == *point),
    )
}

// Whether the dart goes from one place of the abscissa to another.
fn is_dart_between(records: &Records, dart: DartId, from: i128, to: i128) -> Result<bool, Fail> {
    let ends = (
        records.vertex_at(&at(from, 0)?),
        records.vertex_at(&at(to, 0)?),
    );
    match (records.ends_of(dart), ends) {
        (Some(found), (Some(from), Some(to))) => Ok(found == (from, to)),
        _ => Ok(false),
    }
}

const EDGES: [(i128, i128); 3] = [(0, 2), (2, 4), (4, 6)];

// Whether the darts are those of the three edges, each from its lower end.
fn are_edges(records: &Records, darts: &[DartId]) -> Result<bool, Fail> {
    for (dart, (from, to)) in darts.iter().zip(EDGES.iter()) {
        if !is_dart_between(records, *dart, *from, *to)? {
            return Ok(false);
        }
    }
    Ok(darts.len() == EDGES.len())
}

// The zone begins and ends inside edges, and passes two vertices.
fn is_overlap_told(alloc: Global, layer: &mut Arrangement) -> Result<bool, Fail>
    requires watched { IsWatched (arranged Observer-dyn layer.old) }
{
    draw_overlapping(layer)?;
    let records = layer.records();
    let segment = segment((1, 0, 5, 0))?;
    let start = locate(records, &segment.lower());
    let plan = zone_counted::<Brand>(Blank::new(1), alloc, records, &segment, start)?;
    Ok(
        are_met_at(plan.vertices.as_slice(), [1, 2, 4, 5])?
            && are_edges(records, plan.overlapped.as_slice())?,
    )
}

#[test]
fn a_zone_tells_the_edges_that_it_overlaps(rt: HostRuntime) -> Result<(), Fail> {
    let mut layer = layer_under(rt.alloc(), Under::Script)?;
    let told = is_overlap_told(rt.alloc(), &mut layer);
    drop(layer);
    assert!(rt; told?);
    Ok(())
}

#[test]
fn a_zone_passes_by_what_is_far_away(rt: HostRuntime) -> Result<(), Fail> {
    let mut layer = layer_under(rt.alloc(), Under::Script)?;
    let short = is_zone_short(rt.alloc(), &mut layer);
    drop(layer);
    assert!(rt; short?);
    Ok(())
}

#[test]
fn a_zone_on_empty_records_looks_at_nothing(rt: HostRuntime) -> Result<(), Fail> {
    let layer = layer_under(rt.alloc(), Under::Script)?;
    let free = are_zones_free(rt.alloc(), layer.records());
    drop(layer);
    assert!(rt; free?);
    Ok(())
}
