ghost use Rattle.std.specs.Prelude.{◌≡◌, ◌≤◌, ◌+◌, ◌*◌, ◌++◌, ◌∷◌, [], true, false, length, Some, IfOk, OnOk};
ghost use Rattle.std.specs.List.{sum_by};
ghost use Rattle.exact_plane.specs.Line.{side_of};
ghost use Rattle.exact_plane.specs.Segment.{Segment as Ends, AreEnds};
ghost use Rattle.exact_plane.specs.Sign.{sign_of};
ghost use Rattle.exact_plane.specs.Span.{span_of_segment, IsSpan};
ghost use Rattle.exact_plane.specs.WholeParts.{bounding_box};
ghost use Rattle.plane_graphs.specs.Line.{precedes};
ghost use Rattle.slab_laws.specs.FaceLists.{AreLists};
ghost use Rattle.slab_laws.specs.FacesSound.{IsSound};
ghost use Rattle.slab_laws.specs.View.{HasVertex, HasDart, HasFace, point_in};
ghost use Rattle.counted_looks.specs.Boundaries.{boundary_size, IsOnBoundary};
ghost use Rattle.dcel_records.specs.declared.spot.Spot.TheVariants.{Edge as OnEdge, Face as InFace};
ghost use Rattle.dcel_records.specs.Spots.{IsMet, met_of};
ghost use Rattle.face_location.specs.Spots.{IsSpotOf};
ghost use Rattle.zone_walk.specs.FoundPoints.{entries_in};
ghost use Rattle.zone_walk.specs.Searches.{IsBehind, IsPartTaken, IsSearchFrom, IsVisitFrom, HasLooked};
ghost use Rattle.zone_walk.specs.Walk.{IsPartAhead, IsSpotStretch, IsSearchAt, IsVisitAt, IsNextOf, stop_looks, has_visited};
ghost use Rattle.zone_walk.specs.Zone.{is_on_segment, meeting_points, vertices_needed, edges_needed, edges_met, degree_at, dart_of_spot, CoversVisits, IsSpotBetween, IsNextMeeting, IsZoneOf};

use crate::found::FoundPoints;
use crate::plan::{Meeting, ZonePlan};
use crate::records_sight::whole;
use crate::search::{Search, Visit, gather};
use crate::sight::Sight;
use crate::source::{MeetingSource, NoSource};
use counted_looks::{Glimpse, NameCalls, look_at_boundary, look_at_isolated};
use dcel_records::{Room, Spot};
use exact_plane::{BoundingBox, Direction, Point, Segment, Sign, Span, side};
use no_memory::NoMemory;
use rotation_order::Place;
use slab_laws::{DartId, FaceId, Sequence, VertexId};
use std::alloc::Global;
use std::collections::BTreeSet;
use std::sync::ledger::Ledger;
use work_steps::Steps;

// What follows a vertex on the segment, which is given as a span too: the edge that leaves towards the segment's upper end, with its upper end, or the face at
// the place of this direction round the vertex.
fn ahead_of_vertex<T: Sight, L: Ledger>(
    sight: &T,
    segment: &Segment,
    whole: &Span,
    vertex: VertexId,
    steps: &mut Steps<L>,
) -> (Spot, Point)
    requires sound { IsSound (T.graph sight.now) (T.faces sight.now) }
    requires whole { whole.now ≡ span_of_segment segment.now }
    requires vertex { HasVertex (T.graph sight.now) vertex }
    requires on { is_on_segment segment.now (point_in (T.graph sight.now) vertex) ≡ true }
    requires before { precedes (point_in (T.graph sight.now) vertex) segment.now.upper ≡ true }
    ensures part { IsPartAhead (T.graph sight.now) (T.faces sight.now) segment.now (point_in (T.graph sight.now) vertex) result.0 result.1 }
    ensures count { steps.new ≤ steps.old + stop_looks (T.graph sight.now) segment.now (point_in (T.graph sight.now) vertex) }
{
    // The ends of a segment are two points, in order.
    let lower = segment.lower();
    match sight.turn_to(vertex, Direction::along(&whole.line()), steps) {
        Place::Along(dart) => {
            let looked = sight.glimpse(dart, steps);
            (Spot::Edge(dart), looked.target())
        }
        Place::Between(dart, _) => {
            let face = sight.face(sight.cycle(sight.twin(dart)));
            (Spot::Face(face), lower)
        }
        Place::Bare => (Spot::Face(sight.bare_face(vertex)), lower),
    }
}

// The side of the line that a look told on which the segment's upper end is.
fn side_of_end(looked: &Glimpse, segment: &Segment) -> Sign
    ensures { (l : _) → looked.now.line ≡ Some l → result ≡ sign_of (side_of l segment.now.upper) }
{
    side(&looked.line(), &segment.upper())
}

// What follows a point inside an edge on the segment: the edge, where it is along the segment, or the face on the side of it on
// which the segment's upper end is, with the dart of the edge on this side. The edge's line runs as its forward dart does.
fn ahead_of_edge<T: Sight, L: Ledger>(
    sight: &T,
    segment: &Segment,
    here: &Point,
    dart: DartId,
    steps: &mut Steps<L>,
) -> (Spot, Point, Option<DartId>)
    requires sound { IsSound (T.graph sight.now) (T.faces sight.now) }
    requires met { IsMet (T.graph sight.now) here.now (met_of (OnEdge dart)) }
    requires on { is_on_segment segment.now here.now ≡ true }
    requires before { precedes here.now segment.now.upper ≡ true }
    ensures part { IsPartAhead (T.graph sight.now) (T.faces sight.now) segment.now here.now result.0 result.1 }
    ensures entry { IsBehind (T.graph sight.now) segment.now here.now result.2 }
    ensures count { steps.new ≤ steps.old + stop_looks (T.graph sight.now) segment.now here.now }
{
    let lower = segment.lower();
    here.laws();
    let looked = sight.glimpse(dart, steps);
    match side_of_end(&looked, segment) {
        Sign::Plus => {
            let face = sight.face(sight.cycle(dart));
            (Spot::Face(face), lower, Some(dart))
        }
        Sign::Minus => {
            let twin = sight.twin(dart);
            let face = sight.face(sight.cycle(twin));
            (Spot::Face(face), lower, Some(twin))
        }
        Sign::Zero => (Spot::Edge(dart), looked.target(), None),
    }
}

// What follows a meeting point on the segment, which is given as a span too, and where it is a face, the dart by whose edge the
// segment comes into it from inside the edge.
fn part_ahead<T: Sight, L: Ledger>(
    sight: &T,
    segment: &Segment,
    whole: &Span,
    here: &Meeting,
    steps: &mut Steps<L>,
) -> (Spot, Point, Option<DartId>)
    requires sound { IsSound (T.graph sight.now) (T.faces sight.now) }
    requires whole { whole.now ≡ span_of_segment segment.now }
    requires spot { IsSpotOf (T.graph sight.now) (T.faces sight.now) here.now.point here.now.spot }
    requires on { is_on_segment segment.now here.now.point ≡ true }
    requires before { precedes here.now.point segment.now.upper ≡ true }
    ensures part { IsPartAhead (T.graph sight.now) (T.faces sight.now) segment.now here.now.point result.0 result.1 }
    ensures entry { IsBehind (T.graph sight.now) segment.now here.now.point result.2 }
    ensures count { steps.new ≤ steps.old + stop_looks (T.graph sight.now) segment.now here.now.point }
{
    match here.spot {
        Spot::Vertex(vertex) => {
            let (part, end) = ahead_of_vertex(sight, segment, whole, vertex, steps);
            (part, end, None)
        }
        Spot::Edge(dart) => ahead_of_edge(sight, segment, &here.point, dart, steps),
        Spot::Face(face) => {
            here.point.laws();
            (Spot::Face(face), segment.lower(), None)
        }
    }
}

// Whether a face has so many cycles. It tells of time alone.
fn has_many_cycles<T: Sight>(sight: &T, face: FaceId, many: usize) -> bool
    requires sound { IsSound (T.graph sight.now) (T.faces sight.now) }
    requires lists { AreLists (T.graph sight.now) (T.faces sight.now) (T.lists sight.now) }
    requires face { HasFace (T.faces sight.now) face }
{
    let mut at = sight.first_cycle_of(face);
    'cycles: for _ in 0..many {
        let Some(cycle) = at else {
            return false;
        };
        at = sight.cycle_after_in_face(cycle);
    }
    true
}

// Finds all later meeting points on edges at once, where the face has many cycles and a source tells them, unless that was done.
fn gather_at<T: Sight, M: MeetingSource>(
    search: &mut Search,
    sight: &T,
    source: &M,
    face: FaceId,
) -> Result<(), NoMemory>
    requires sound { IsSound (T.graph sight.now) (T.faces sight.now) }
    requires lists { AreLists (T.graph sight.now) (T.faces sight.now) (T.lists sight.now) }
    requires source { (v : _) × M.knows source.now v }
    requires face { HasFace (T.faces sight.now) face }
    ensures { OnOk result ((v : _) (k : _) → M.knows source.now v → IsSearchFrom v k search.old → IsSearchFrom v k search.new) }
{
    if search.gathered {
        return Ok(());
    }
    if !has_many_cycles(sight, face, source.pays_from()) {
        return Ok(());
    }
    gather(search, source)
}

// Looks at those parts of a face's boundary of which nothing is known: at all of them, or, where a source told the meeting points on
// edges, at the isolated vertices.
fn look_at_face<T: Sight, M: MeetingSource, L: Ledger>(
    looker: &mut Visit<'_, T>,
    sight: &T,
    source: &M,
    face: FaceId,
    steps: &mut Steps<L>,
) -> Result<(), NoMemory>
    requires sound { IsSound (T.graph sight.now) (T.faces sight.now) }
    requires lists { AreLists (T.graph sight.now) (T.faces sight.now) (T.lists sight.now) }
    requires source { M.knows source.now (T.graph sight.now) }
    requires face { HasFace (T.faces sight.now) face }
    requires ready { (k : Visit T) × IsVisitFrom (T.graph sight.now) (T.graph looker.old.sight.now) (T.faces k.sight.now) (T.faces looker.old.sight.now) k.face looker.old.face looker.old.entry k.search looker.old.search }
    ensures ready { OnOk result ((k : Visit T) → IsVisitFrom (T.graph sight.now) (T.graph looker.old.sight.now) (T.faces k.sight.now) (T.faces looker.old.sight.now) k.face looker.old.face looker.old.entry k.search looker.old.search → IsVisitFrom (T.graph sight.now) (T.graph looker.new.sight.now) (T.faces k.sight.now) (T.faces looker.new.sight.now) k.face looker.new.face looker.new.entry k.search looker.new.search) }
    ensures seen { OnOk result ((t : _) → IsOnBoundary (T.graph sight.now) (T.faces sight.now) face t → HasLooked (T.graph sight.now) (T.faces looker.new.sight.now) looker.new.face looker.new.search t) }
    ensures count { steps.new ≤ steps.old + boundary_size (T.graph sight.now) (T.faces sight.now) face }
{
    gather_at(&mut looker.search, sight, source, face)?;
    if looker.search.gathered {
        look_at_isolated(looker, sight, face, steps);
        return Ok(());
    }
    look_at_boundary(looker, sight, face, steps);
    Ok(())
}

// Looks at a face's boundary, unless it was looked at. `entry` is the dart by whose edge the segment came into the face, if any.
fn visit<T: Sight, M: MeetingSource, L: Ledger>(
    looker: &mut Visit<'_, T>,
    sight: &T,
    source: &M,
    face: FaceId,
    entry: Option<DartId>,
    steps: &mut Steps<L>,
) -> Result<(), NoMemory>
    requires sound { IsSound (T.graph sight.now) (T.faces sight.now) }
    requires lists { AreLists (T.graph sight.now) (T.faces sight.now) (T.lists sight.now) }
    requires source { M.knows source.now (T.graph sight.now) }
    requires face { HasFace (T.faces sight.now) face }
    requires search { IsVisitAt (T.graph sight.now) (T.faces sight.now) (T.graph looker.old.sight.now) (T.faces looker.old.sight.now) looker.old.search.segment looker.old.search.here looker.old.search }
    requires entry { IsBehind (T.graph sight.now) looker.old.search.segment looker.old.search.here entry }
    ensures search { OnOk result (IsVisitAt (T.graph sight.now) (T.faces sight.now) (T.graph looker.new.sight.now) (T.faces looker.new.sight.now) looker.old.search.segment looker.old.search.here looker.new.search) }
    ensures visited { OnOk result (has_visited looker.new.search face ≡ true) }
    ensures count { steps.new ≤ steps.old + boundary_size (T.graph sight.now) (T.faces sight.now) face }
{
    let is_first = looker.search.visited.insert(face.0)?;
    if !is_first {
        return Ok(());
    }
    looker.face = face;
    looker.entry = entry;
    look_at_face(looker, sight, source, face, steps)?;
    if looker.search.failed {
        return Err(NoMemory);
    }
    Ok(())
}

// The next meeting point along an edge: the edge's end, or the segment's, whichever comes first.
fn next_along<T: Sight>(search: &mut Search, sight: &T, dart: DartId, end: Point) -> Meeting
    requires sound { IsSound (T.graph sight.now) (T.faces sight.now) }
    requires search { IsSearchAt (T.graph sight.now) (T.faces sight.now) search.old.segment search.old.here search.old }
    requires part { IsPartAhead (T.graph sight.now) (T.faces sight.now) search.old.segment search.old.here (OnEdge dart) end }
    requires on { is_on_segment search.old.segment search.old.here ≡ true }
    requires before { precedes search.old.here search.old.segment.upper ≡ true }
    ensures { IsNextOf (T.graph sight.now) (T.faces sight.now) search.old.segment search.old.here (OnEdge dart) result search.new }
{
    let upper = search.segment.upper();
    let next = if upper < end {
        Meeting {
            point: upper,
            spot: Spot::Edge(dart),
        }
    } else {
        Meeting {
            point: end,
            spot: Spot::Vertex(sight.target(dart)),
        }
    };
    search.found.remove(&next.point);
    search.here = next.point;
    next
}

// The next meeting point through a face: the first that was found on the boundary, or the segment's upper end in the face.
fn next_inside<T: Sight>(search: &mut Search, sight: &T, face: FaceId) -> Meeting
    requires sound { IsSound (T.graph sight.now) (T.faces sight.now) }
    requires search { IsSearchAt (T.graph sight.now) (T.faces sight.now) search.old.segment search.old.here search.old }
    requires visited { has_visited search.old face ≡ true }
    requires part { IsPartAhead (T.graph sight.now) (T.faces sight.now) search.old.segment search.old.here (InFace face) search.old.segment.lower }
    requires on { is_on_segment search.old.segment search.old.here ≡ true }
    requires before { precedes search.old.here search.old.segment.upper ≡ true }
    ensures { IsNextOf (T.graph sight.now) (T.faces sight.now) search.old.segment search.old.here (InFace face) result search.new }
{
    search.here.laws();
    let next = match search.found.pop_first() {
        Some(first) => first,
        None => Meeting {
            point: search.segment.upper(),
            spot: Spot::Face(face),
        },
    };
    search.here = next.point;
    next
}

// From a meeting point to the next one: the spot of the part between, and that point.
fn onward<T: Sight, M: MeetingSource, L: Ledger>(
    looker: &mut Visit<'_, T>,
    sight: &T,
    source: &M,
    here: &Meeting,
    steps: &mut Steps<L>,
) -> Result<(Spot, Point, Spot), NoMemory>
    requires sound { IsSound (T.graph sight.now) (T.faces sight.now) }
    requires lists { AreLists (T.graph sight.now) (T.faces sight.now) (T.lists sight.now) }
    requires source { M.knows source.now (T.graph sight.now) }
    requires search { IsVisitAt (T.graph sight.now) (T.faces sight.now) (T.graph looker.old.sight.now) (T.faces looker.old.sight.now) looker.old.search.segment looker.old.search.here looker.old.search }
    requires here { looker.old.search.here ≡ here.now.point }
    requires spot { IsSpotOf (T.graph sight.now) (T.faces sight.now) here.now.point here.now.spot }
    requires on { is_on_segment looker.old.search.segment here.now.point ≡ true }
    requires before { precedes here.now.point looker.old.search.segment.upper ≡ true }
    ensures next { IfOk result (λ r. IsNextOf (T.graph sight.now) (T.faces sight.now) looker.old.search.segment here.now.point r.0 (record { point = r.1; spot = r.2 }) looker.new.search) }
    ensures graph { OnOk result (T.graph looker.new.sight.now ≡ T.graph sight.now) }
    ensures faces { OnOk result (T.faces looker.new.sight.now ≡ T.faces sight.now) }
    ensures looks { (n : _) → ((q : _) (a : _) → IsNextMeeting (T.graph sight.now) looker.old.search.segment here.now.point q → IsSpotBetween (T.graph sight.now) (T.faces sight.now) looker.old.search.segment here.now.point q (InFace a) → boundary_size (T.graph sight.now) (T.faces sight.now) a ≤ n) → steps.new ≤ steps.old + (stop_looks (T.graph sight.now) looker.old.search.segment here.now.point + n) }
{
    here.point.laws();
    let (part, end, entry) = part_ahead(
        sight,
        &looker.search.segment,
        &looker.search.whole,
        here,
        steps,
    );
    match part {
        Spot::Edge(dart) => {
            let next = next_along(&mut looker.search, sight, dart, end);
            Ok((part, next.point, next.spot))
        }
        Spot::Face(face) => {
            visit(looker, sight, source, face, entry, steps)?;
            let next = next_inside(&mut looker.search, sight, face);
            Ok((part, next.point, next.spot))
        }
        Spot::Vertex(_) => unreachable!(),
    }
}

// Appends an open part and the meeting point at its end to the plan, but for the room.
fn extend(plan: &mut ZonePlan, part: Spot, next: Meeting) -> Result<(), NoMemory>
    ensures vertices { OnOk result (plan.new.vertices ≡ plan.old.vertices ++ (next ∷ [])) }
    ensures between { OnOk result (plan.new.between ≡ plan.old.between ++ (part ∷ [])) }
    ensures overlapped { OnOk result (plan.new.overlapped ≡ plan.old.overlapped ++ dart_of_spot part) }
{
    if let Spot::Edge(dart) = part {
        plan.overlapped.push(dart)?;
    }
    plan.between.push(part)?;
    plan.vertices.push(next)?;
    Ok(())
}

// The room in which the steps of the insertion fit: each new edge may part a cycle, and a face.
fn room_for(plan: &ZonePlan) -> Room
    ensures vertices { result.vertices ≡ vertices_needed plan.now.vertices }
    ensures edges { result.edges ≡ edges_needed plan.now.vertices plan.now.between }
    ensures cycles { result.cycles ≡ length plan.now.between }
    ensures faces { result.faces ≡ length plan.now.between }
{
    let vertices = plan.vertices.as_slice();
    let new_vertices = vertices
        .iter()
        .filter(|meeting| !matches!(meeting.spot, Spot::Vertex(_)))
        .count();
    let splits = vertices
        .iter()
        .filter(|meeting| matches!(meeting.spot, Spot::Edge(_)))
        .count();
    Room {
        vertices: new_vertices,
        edges: splits + plan.between.as_slice().len(),
        cycles: plan.between.as_slice().len(),
        faces: plan.between.as_slice().len(),
    }
}

// A search at the lower end of a segment, which has found and visited nothing.
fn begin(alloc: Global, segment: &Segment) -> Search
    ensures segment { result.segment ≡ segment.now }
    ensures here { result.here ≡ segment.now.lower }
    ensures found { entries_in result.found ≡ [] }
    ensures visited { result.visited.keys ≡ [] }
    ensures gathered { result.gathered ≡ false }
    ensures ends { AreEnds segment.now }
    ensures whole { IsSpan (span_of_segment segment.now) × (result.whole ≡ span_of_segment segment.now) }
    ensures bounds { result.bounds ≡ bounding_box result.whole }
{
    let lower = segment.lower();
    let whole = whole(segment);
    whole.laws();
    Search {
        alloc,
        segment: *segment,
        whole,
        bounds: BoundingBox::of(&whole),
        here: lower,
        found: FoundPoints::new(alloc),
        visited: BTreeSet::new(alloc),
        gathered: false,
        failed: false,
    }
}

/// The zone of a segment in a graph, as [`zone`] tells it, with a source of meeting points beside: where a face has many cycles, the
/// source is asked once for all meeting points on edges, and from then on of faces only the isolated vertices are looked at. No other look is
/// taken than [`zone`] would take.
///
/// # Errors
///
/// There was no memory for the plan.
pub fn zone_by<T: Sight, M: MeetingSource, L: Ledger>(
    alloc: Global,
    sight: &T,
    segment: &Segment,
    start: Spot,
    source: &M,
    steps: &mut Steps<L>,
) -> Result<ZonePlan, NoMemory>
    requires sound { IsSound (T.graph sight.now) (T.faces sight.now) }
    requires lists { AreLists (T.graph sight.now) (T.faces sight.now) (T.lists sight.now) }
    requires source { M.knows source.now (T.graph sight.now) }
    requires start { IsSpotOf (T.graph sight.now) (T.faces sight.now) segment.now.lower start }
    ensures zone { IfOk result (IsZoneOf (T.graph sight.now) (T.faces sight.now) segment.now) }
    ensures looks { (n : _) → CoversVisits (T.graph sight.now) (T.faces sight.now) segment.now (meeting_points (T.graph sight.now) segment.now) n →
        steps.new ≤ steps.old + (n + (sum_by (degree_at (T.graph sight.now)) (meeting_points (T.graph sight.now) segment.now) + 2 * edges_met (T.graph sight.now) segment.now)) }
{
    let upper = segment.upper();
    let mut point = segment.lower();
    let mut spot = start;
    // The face and the dart by which it is entered come with the first visit.
    let mut looker = Visit {
        sight,
        face: FaceId(0),
        entry: None,
        search: begin(alloc, segment),
    };
    let mut plan = ZonePlan {
        vertices: Sequence::new(alloc),
        between: Sequence::new(alloc),
        overlapped: Sequence::new(alloc),
        room: Room {
            vertices: 0,
            edges: 0,
            cycles: 0,
            faces: 0,
        },
    };
    plan.vertices.push(Meeting { point, spot })?;
    'walk: while point < upper {
        let here = Meeting { point, spot };
        let (part, next_point, next_spot) = onward(&mut looker, sight, source, &here, steps)?;
        point = next_point;
        spot = next_spot;
        extend(&mut plan, part, Meeting { point, spot })?;
    }
    plan.room = room_for(&plan);
    Ok(plan)
}

/// The zone of a segment in a graph, from the spot of its lower end: the meeting points in order and the open parts between them,
/// each with its spot, the edges that are overlapped, and the room that the steps of the insertion need (Fogel, Halperin and
/// Wein, the zone of a curve).
///
/// It looks once at the boundary of each face that the segment visits, once at each dart out of a vertex that it meets, and at
/// edges that it passes or goes along. No other look is taken, whether there is memory or not.
///
/// # Errors
///
/// There was no memory for the plan.
pub fn zone<T: Sight, L: Ledger>(
    alloc: Global,
    sight: &T,
    segment: &Segment,
    start: Spot,
    steps: &mut Steps<L>,
) -> Result<ZonePlan, NoMemory>
    requires sound { IsSound (T.graph sight.now) (T.faces sight.now) }
    requires lists { AreLists (T.graph sight.now) (T.faces sight.now) (T.lists sight.now) }
    requires start { IsSpotOf (T.graph sight.now) (T.faces sight.now) segment.now.lower start }
    ensures zone { IfOk result (IsZoneOf (T.graph sight.now) (T.faces sight.now) segment.now) }
    ensures looks { (n : _) → CoversVisits (T.graph sight.now) (T.faces sight.now) segment.now (meeting_points (T.graph sight.now) segment.now) n →
        steps.new ≤ steps.old + (n + (sum_by (degree_at (T.graph sight.now)) (meeting_points (T.graph sight.now) segment.now) + 2 * edges_met (T.graph sight.now) segment.now)) }
{
    zone_by(alloc, sight, segment, start, &NoSource, steps)
}
