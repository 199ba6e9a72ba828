ghost use Rattle.std.specs.Prelude.{◌≡◌, ◌<◌, ◌==◌, ◌||◌, not, length, true, false, IfOk};
ghost use Rattle.std.specs.List.{list_any};
ghost use Rattle.exact_plane.specs.Segment.{AreEnds};
ghost use Rattle.dcel_records.specs.RecordsView.{tables_of};
ghost use Rattle.dcel_records.specs.SoundMaps.{IsSoundMap};
ghost use Rattle.face_location.specs.Spots.{IsSpotOf};
ghost use Rattle.told_steps.specs.RecordLayers.{IsLayer};
ghost use Rattle.zone_walk.specs.Zone.{IsZoneOf};
ghost use Rattle.arrangement.specs.Arranged.{arranged};
ghost use Rattle.arrangement.specs.Zones.{is_met, IsZoneIn, MeetsNone, MeetsSome};

use crate::arrangement::Arrangement;
use crate::spots::spot_at;
use curve_history::History;
use dcel_records::{Records, Spot};
use exact_plane::Segment;
use no_memory::NoMemory;
use piece_zone::PieceSource;
use slab_laws::{DartId, Sequence};
use std::alloc::Global;
use std::marker::Brand;
use std::sync::ledger::{Blank, Ledger};
use work_steps::Steps;
use zone_walk::{Meeting, ZonePlan, zone_by};

/// What a segment meets of an arrangement, from its lower to its upper end (Fogel, Halperin and Wein, the zone of a curve).
#[derive(Drop)]
pub struct Zone {
    /// The segment's two ends, the vertices on it, and the points where it passes through an edge: ascending, each point once, with the
    /// vertex, the edge or the face that it lies in.
    pub meetings: Sequence<Meeting>,
    /// Between each two neighbours the face that the segment passes, or the edge that it runs along.
    pub between: Sequence<Spot>,
}

// The zone with a counter of its own.
fn zone_counted<L: Ledger>(
    blank: Blank,
    alloc: Global,
    records: &Records,
    history: &History,
    segment: &Segment,
    start: Spot,
) -> Result<ZonePlan, NoMemory>
    requires name { blank.name ≡ L.name }
    requires parts { blank.parts ≡ L.parts }
    requires some { 0 < L.parts }
    requires map { IsSoundMap records.now }
    requires layer { IsLayer records.now.graph history.now }
    requires start { IsSpotOf records.now.graph (tables_of records.now) segment.now.lower start }
    ensures { IfOk result (IsZoneOf records.now.graph (tables_of records.now) segment.now) }
{
    // Each face lists its own cycles and isolated vertices.
    records.face_laws();
    let mut steps = Steps::<L>::new(blank);
    let pieces = PieceSource { records, history };
    zone_by(alloc, records, segment, start, &pieces, &mut steps)
}

// The zone of a segment in the records, from where its lower end lies.
fn zone_in(
    alloc: Global,
    records: &Records,
    history: &History,
    segment: &Segment,
) -> Result<ZonePlan, NoMemory>
    requires map { IsSoundMap records.now }
    requires layer { IsLayer records.now.graph history.now }
    ensures zone { IfOk result (IsZoneOf records.now.graph (tables_of records.now) segment.now) }
    ensures ends { AreEnds segment.now }
{
    let start = spot_at(records, history, &segment.lower());
    zone_counted::<Brand>(Blank::new(1), alloc, records, history, segment, start)
}

// Whether the spot is at a vertex or on an edge.
fn is_met(spot: Spot) -> bool
    ensures { result ≡ is_met spot }
{
    match spot {
        Spot::Vertex(_) | Spot::Edge(_) => true,
        Spot::Face(_) => false,
    }
}

// Whether there is an edge among them.
fn has_edges(overlapped: &Sequence<DartId>) -> bool
    ensures { result ≡ not (length overlapped.now == 0) }
{
    !overlapped.as_slice().is_empty()
}

// Whether one of the points is at a vertex or on an edge.
fn has_met(meetings: &[Meeting]) -> bool
    ensures { result ≡ list_any (λ m. is_met m.spot) meetings.now }
{
    meetings.iter().any(|meeting| is_met(meeting.spot))
}

// Whether a plan has a vertex or an edge that was there.
fn meets_any(plan: &ZonePlan) -> bool
    ensures { result ≡ (not (length plan.now.overlapped == 0) || list_any (λ m. is_met m.spot) plan.now.vertices) }
{
    has_edges(&plan.overlapped) || has_met(plan.vertices.as_slice())
}

impl Arrangement {
    /// What a segment would meet, in order from its lower to its upper end: the vertices on it, the edges that it crosses or runs along, and
    /// the faces that it passes. Nothing is inserted (CGAL manual, `zone`).
    ///
    /// It looks at what an insertion of the segment looks at: once at the boundary of each face that the segment passes, and once round
    /// each vertex on it.
    ///
    /// # Errors
    ///
    /// There was no memory for the lists or for what the walk keeps.
    pub fn zone(&self, segment: &Segment) -> Result<Zone, NoMemory>
        ensures { IfOk result (IsZoneIn (arranged Observer-dyn self.now) segment.now) }
    {
        let plan = zone_in(
            self.alloc,
            &self.layer.records,
            &self.layer.history,
            segment,
        )?;
        Ok(Zone {
            meetings: plan.vertices,
            between: plan.between,
        })
    }

    /// Whether a segment has a point in common with the arrangement, its own ends included: a vertex, pinned points among them, or a point of
    /// an edge (CGAL manual, `do_intersect`).
    ///
    /// It looks at what [`zone`](Arrangement::zone) looks at.
    ///
    /// # Errors
    ///
    /// There was no memory for what the walk keeps.
    pub fn meets(&self, segment: &Segment) -> Result<bool, NoMemory>
        ensures some { IfOk result (λ b. b ≡ true → MeetsSome (arranged Observer-dyn self.now) segment.now) }
        ensures none { IfOk result (λ b. b ≡ false → MeetsNone (arranged Observer-dyn self.now) segment.now) }
    {
        let plan = zone_in(
            self.alloc,
            &self.layer.records,
            &self.layer.history,
            segment,
        )?;
        Ok(meets_any(&plan))
    }
}
