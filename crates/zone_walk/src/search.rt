//! The look at a face's boundary for meeting points.
ghost use Rattle.std.specs.Prelude.{◌≡◌, ◌⊎◌, ◌+◌, true, false, Some, IfSome, OnOk};
ghost use Rattle.std.specs.Bool.{OnTrue};
ghost use Rattle.std.specs.Map.{keys_of};
ghost use Rattle.plane_graphs.specs.Ascending.{Member};
ghost use Rattle.plane_graphs.specs.Line.{precedes};
ghost use Rattle.slab_laws.specs.Sound.{IsGraphSound};
ghost use Rattle.slab_laws.specs.View.{HasVertex, HasDart, point_in, source_in, target_in};
ghost use Rattle.counted_looks.specs.Looks.{IsLookOf};
ghost use Rattle.counted_looks.specs.declared.boundary_part.BoundaryPart.TheVariants.{Dart, Isolated};
ghost use Rattle.dcel_records.specs.declared.spot.Spot.TheVariants.{Edge};
ghost use Rattle.zone_walk.specs.FoundPoints.{entries_in};
ghost use Rattle.zone_walk.specs.Searches.{AreKept, IsOnEdge, IsThere, IsOneSearch, IsSearchFrom, IsPassed, IsVisitFrom, HasSeen, HasLooked, passes_here};

use crate::edge_points::{CommonPoints, is_ruled_out, points_on_edge};
use crate::found::FoundPoints;
use crate::plan::Meeting;
use crate::sight::Sight;
use crate::source::MeetingSource;
use counted_looks::{BoundaryPart, Glimpse, Looker, NameCalls};
use dcel_records::Spot;
use exact_plane::{BoundingBox, Line, Point, Segment, Span};
use no_memory::NoMemory;
use slab_laws::{CycleId, DartId, FaceId, VertexId};
use std::alloc::Global;
use std::collections::BTreeSet;
use std::sync::ledger::Ledger;
use work_steps::Steps;

/// A search for the meeting points of a segment after one of its points.
#[derive(Drop)]
pub(crate) struct Search {
    pub(crate) alloc: Global,
    pub(crate) segment: Segment,
    /// The same, with its line.
    pub(crate) whole: Span,
    /// Its box.
    pub(crate) bounds: BoundingBox,
    pub(crate) here: Point,
    /// Those that were found, each with the vertex or edge at which it is.
    pub(crate) found: FoundPoints,
    /// The names of the faces whose boundaries were looked at.
    pub(crate) visited: BTreeSet<usize>,
    /// Whether all later points on edges were found by a source. Then of a face's boundary only its isolated vertices are looked at.
    pub(crate) gathered: bool,
    /// Whether there was no memory for one that was found.
    pub(crate) failed: bool,
}

impl Search {
    // Keeps a point, where it comes later.
    fn take(&mut self, point: Point, spot: Spot)
        ensures same { IsOneSearch self.old self.new }
        ensures gathered { self.new.gathered ≡ self.old.gathered }
        ensures kept { AreKept (entries_in self.old.found) (entries_in self.new.found) }
        ensures taken { self.new.failed ≡ false → precedes self.old.here point ≡ true → Member point (keys_of (entries_in self.new.found)) }
        ensures only { (p : _) (at : _) → Member (p, at) (entries_in self.new.found) → Member (p, at) (entries_in self.old.found) ⊎ ((p ≡ point) × (at ≡ spot) × (precedes self.old.here p ≡ true)) }
    {
        if self.here < point {
            match self.found.insert(point, spot) {
                Ok(()) => {}
                Err(_) => self.failed = true,
            }
        }
    }
}

// Keeps those of some meeting points that come later.
fn take_all(search: &mut Search, meetings: &[Meeting])
    ensures same { IsOneSearch search.old search.new }
    ensures gathered { search.new.gathered ≡ search.old.gathered }
    ensures kept { AreKept (entries_in search.old.found) (entries_in search.new.found) }
    ensures taken { search.new.failed ≡ false → (m : _) → Member m meetings.now → precedes search.old.here m.point ≡ true → Member m.point (keys_of (entries_in search.new.found)) }
    ensures only { (p : _) (at : _) → Member (p, at) (entries_in search.new.found) → Member (p, at) (entries_in search.old.found) ⊎ (Member (record { point = p; spot = at }) meetings.now × (precedes search.old.here p ≡ true)) }
{
    'each: for meeting in meetings {
        search.take(meeting.point, meeting.spot);
    }
}

/// Finds all later meeting points on edges at once, where a source tells them.
///
/// # Errors
///
/// There was no memory for them.
pub(crate) fn gather<M: MeetingSource>(search: &mut Search, source: &M) -> Result<(), NoMemory>
    requires { (v : _) × M.knows source.now v }
    ensures { OnOk result ((v : _) (k : _) → M.knows source.now v → IsSearchFrom v k search.old → IsSearchFrom v k search.new) }
{
    let Some(meetings) = source.meetings(search.alloc, &search.segment)? else {
        return Ok(());
    };
    take_all(search, meetings.as_slice());
    if search.failed {
        return Err(NoMemory);
    }
    search.gathered = true;
    Ok(())
}

// The vertex at a point on the edge of a dart between two points, or the edge.
fn spot_on<T: Sight>(sight: &T, dart: DartId, source: &Point, target: &Point, point: &Point) -> Spot
    requires sound { IsGraphSound (T.graph sight.now) }
    requires dart { HasDart (T.graph sight.now) dart }
    requires source { source.now ≡ point_in (T.graph sight.now) (source_in (T.graph sight.now) dart) }
    requires target { target.now ≡ point_in (T.graph sight.now) (target_in (T.graph sight.now) dart) }
    ensures { IsOnEdge (T.graph sight.now) dart point.now → IsThere (T.graph sight.now) point.now result }
{
    if *point == *source {
        Spot::Vertex(sight.source(dart))
    } else if *point == *target {
        Spot::Vertex(sight.target(dart))
    } else if *source < *target {
        Spot::Edge(dart)
    } else {
        Spot::Edge(sight.twin(dart))
    }
}

// Keeps a point on the edge of a dart that was met, where there is one. It is inlined, since there is hardly ever a second one.
#[inline(always)]
fn take_on<T: Sight>(
    search: &mut Search,
    sight: &T,
    dart: DartId,
    common: &CommonPoints,
    point: Option<Point>,
)
    requires sound { IsGraphSound (T.graph sight.now) }
    requires dart { HasDart (T.graph sight.now) dart }
    requires source { common.now.source ≡ point_in (T.graph sight.now) (source_in (T.graph sight.now) dart) }
    requires target { common.now.target ≡ point_in (T.graph sight.now) (target_in (T.graph sight.now) dart) }
    requires on { IfSome point (IsOnEdge (T.graph sight.now) dart) }
    ensures same { IsOneSearch search.old search.new }
    ensures gathered { search.new.gathered ≡ search.old.gathered }
    ensures kept { AreKept (entries_in search.old.found) (entries_in search.new.found) }
    ensures taken { search.new.failed ≡ false → IfSome point (λ p. precedes search.old.here p ≡ true → Member p (keys_of (entries_in search.new.found))) }
    ensures only { (p : _) (at : _) → Member (p, at) (entries_in search.new.found) → Member (p, at) (entries_in search.old.found) ⊎ ((point ≡ Some p) × IsThere (T.graph sight.now) p at × (precedes search.old.here p ≡ true)) }
{
    if let Some(point) = point {
        let spot = spot_on(sight, dart, &common.source, &common.target, &point);
        search.take(point, spot);
    }
}

// Whether an edge's line passes through the point where the search stands, and isn't the segment's own: then the two lines have
// no other point in common, so no later one of the segment is on the edge. At a vertex two edges of a face are such.
fn passes_here(line: Line, search: &Search) -> bool
    ensures { result ≡ passes_here line search.now }
{
    line.holds(&search.here) && line != search.whole.line()
}

// Keeps the meeting points on the edge of a dart that was looked at, and its ends. It is a call, since few looks come to it, and
// all others would have to make room for its points.
#[inline(never)]
fn take_on_dart<T: Sight>(search: &mut Search, sight: &T, dart: DartId, looked: &Glimpse)
    requires ready { (k : _) × IsSearchFrom (T.graph sight.now) k search.old }
    requires dart { HasDart (T.graph sight.now) dart }
    requires looked { IsLookOf (T.graph sight.now) (Edge dart) looked.now }
    ensures ready { (k : _) → IsSearchFrom (T.graph sight.now) k search.old → IsSearchFrom (T.graph sight.now) k search.new }
    ensures seen { HasSeen (T.graph sight.now) search.new (Dart dart) }
    ensures still { (t : _) → HasSeen (T.graph sight.now) search.old t → HasSeen (T.graph sight.now) search.new t }
{
    if let Some(common) = points_on_edge(looked, &search.whole) {
        take_on(search, sight, dart, &common, Some(common.first));
        take_on(search, sight, dart, &common, common.last);
    }
}

// Looks at a vertex, and keeps it where the segment meets it.
fn look_at_vertex<T: Sight, L: Ledger>(
    search: &mut Search,
    sight: &T,
    vertex: VertexId,
    steps: &mut Steps<L>,
)
    requires ready { (k : _) × IsSearchFrom (T.graph sight.now) k search.old }
    requires vertex { HasVertex (T.graph sight.now) vertex }
    ensures ready { (k : _) → IsSearchFrom (T.graph sight.now) k search.old → IsSearchFrom (T.graph sight.now) k search.new }
    ensures seen { HasSeen (T.graph sight.now) search.new (Isolated vertex) }
    ensures still { (t : _) → HasSeen (T.graph sight.now) search.old t → HasSeen (T.graph sight.now) search.new t }
    ensures one { steps.new ≡ steps.old + 1 }
{
    if let Some(point) = sight.meet_at_vertex(vertex, &search.whole, steps) {
        search.take(point, Spot::Vertex(vertex));
    }
}

// Whether a dart's twin is on the boundary of the face too, and has the lesser name of the two. Then the look at the twin finds all
// that a look at the dart would find.
fn is_passed<T: Sight>(sight: &T, face: FaceId, dart: DartId) -> bool
    requires dart { HasDart (T.graph sight.now) dart }
    ensures { OnTrue result (IsPassed (T.graph sight.now) (T.faces sight.now) face dart) }
{
    let twin = sight.twin(dart);
    twin.0 < dart.0 && sight.face(sight.cycle(twin)).0 == face.0
}

// Whether it is plain that the segment leaves the edge of a dart behind: it came into the face by this edge, or, where it crossed none,
// the edge's line passes through where it stands. Where it crossed an edge it stands on no other one.
fn is_behind(entry: Option<DartId>, dart: DartId, line: Line, search: &Search) -> bool
    ensures { result ≡ true → (entry ≡ Some dart) ⊎ (passes_here line search.now ≡ true) }
{
    match entry {
        Some(entered) => entered == dart,
        None => passes_here(line, search),
    }
}

/// A search at the boundary of a face, the last one that it visited.
#[derive(Drop)]
pub(crate) struct Visit<'a, T: Sight> {
    pub(crate) sight: &'a T,
    pub(crate) face: FaceId,
    /// The dart by whose edge the segment came into the face, where it came by one.
    pub(crate) entry: Option<DartId>,
    pub(crate) search: Search,
}

impl<'a, T: Sight> Visit<'a, T> {
    // Goes on with a look at a dart that the segment's box doesn't rule out. It is a call, since what nearly all looks do is
    // inlined into the loop round a cycle.
    #[inline(never)]
    fn look_closely(&mut self, sight: &T, dart: DartId, looked: Glimpse)
        requires ready { (k : Visit T) × IsVisitFrom (T.graph sight.now) (T.graph self.old.sight.now) (T.faces k.sight.now) (T.faces self.old.sight.now) k.face self.old.face self.old.entry k.search self.old.search }
        requires dart { HasDart (T.graph sight.now) dart }
        requires looked { IsLookOf (T.graph sight.now) (Edge dart) looked }
        ensures ready { (k : Visit T) → IsVisitFrom (T.graph sight.now) (T.graph self.old.sight.now) (T.faces k.sight.now) (T.faces self.old.sight.now) k.face self.old.face self.old.entry k.search self.old.search → IsVisitFrom (T.graph sight.now) (T.graph self.new.sight.now) (T.faces k.sight.now) (T.faces self.new.sight.now) k.face self.new.face self.new.entry k.search self.new.search }
        ensures seen { HasLooked (T.graph sight.now) (T.faces self.new.sight.now) self.new.face self.new.search (Dart dart) }
        ensures still { (t : _) → HasLooked (T.graph sight.now) (T.faces self.old.sight.now) self.old.face self.old.search t → HasLooked (T.graph sight.now) (T.faces self.new.sight.now) self.new.face self.new.search t }
    {
        // The faces are known of the visit's own sight, which has the graph that is looked at.
        if is_passed(self.sight, self.face, dart) {
            return;
        }
        if is_behind(self.entry, dart, looked.line(), &self.search) {
            return;
        }
        if is_ruled_out(&looked, &self.search.whole) {
            return;
        }
        take_on_dart(&mut self.search, sight, dart, &looked);
    }

    // What a look at a dart told. Nearly all darts of a cycle that comes near the segment are beyond one side of its box.
    #[inline(always)]
    fn see(&mut self, sight: &T, dart: DartId, looked: Glimpse)
        requires ready { (k : Visit T) × IsVisitFrom (T.graph sight.now) (T.graph self.old.sight.now) (T.faces k.sight.now) (T.faces self.old.sight.now) k.face self.old.face self.old.entry k.search self.old.search }
        requires dart { HasDart (T.graph sight.now) dart }
        requires looked { IsLookOf (T.graph sight.now) (Edge dart) looked }
        ensures ready { (k : Visit T) → IsVisitFrom (T.graph sight.now) (T.graph self.old.sight.now) (T.faces k.sight.now) (T.faces self.old.sight.now) k.face self.old.face self.old.entry k.search self.old.search → IsVisitFrom (T.graph sight.now) (T.graph self.new.sight.now) (T.faces k.sight.now) (T.faces self.new.sight.now) k.face self.new.face self.new.entry k.search self.new.search }
        ensures seen { HasLooked (T.graph sight.now) (T.faces self.new.sight.now) self.new.face self.new.search (Dart dart) }
        ensures still { (t : _) → HasLooked (T.graph sight.now) (T.faces self.old.sight.now) self.old.face self.old.search t → HasLooked (T.graph sight.now) (T.faces self.new.sight.now) self.new.face self.new.search t }
    {
        if !looked.is_outside(&self.search.bounds) {
            self.look_closely(sight, dart, looked);
        }
    }
}

impl<'a, T: Sight> Looker<T> for Visit<'a, T> {
    ghost use Rattle.zone_walk.specs.Searches.{IsVisitFrom, HasLooked};

    ghost may_look = { λ v k l. IsVisitFrom v (T.graph l.sight.now) (T.faces k.sight.now) (T.faces l.sight.now) k.face l.face l.entry k.search l.search };

    ghost has_seen = { λ v l t. HasLooked v (T.faces l.sight.now) l.face l.search t };

    #[inline(always)]
    fn look<L: Ledger>(&mut self, sight: &T, at: BoundaryPart, steps: &mut Steps<L>) {
        match at {
            BoundaryPart::Dart(dart) => {
                let looked = sight.glimpse(dart, steps);
                self.see(sight, dart, looked);
            }
            BoundaryPart::Isolated(vertex) => {
                look_at_vertex(&mut self.search, sight, vertex, steps);
            }
        }
    }

    // A cycle whose box is beyond one side of the segment's has no dart that meets the segment.
    #[inline(always)]
    fn look_at_cycle<L: Ledger>(
        &mut self,
        sight: &T,
        cycle: CycleId,
        steps: &mut Steps<L>,
    ) -> bool {
        let looked = sight.glimpse_cycle(cycle, steps);
        if looked.is_outside(&self.search.bounds) {
            return true;
        }
        self.see(sight, looked.dart, looked.first);
        false
    }
}
