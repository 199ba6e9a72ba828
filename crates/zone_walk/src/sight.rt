ghost use Rattle.std.specs.Prelude.{◌≡◌, ◌+◌};
ghost use Rattle.exact_plane.specs.Direction.{direction_of};
ghost use Rattle.exact_plane.specs.Segment.{line_of_segment};
ghost use Rattle.rotation_order.specs.Place.{IsPlaceOf};
ghost use Rattle.slab_laws.specs.FaceLists.{AreDartsOn};
ghost use Rattle.slab_laws.specs.FacesSound.{IsSound};
ghost use Rattle.slab_laws.specs.Sound.{IsGraphSound};
ghost use Rattle.slab_laws.specs.View.{HasVertex, HasDart, HasCycle};
ghost use Rattle.counted_looks.specs.CycleLooks.{IsCycleLookOf};
ghost use Rattle.counted_looks.specs.Looks.{IsLookable, IsLookOf};
ghost use Rattle.dcel_records.specs.declared.spot.Spot.TheVariants.{Edge};
ghost use Rattle.zone_walk.specs.Sights.{IsSeenOf, IsVertexMet, degree};

use counted_looks::{CycleGlimpse, Glimpse, NameCalls};
use dcel_records::Spot;
use exact_plane::{Direction, Meet, Point, Segment, Sign, Span};
use rotation_order::Place;
use slab_laws::{CycleId, DartId, VertexId};
use std::sync::ledger::Ledger;
use work_steps::Steps;

/// What one look tells of a dart or a vertex and a segment.
#[derive(Clone, Copy)]
pub struct Seen {
    /// What the segment has in common with the dart's edge and its ends, or with the vertex.
    pub meet: Meet,
    /// On which side of the dart the segment's upper end is; `Zero` for a vertex.
    pub side: Sign,
    pub source: Point,
    /// A vertex is its own target.
    pub target: Point,
}

/// A graph with faces that answers names freely, and tells where things lie to counted looks alone.
pub trait Sight: NameCalls {
    /// One look at a dart or a vertex, which is one step.
    fn see<L: Ledger>(&self, at: Spot, segment: &Segment, steps: &mut Steps<L>) -> Seen
        requires sound { IsGraphSound (Self.graph self.now) }
        requires at { IsLookable (Self.graph self.now) at }
        ensures seen { IsSeenOf (Self.graph self.now) segment.now at result }
        ensures one { steps.new ≡ steps.old + 1 };

    /// One look at a dart, which is one step; it tells the dart's points and line, each where it is asked for.
    fn glimpse<L: Ledger>(&self, dart: DartId, steps: &mut Steps<L>) -> Glimpse<'_>
        requires { HasDart (Self.graph self.now) dart }
        ensures look { IsLookOf (Self.graph self.now) (Edge dart) result }
        ensures one { steps.new ≡ steps.old + 1 };

    /// One look at a cycle, which is one step: at the dart that is kept for it, and at a box of the whole cycle.
    fn glimpse_cycle<L: Ledger>(&self, cycle: CycleId, steps: &mut Steps<L>) -> CycleGlimpse<'_>
        requires sound { IsSound (Self.graph self.now) (Self.faces self.now) }
        requires darts { AreDartsOn (Self.graph self.now) (Self.faces self.now) (Self.lists self.now) }
        requires cycle { HasCycle (Self.faces self.now) cycle }
        ensures look { IsCycleLookOf (Self.graph self.now) (Self.faces self.now) (Self.lists self.now) cycle result }
        ensures one { steps.new ≡ steps.old + 1 };

    /// One look at a vertex for whether a segment, given as a span, has its point; it is one step. The point, or `None` where
    /// the segment doesn't have it.
    fn meet_at_vertex<L: Ledger>(
        &self,
        vertex: VertexId,
        whole: &Span,
        steps: &mut Steps<L>,
    ) -> Option<Point>
        requires { HasVertex (Self.graph self.now) vertex }
        ensures met { IsVertexMet (Self.graph self.now) whole.now vertex result }
        ensures one { steps.new ≡ steps.old + 1 };

    /// The place round a vertex of a direction. It takes a step for each dart out of the vertex.
    fn turn_to<L: Ledger>(
        &self,
        vertex: VertexId,
        direction: Direction,
        steps: &mut Steps<L>,
    ) -> Place
        requires sound { IsGraphSound (Self.graph self.now) }
        requires vertex { HasVertex (Self.graph self.now) vertex }
        ensures place { IsPlaceOf (Self.graph self.now) vertex direction result }
        ensures count { steps.new ≡ steps.old + degree (Self.graph self.now) vertex };

    /// The place round a vertex of the direction towards the segment's upper end. It takes a step for each dart out of the
    /// vertex. It makes the segment's line; `turn_to` is for who has it.
    fn turn<L: Ledger>(&self, vertex: VertexId, segment: &Segment, steps: &mut Steps<L>) -> Place
        requires sound { IsGraphSound (Self.graph self.now) }
        requires vertex { HasVertex (Self.graph self.now) vertex }
        ensures place { IsPlaceOf (Self.graph self.now) vertex (direction_of (line_of_segment segment.now)) result }
        ensures count { steps.new ≡ steps.old + degree (Self.graph self.now) vertex };
}
