ghost use Rattle.std.specs.Prelude.{◌≡◌, ◌+◌};
ghost use Rattle.slab_laws.specs.FaceLists.{AreDartsOn, AreLists};
ghost use Rattle.slab_laws.specs.FacesSound.{IsSound};
ghost use Rattle.slab_laws.specs.Sound.{IsTwinned};
ghost use Rattle.slab_laws.specs.View.{HasVertex, HasDart, HasCycle, HasFace, face_id, source_in};
ghost use Rattle.dcel_records.specs.RecordsView.{tables_of, lists_of};
ghost use Rattle.dcel_records.specs.SoundMaps.{IsSoundMap};
ghost use Rattle.dcel_records.specs.Spots.{IsVertexAt};
ghost use Rattle.dcel_records.specs.declared.spot.Spot.TheVariants.{Edge};
ghost use Rattle.counted_looks.specs.CycleLooks.{IsCycleLookOf};
ghost use Rattle.counted_looks.specs.Looks.{IsLookable, IsLookOf, vertex_looks};

use crate::cycle_glimpse::CycleGlimpse;
use crate::glimpse::Glimpse;
use crate::name_calls::NameCalls;
use crate::vertices::look_at_vertices;
use dcel_records::{Records, Spot};
use exact_plane::{Line, Point};
use slab_laws::{CycleId, DartId, Darts, FaceId, FaceLists, Faced, VertexId};
use std::marker::Model;
use std::sync::ledger::Ledger;
use work_steps::Steps;

/// Records that tell where things lie only to a look that is counted; names they answer freely.
#[derive(Drop)]
pub struct Glance<'a> {
    records: &'a Records,
}

impl<'a> Model for Glance<'a> {
    ghost use Rattle.dcel_records.specs.RecordsView.{RecordsView};

    ghost Value = { RecordsView };

    ghost view = { λ g. g.records.now };
}

/// What one look tells: of a dart its two points and its line, of a vertex its point alone.
#[derive(Clone, Copy)]
pub struct Looked {
    pub source: Point,
    /// A vertex is its own target.
    pub target: Point,
    /// `None` exactly for a vertex.
    pub line: Option<Line>,
}

impl<'a> Glance<'a> {
    /// The records, to be looked at.
    #[inline(always)]
    pub fn of(records: &'a Records) -> Glance<'a>
        ensures { result ≡ records.now }
    {
        Glance { records }
    }

    /// What is true of all records: twins are twins, a dart leaves a vertex that has a record, the unbounded face is there,
    /// and each face lists its own; so the lists of a sound map are those that its faces have.
    pub fn laws(&self)
        ensures twinned { IsTwinned self.now.graph }
        ensures sources { (d : _) → HasDart self.now.graph d → HasVertex self.now.graph (source_in self.now.graph d) }
        ensures unbounded { HasFace (tables_of self.now) (face_id 0) }
        ensures lists { IsSoundMap self.now → AreLists self.now.graph (tables_of self.now) (lists_of self.now) }
    {
        self.records.laws();
        self.records.face_laws();
    }

    /// The vertex at a point. Where the records' map from points to vertices is whole, it is asked, which is one step; where it isn't,
    /// each vertex is looked at once, which is one step each (`Records::is_mapped`). It takes no memory.
    #[inline]
    pub fn vertex_at<L: Ledger>(&self, point: &Point, steps: &mut Steps<L>) -> Option<VertexId>
        ensures vertex { IsVertexAt self.now.graph point.now result }
        ensures looks { steps.new ≡ steps.old + vertex_looks self.now }
    {
        if self.records.is_mapped() {
            steps.tick();
            return self.records.vertex_at(point);
        }
        look_at_vertices(self.records, point, steps)
    }

    /// One look at a dart, which is one step; it tells what `look` does, each part where it is asked for.
    #[inline(always)]
    pub fn glimpse<L: Ledger>(&self, dart: DartId, steps: &mut Steps<L>) -> Glimpse<'a>
        requires { HasDart self.now.graph dart }
        ensures look { IsLookOf self.now.graph (Edge dart) result }
        ensures one { steps.new ≡ steps.old + 1 }
    {
        Glimpse::at(self.records, dart, steps)
    }

    /// One look at a cycle, which is one step: at the dart that is kept for it, and at a box of the whole cycle.
    #[inline(always)]
    pub fn glimpse_cycle<L: Ledger>(&self, cycle: CycleId, steps: &mut Steps<L>) -> CycleGlimpse<'a>
        requires sound { IsSound self.now.graph (tables_of self.now) }
        requires darts { AreDartsOn self.now.graph (tables_of self.now) (lists_of self.now) }
        requires cycle { HasCycle (tables_of self.now) cycle }
        ensures look { IsCycleLookOf self.now.graph (tables_of self.now) (lists_of self.now) cycle result }
        ensures one { steps.new ≡ steps.old + 1 }
    {
        let dart = FaceLists::dart_on(self.records, cycle);
        CycleGlimpse {
            dart,
            first: self.glimpse(dart, steps),
            area: self.records.area(cycle),
        }
    }

    /// One look, at a dart or a vertex, which is one step.
    pub fn look<L: Ledger>(&self, at: Spot, steps: &mut Steps<L>) -> Looked
        requires { IsLookable self.now.graph at }
        ensures look { IsLookOf self.now.graph at result }
        ensures one { steps.new ≡ steps.old + 1 }
    {
        match at {
            Spot::Edge(dart) => {
                let glimpse = self.glimpse(dart, steps);
                Looked {
                    source: glimpse.source(),
                    target: glimpse.target(),
                    line: Some(glimpse.line()),
                }
            }
            Spot::Vertex(vertex) => {
                steps.tick();
                let point = self.records.point(vertex);
                Looked {
                    source: point,
                    target: point,
                    line: None,
                }
            }
            Spot::Face(_) => unreachable!(),
        }
    }
}

impl<'a> NameCalls for Glance<'a> {
    ghost use Rattle.dcel_records.specs.RecordsView.{graph_of, tables_of, lists_of};

    ghost graph = { graph_of };

    ghost faces = { tables_of };

    ghost lists = { lists_of };

    fn source(&self, d: DartId) -> VertexId {
        Darts::source(self.records, d)
    }

    fn target(&self, d: DartId) -> VertexId {
        Darts::target(self.records, d)
    }

    fn twin(&self, d: DartId) -> DartId {
        Darts::twin(self.records, d)
    }

    fn next(&self, d: DartId) -> DartId {
        Darts::next(self.records, d)
    }

    fn out_of(&self, v: VertexId) -> Option<DartId> {
        Darts::out_of(self.records, v)
    }

    fn vertex_after(&self, v: Option<VertexId>) -> Option<VertexId> {
        Darts::vertex_after(self.records, v)
    }

    fn dart_after(&self, d: Option<DartId>) -> Option<DartId> {
        Darts::dart_after(self.records, d)
    }

    fn cycle(&self, d: DartId) -> CycleId {
        Faced::cycle(self.records, d)
    }

    fn face(&self, c: CycleId) -> FaceId {
        Faced::face(self.records, c)
    }

    fn bare_face(&self, v: VertexId) -> FaceId {
        Faced::bare_face(self.records, v)
    }

    fn cycle_after(&self, c: Option<CycleId>) -> Option<CycleId> {
        Faced::cycle_after(self.records, c)
    }

    fn face_after(&self, f: Option<FaceId>) -> Option<FaceId> {
        Faced::face_after(self.records, f)
    }

    fn first_cycle_of(&self, face: FaceId) -> Option<CycleId> {
        FaceLists::first_cycle_of(self.records, face)
    }

    fn cycle_after_in_face(&self, cycle: CycleId) -> Option<CycleId> {
        FaceLists::cycle_after_in_face(self.records, cycle)
    }

    fn dart_on(&self, cycle: CycleId) -> DartId {
        FaceLists::dart_on(self.records, cycle)
    }

    fn first_isolated_in(&self, face: FaceId) -> Option<VertexId> {
        FaceLists::first_isolated_in(self.records, face)
    }

    fn isolated_after_in_face(&self, v: VertexId) -> Option<VertexId> {
        FaceLists::isolated_after_in_face(self.records, v)
    }
}
