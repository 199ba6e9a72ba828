ghost use Rattle.std.specs.Prelude.{◌≡◌, ◌+◌, ◌≤◌, None, is_some, length, OnOk, OnErr};
ghost use Rattle.std.specs.Option.{option_map};
ghost use Rattle.dcel_records.specs.RecordsView.{tables_of};
ghost use Rattle.dcel_records.specs.SoundMaps.{IsSoundMap};
ghost use Rattle.face_location.specs.Below.{IsSeenOrNone};
ghost use Rattle.face_location.specs.Spots.{IsSpotOf};
ghost use Rattle.slab_laws.specs.Sound.{IsGraphSound};
ghost use Rattle.slab_laws.specs.View.{HasFace};
ghost use Rattle.walk_laws.specs.Walks.{face_above};
ghost use Rattle.locate_trapezoid.specs.Graphs.{IsSearchGraphOf};
ghost use Rattle.locate_trapezoid.specs.Built.{depth_of, is_at, IsBuiltFor};

use crate::arrival::{Arrival, arrive};
use crate::building::graph_of;
use crate::graph::SearchGraph;
use crate::node::Test;
use counted_looks::{Glance, NameCalls};
use dcel_records::{Records, Spot};
use exact_plane::Point;
use no_memory::NoMemory;
use slab_laws::{DartId, FaceId};
use std::alloc::Global;
use std::marker::Model;
use std::sync::ledger::Ledger;
use work_steps::Steps;

/// The trapezoidal map of records, which finds where a point lies by a search graph; or none, until it is built (CGAL manual,
/// `Arr_trapezoid_ric_point_location`).
#[derive(Drop)]
pub struct Trapezoids {
    graph: Option<SearchGraph>,
}

impl Model for Trapezoids {
    ghost use Rattle.std.specs.Prelude.{Option};
    ghost use Rattle.locate_trapezoid.specs.declared.graph.SearchGraph.{SearchGraph};

    ghost Value = { Option SearchGraph };

    ghost view = { λ t. t.graph };
}

// What a node asks for, as the place of a point that is there.
fn spot_of(test: Test) -> Spot
    ensures { result ≡ is_at test }
{
    match test {
        Test::Vertex(vertex) => Spot::Vertex(vertex),
        Test::Edge(dart) => Spot::Edge(dart),
    }
}

// The face over an edge; with none, the unbounded one, whose name is the first.
fn face_over(glance: &Glance, below: Option<DartId>) -> FaceId
    requires map { IsSoundMap glance.now }
    requires below { (q : _) × IsSeenOrNone glance.now.graph q below }
    ensures face { result ≡ face_above (tables_of glance.now) below }
    ensures has { HasFace (tables_of glance.now) result }
{
    // This tells that the first face is there.
    glance.laws();
    match below {
        Some(dart) => glance.face(glance.cycle(dart)),
        None => FaceId(0),
    }
}

// Where a point lies, by the way of the point through the graph.
fn locate_in<L: Ledger>(
    graph: &SearchGraph,
    glance: &Glance,
    point: &Point,
    steps: &mut Steps<L>,
) -> Spot
    requires map { IsSoundMap glance.now }
    requires graph { IsSearchGraphOf glance.now.graph graph.now }
    ensures spot { IsSpotOf glance.now.graph (tables_of glance.now) point.now result }
    ensures looks { steps.new ≤ steps.old + graph.now.depth }
{
    point.laws();
    match arrive(graph.nodes(), glance, point, steps) {
        Arrival::Met(test) => spot_of(test),
        Arrival::Open(_, below) => Spot::Face(face_over(glance, below)),
    }
}

impl Trapezoids {
    /// One that isn't built. It takes no memory.
    pub fn new() -> Trapezoids
        ensures { result ≡ None }
    {
        Trapezoids { graph: None }
    }

    /// Whether it is built.
    pub fn is_built(&self) -> bool
        ensures { result ≡ is_some self.now }
    {
        self.graph.is_some()
    }

    /// How many nodes are on the longest way through the search graph, which is the most looks that a question takes. `None` where
    /// it isn't built.
    pub fn depth(&self) -> Option<usize>
        ensures { result ≡ option_map (λ g. g.depth) self.now }
    {
        match &self.graph {
            Some(graph) => Some(graph.depth),
            None => None,
        }
    }

    /// How many nodes the search graph has. `None` where it isn't built.
    pub fn node_count(&self) -> Option<usize>
        ensures { result ≡ option_map (λ g. length g.nodes.items) self.now }
    {
        match &self.graph {
            Some(graph) => Some(graph.nodes.len()),
            None => None,
        }
    }

    /// Builds it for these records, whatever it was before.
    ///
    /// All edges, and all vertices without edges, are put into the search graph one after another, in a scattered order, so that
    /// no row of neighbours makes a way as long as the row. The order comes of where they all are, so that none is known before
    /// they are there. A graph that becomes larger or deeper than nearly all orders make one of so many edges is given up, and begun
    /// anew in another order, a few times at most.
    ///
    /// # Errors
    ///
    /// There was no memory. It isn't built then.
    pub fn build(&mut self, alloc: Global, records: &Records) -> Result<(), NoMemory>
        requires { IsGraphSound records.now.graph }
        ensures built { OnOk result (IsBuiltFor records.now.graph self.new) }
        ensures forgotten { OnErr result (self.new ≡ None) }
    {
        self.graph = None;
        let graph = graph_of(alloc, records)?;
        self.graph = Some(graph);
        Ok(())
    }

    /// Forgets the search graph, as after each change of the records.
    pub fn forget(&mut self)
        ensures { self.new ≡ None }
    {
        self.graph = None;
    }

    /// Where a point lies: the vertex at it, else the edge that has it inside, else the face that it lies in (CGAL manual,
    /// `Arr_trapezoid_ric_point_location`).
    ///
    /// The point goes from the root down to a leaf, by one look at each node. Where a node asks for what is at the point, that is
    /// the answer. Else the point is in the face over the last edge that it was above, which is the highest below it, or in the
    /// unbounded face, where it was above none. It takes no memory.
    pub fn locate<L: Ledger>(&self, glance: &Glance, point: &Point, steps: &mut Steps<L>) -> Spot
        requires map { IsSoundMap glance.now }
        requires built { IsBuiltFor glance.now.graph self.now }
        ensures spot { IsSpotOf glance.now.graph (tables_of glance.now) point.now result }
        ensures looks { steps.new ≤ steps.old + depth_of self.now }
    {
        match &self.graph {
            Some(graph) => locate_in(graph, glance, point, steps),
            None => unreachable!(),
        }
    }
}
