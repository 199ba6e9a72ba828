ghost use Rattle.std.specs.Prelude.{◌≡◌, ◌<◌, OnOk};
ghost use Rattle.slab_laws.specs.View.{HasVertex};
ghost use Rattle.slab_laws.specs.Sound.{IsGraphSound};
ghost use Rattle.arr_notes.specs.Curves.{IsForward};
ghost use Rattle.locate_trapezoid.specs.declared.node.Test.TheVariants.{Vertex, Edge};
ghost use Rattle.locate_trapezoid.specs.Counted.{IsTest};
ghost use Rattle.locate_trapezoid.specs.Graphs.{IsPutIn, IsWellMade};

use crate::arrival::{Arrival, arrive};
use crate::descent::{descend, rest};
use crate::graph::{SearchGraph, hang};
use crate::node::Test;
use crate::split::split;
use counted_looks::Glance;
use dcel_records::Records;
use no_memory::NoMemory;
use slab_laws::{DartId, Darts, VertexId};
use sound_views::span_of;
use std::marker::Brand;
use std::sync::ledger::{Blank, Ledger};
use work_steps::Steps;

// One more edge, by its dart from the lower to the upper end: from its lower end on, each leaf that it passes is split by it. The
// way to each leaf begins at the root, at the point where the edge left the leaf before: so no list of places is kept.
fn put_edge(graph: &mut SearchGraph, records: &Records, dart: DartId) -> Result<(), NoMemory>
    requires sound { IsGraphSound records.now.graph }
    requires made { IsWellMade records.now.graph graph.old }
    requires dart { IsForward records.now.graph dart }
    ensures made { OnOk result (IsWellMade records.now.graph graph.new) }
    ensures edge { OnOk result (IsPutIn records.now.graph (Edge dart) graph.old graph.new) }
{
    let span = span_of(records, dart);
    let lower = records.source(dart);
    let upper = records.target(dart);
    let end = span.upper();
    let mut next = Some(span.lower());
    'parts: while let Some(from) = next {
        let descent = descend(graph.nodes(), records, &span, &from);
        let bound = descent.bound;
        split(graph, dart, lower, upper, descent)?;
        next = rest(bound, &end);
    }
    Ok(())
}

// One more vertex, with a node of its own at the leaf to which it comes, unless it is in the map as the end of an edge.
fn put_vertex<L: Ledger>(
    blank: Blank,
    graph: &mut SearchGraph,
    records: &Records,
    vertex: VertexId,
) -> Result<(), NoMemory>
    requires name { blank.name ≡ L.name }
    requires parts { blank.parts ≡ L.parts }
    requires some { 0 < L.parts }
    requires sound { IsGraphSound records.now.graph }
    requires made { IsWellMade records.now.graph graph.old }
    requires vertex { HasVertex records.now.graph vertex }
    ensures made { OnOk result (IsWellMade records.now.graph graph.new) }
    ensures vertex { OnOk result (IsPutIn records.now.graph (Vertex vertex) graph.old graph.new) }
{
    let mut steps = Steps::<L>::new(blank);
    let point = records.point(vertex);
    match arrive(graph.nodes(), &Glance::of(records), &point, &mut steps) {
        Arrival::Met(_) => Ok(()),
        Arrival::Open(leaf, _) => {
            hang(graph, leaf, Test::Vertex(vertex), true)?;
            Ok(())
        }
    }
}

/// One more edge or vertex.
///
/// # Errors
///
/// There was no memory. The graph is of no use any more.
pub fn put(graph: &mut SearchGraph, records: &Records, test: Test) -> Result<(), NoMemory>
    requires sound { IsGraphSound records.now.graph }
    requires made { IsWellMade records.now.graph graph.old }
    requires test { IsTest records.now.graph test }
    ensures made { OnOk result (IsWellMade records.now.graph graph.new) }
    ensures put { OnOk result (IsPutIn records.now.graph test graph.old graph.new) }
{
    match test {
        Test::Edge(dart) => put_edge(graph, records, dart),
        Test::Vertex(vertex) => put_vertex::<Brand>(Blank::new(1), graph, records, vertex),
    }
}
