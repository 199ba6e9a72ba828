ghost use Rattle.std.specs.Prelude.{IfOk, OnOk};
ghost use Rattle.locate_trapezoid.specs.Graphs.{arena_of, AreStillNamed, IsHungBy, IsSplitBy};
ghost use Rattle.locate_trapezoid.specs.Nodes.{IsDepth, IsLeaf, IsTree};

use crate::descent::Descent;
use crate::graph::{Leaf, SearchGraph, hang};
use crate::node::Test;
use no_memory::NoMemory;
use slab_laws::{DartId, VertexId};

// A node for an end of an edge, unless it is left out, and where the way goes on.
fn hang_end(
    graph: &mut SearchGraph,
    leaf: Leaf,
    vertex: VertexId,
    is_out: bool,
    is_more: bool,
) -> Result<Leaf, NoMemory>
    requires tree { IsTree (arena_of graph.old) }
    requires depth { IsDepth (arena_of graph.old) graph.old.depth }
    requires leaf { IsLeaf (arena_of graph.old) leaf }
    ensures tree { OnOk result (IsTree (arena_of graph.new)) }
    ensures depth { OnOk result (IsDepth (arena_of graph.new) graph.new.depth) }
    ensures leaf { IfOk result (IsLeaf (arena_of graph.new)) }
    ensures hung { IfOk result (IsHungBy graph.old leaf vertex is_out is_more graph.new) }
{
    if is_out {
        return Ok(leaf);
    }
    let next = hang(graph, leaf, Test::Vertex(vertex), is_more)?;
    Ok(next)
}

/// A leaf is split by an edge: by its ends, where the way to the leaf hasn't passed them, and by itself.
///
/// # Errors
///
/// There was no memory. The graph is of no use any more.
pub fn split(
    graph: &mut SearchGraph,
    dart: DartId,
    lower: VertexId,
    upper: VertexId,
    descent: Descent,
) -> Result<(), NoMemory>
    requires tree { IsTree (arena_of graph.old) }
    requires depth { IsDepth (arena_of graph.old) graph.old.depth }
    requires leaf { IsLeaf (arena_of graph.old) descent.leaf }
    ensures tree { OnOk result (IsTree (arena_of graph.new)) }
    ensures depth { OnOk result (IsDepth (arena_of graph.new) graph.new.depth) }
    ensures split { OnOk result (IsSplitBy graph.old descent lower upper dart graph.new) }
    ensures named { OnOk result (AreStillNamed graph.old lower upper dart graph.new) }
{
    let below = hang_end(graph, descent.leaf, lower, descent.is_lowered, true)?;
    let above = hang_end(graph, below, upper, descent.bound.is_some(), false)?;
    hang(graph, above, Test::Edge(dart), true)?;
    Ok(())
}
