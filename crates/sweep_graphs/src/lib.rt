//! The graph of pieces and pins, by one plane sweep over them.
//!
//! The sweep comes to the vertices in their order; between two that follow each other on a piece is a stretch of it, and a stretch
//! runs along one edge. Of each vertex it tells, too, the stretch directly below (Fogel, Halperin and Wein: a sweep that builds an
//! arrangement). Sorted, the stretches are the edges with their curves, and the edge below each vertex is found by one search. That
//! this is the graph of a fit present, and that the edge below is the highest of those below, are laws: their contracts state them,
//! and their bodies, being empty, compute nothing.
#![tactic(auto)]

mod below;
mod edges;
mod trace;

ghost use Rattle.sweep_graphs.specs.TraceLaws.{EdgesBelowAreHighest, TracesAreGraphs};

pub use below::edges_below;
pub use edges::{EdgeEnds, edges_along, stretches_by_edges};
pub use trace::{OpenStretch, Stretch, Trace, trace_of};

/// What a sweep leaves of a fit present is the present's graph, with what is directly below each vertex.
pub fn traces_are_graphs()
    ensures { TracesAreGraphs }
{}

/// The edge that is told below a vertex is the highest of those directly below it.
pub fn edges_below_are_highest()
    ensures { EdgesBelowAreHighest }
{}
