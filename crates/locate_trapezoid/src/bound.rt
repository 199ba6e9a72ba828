ghost use Rattle.std.specs.Prelude.{◌≡◌};
ghost use Rattle.locate_trapezoid.specs.Bounds.{is_within};

use crate::graph::SearchGraph;

// A search graph of n edges has in the mean of all orders at most some 2.8 n log n nodes, whatever the map: a later edge passes the wall of
// an end where no edge between them came before that end. Maps of many kinds had 0.2 to 2.2 n for each binary digit of n. So at most
// every second order passes this, and in those maps hardly one.
const NODES_FACTOR: usize = 6;

// In those maps the longest way had 1.5 to 5.2 nodes for each digit.
const DEPTH_FACTOR: usize = 15;

/// How large a search graph may become, before it is given up for one in another order (CGAL, `Trapezoidal_decomposition_2`: a map
/// that is too large or too deep is built anew).
#[derive(Clone, Copy)]
pub struct Bound {
    pub nodes: usize,
    pub depth: usize,
}

impl Bound {
    /// That of so many edges and vertices.
    pub fn of(count: usize) -> Bound {
        let digits = (count.max(1).ilog2() + 1) as usize;
        Bound {
            nodes: count.saturating_mul(NODES_FACTOR * digits),
            depth: DEPTH_FACTOR * digits,
        }
    }
}

/// Whether a search graph is within a bound, where there is one.
pub fn is_within(graph: &SearchGraph, bound: Option<Bound>) -> bool
    ensures { result ≡ is_within graph.now bound }
{
    match bound {
        Some(bound) => graph.nodes.len() <= bound.nodes && graph.depth <= bound.depth,
        None => true,
    }
}
