ghost use Rattle.std.specs.Prelude.{◌≡◌};
ghost use Rattle.locate_trapezoid.specs.Nodes.{bare_node, child_of, with_child};

use slab_laws::{DartId, VertexId};

/// What a node asks of a point. Where the vertex or the edge lies, the records tell.
#[derive(Clone, Copy)]
pub enum Test {
    /// Whether it comes before the vertex, or after it.
    Vertex(VertexId),
    /// Whether it is below the edge, or above it; the edge goes by its dart from the lower to the upper end.
    Edge(DartId),
}

/// Where a node may hang.
#[derive(Clone, Copy)]
pub enum Slot {
    /// Above all nodes.
    Root,
    /// At a node: for points before it or below it, or, where this is true, for those after it or above it.
    Child(usize, bool),
}

/// A node, with what hangs at it.
#[derive(Clone, Copy)]
pub struct Node {
    pub test: Test,
    /// For points before it or below it.
    pub less: Option<usize>,
    /// For points after it or above it.
    pub more: Option<usize>,
}

impl Node {
    /// A node at which nothing hangs.
    pub fn new(test: Test) -> Node
        ensures { result ≡ bare_node test }
    {
        Node {
            test,
            less: None,
            more: None,
        }
    }

    /// What hangs at it.
    pub fn child(self, is_more: bool) -> Option<usize>
        ensures { result ≡ child_of self is_more }
    {
        if is_more { self.more } else { self.less }
    }

    /// The node with one more at it.
    pub fn with_child(self, is_more: bool, number: usize) -> Node
        ensures { result ≡ with_child self is_more number }
    {
        let child = Some(number);
        if is_more {
            Node {
                more: child,
                ..self
            }
        } else {
            Node {
                less: child,
                ..self
            }
        }
    }
}
