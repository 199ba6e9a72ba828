ghost use Rattle.std.specs.Prelude.{◌≡◌};
ghost use Rattle.dcel_records.specs.Spots.{met_of};

use slab_laws::{DartId, FaceId, VertexId};

/// What of a graph a point meets (CGAL manual, point location).
#[derive(Clone, Copy, PartialEq, Eq)]
pub enum Met {
    /// The vertex at it.
    Vertex(VertexId),
    /// The edge that has it strictly inside, told by its dart from the lower to the upper end.
    Edge(DartId),
    /// Neither: it lies inside a face.
    Nothing,
}

/// Where a point lies in the records (CGAL manual, point location).
#[derive(Clone, Copy, PartialEq, Eq)]
pub enum Spot {
    /// At the vertex.
    Vertex(VertexId),
    /// Strictly inside an edge, told by its dart from the lower to the upper end.
    Edge(DartId),
    /// Inside the face.
    Face(FaceId),
}

impl Spot {
    /// What of the graph the point meets, whichever face it lies in.
    pub fn met(self) -> Met
        ensures { result ≡ met_of self }
    {
        match self {
            Spot::Vertex(vertex) => Met::Vertex(vertex),
            Spot::Edge(dart) => Met::Edge(dart),
            Spot::Face(_) => Met::Nothing,
        }
    }
}
