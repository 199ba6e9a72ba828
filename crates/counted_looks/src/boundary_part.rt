ghost use Rattle.std.specs.Prelude.{◌≡◌};
ghost use Rattle.counted_looks.specs.Boundaries.{HasPart, spot_of};
ghost use Rattle.counted_looks.specs.Looks.{IsLookable};

use dcel_records::Spot;
use slab_laws::{DartId, VertexId};

/// What the boundary of a face is made of (CGAL manual, outer and inner boundaries and isolated vertices of a face).
#[derive(Clone, Copy, PartialEq, Eq)]
pub enum BoundaryPart {
    /// A dart on one of its cycles.
    Dart(DartId),
    /// A vertex in the face that no dart leaves.
    Isolated(VertexId),
}

impl BoundaryPart {
    /// The part as a look is told it.
    pub fn spot(self) -> Spot
        ensures spot { result ≡ spot_of self }
        ensures lookable { (v : _) → HasPart v self → IsLookable v result }
    {
        match self {
            BoundaryPart::Dart(dart) => Spot::Edge(dart),
            BoundaryPart::Isolated(vertex) => Spot::Vertex(vertex),
        }
    }
}
