ghost use Rattle.dcel_records.specs.RecordsView.{tables_of};
ghost use Rattle.dcel_records.specs.SoundMaps.{IsSoundMap};
ghost use Rattle.face_location.specs.Spots.{IsSpotOf};

use dcel_records::{Records, Spot};
use exact_plane::Point;
use face_location::{EdgeFound, edge_at_or_below, face_over};

/// Where a point lies: the vertex at it, else the edge that has it inside, else the face that it lies in (CGAL manual,
/// `Arr_naive_point_location`).
///
/// It finds a vertex by the point's hash (`vertex_at`), and else looks once at all edges, which also finds the highest one below the
/// point, and so the face. It takes no memory.
pub fn locate(records: &Records, point: &Point) -> Spot
    requires { IsSoundMap records.now }
    ensures { IsSpotOf records.now.graph (tables_of records.now) point.now result }
{
    point.laws();
    if let Some(vertex) = records.vertex_at(point) {
        return Spot::Vertex(vertex);
    }
    match edge_at_or_below(records, point) {
        EdgeFound::Through(dart) => Spot::Edge(dart),
        EdgeFound::Below(highest) => Spot::Face(face_over(records, highest)),
    }
}
