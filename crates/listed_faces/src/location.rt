ghost use Rattle.std.specs.Prelude.{◌≡◌, ◌≢◌, IfSome, IfNone};
ghost use Rattle.plane_graphs.specs.Line.{IsProper};
ghost use Rattle.slab_laws.specs.View.{HasDart, HasFace, HasVertex, point_in};
ghost use Rattle.dcel_records.specs.Spots.{IsInFace};
ghost use Rattle.face_steps.specs.VertexSteps.{IsFaceRound};
ghost use Rattle.subdivision_rows.specs.Listed.{view_of, faces_of};
ghost use Rattle.face_location.specs.Below.{IsHighestDart};
ghost use Rattle.face_location.specs.Spots.{IsSpotOf};
ghost use Rattle.listed_faces.specs.Located.{IsListedFaceAt, IsInNoListedFace};

use dcel_records::Spot;
use exact_plane::Point;
use face_location::{EdgeFound, edge_at_or_below};
use slab_laws::{DartId, FaceId, Faced, VertexId};
use subdivision_rows::Rows;

// The vertex at a point: its name is the point's place among the points.
fn vertex_at(rows: &Rows, p: &Point) -> Option<VertexId>
    ensures some { IfSome result (λ w. HasVertex (view_of rows.now) w × (point_in (view_of rows.now) w ≡ p.now)) }
    ensures none { IfNone result ((w : _) → HasVertex (view_of rows.now) w → point_in (view_of rows.now) w ≢ p.now) }
{
    rows.laws();
    match rows.lists().points.binary_search(p) {
        Ok(place) => Some(VertexId(place)),
        Err(_) => None,
    }
}

// The face over an edge, by its dart from the lower to the upper end, or the unbounded one, whose rank is 0.
fn face_over(rows: &Rows, highest: Option<DartId>) -> FaceId
    requires dart { IfSome highest (HasDart (view_of rows.now)) }
    ensures face { (q : _) → IsProper q → IsInFace (view_of rows.now) q → IsHighestDart (view_of rows.now) q highest →
        IsFaceRound (view_of rows.now) (faces_of rows.now) result q }
    ensures has { HasFace (faces_of rows.now) result }
{
    rows.laws();
    match highest {
        Some(dart) => rows.face(rows.cycle(dart)),
        None => FaceId(0),
    }
}

/// Where a point lies: the vertex at it, else the edge that has it inside, by its dart from the lower to the upper end, else the face that
/// it lies in, each by its name (CGAL manual, `Arr_naive_point_location`).
///
/// A search among the vertices, and one look at each edge (Fogel, Halperin and Wein: vertical ray shooting). It takes no memory.
pub fn locate(rows: &Rows, p: &Point) -> Spot
    ensures { IsSpotOf (view_of rows.now) (faces_of rows.now) p.now result }
{
    rows.laws();
    p.laws();
    if let Some(vertex) = vertex_at(rows, p) {
        return Spot::Vertex(vertex);
    }
    match edge_at_or_below(rows, p) {
        EdgeFound::Through(dart) => Spot::Edge(dart),
        EdgeFound::Below(highest) => Spot::Face(face_over(rows, highest)),
    }
}

/// The face that a point lies in, by its name, which is its rank; `None` where the point is a vertex or lies on an edge (CGAL manual, point
/// location).
///
/// A search among the vertices, and one look at each edge (Fogel, Halperin and Wein: vertical ray shooting). It takes no memory.
pub fn face_at(rows: &Rows, p: &Point) -> Option<FaceId>
    ensures face { IfSome result (IsListedFaceAt rows.now p.now) }
    ensures none { IfNone result (IsInNoListedFace rows.now p.now) }
{
    rows.laws();
    p.laws();
    if let Some(_) = vertex_at(rows, p) {
        return None;
    }
    match edge_at_or_below(rows, p) {
        EdgeFound::Through(_) => None,
        EdgeFound::Below(highest) => Some(face_over(rows, highest)),
    }
}
