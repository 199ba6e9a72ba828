ghost use Rattle.std.specs.Prelude.{◌≡◌, ◌+◌, ◌≤◌, None};
ghost use Rattle.slab_laws.specs.View.{HasFace};
ghost use Rattle.dcel_records.specs.RecordsView.{tables_of};
ghost use Rattle.dcel_records.specs.SoundMaps.{IsSoundMap};
ghost use Rattle.dcel_records.specs.Spots.{IsVertexAt};
ghost use Rattle.face_location.specs.Spots.{IsSpotOf};
ghost use Rattle.counted_looks.specs.Looks.{vertex_looks};
ghost use Rattle.walk_laws.specs.Walks.{face_above};
ghost use Rattle.locate_walk.specs.Looks.{IsBelowOrNone, dart_of};
ghost use Rattle.locate_walk.specs.Rounds.{looks_ahead, looks_below};

use crate::found::EdgeBelow;
use crate::round::{Round, look_round};
use counted_looks::{Glance, NameCalls};
use dcel_records::Spot;
use exact_plane::Point;
use slab_laws::FaceId;
use std::sync::ledger::Ledger;
use work_steps::Steps;

/// The face over an edge; with none, the unbounded one, whose name is the first.
pub fn face_over(glance: &Glance, edge: &Option<EdgeBelow>) -> FaceId
    requires map { IsSoundMap glance.now }
    requires edge { (q : _) × IsBelowOrNone glance.now.graph q edge.now }
    ensures face { result ≡ face_above (tables_of glance.now) (dart_of edge.now) }
    ensures has { HasFace (tables_of glance.now) result }
{
    // This tells that the first face is there.
    glance.laws();
    match edge {
        Some(below) => glance.face(glance.cycle(below.dart)),
        None => FaceId(0),
    }
}

/// The walk of `climb` to a point at which no vertex is, where this is known already.
pub fn climb_free<L: Ledger>(
    glance: &Glance,
    first: Option<EdgeBelow>,
    point: &Point,
    steps: &mut Steps<L>,
) -> (Spot, Option<EdgeBelow>)
    requires map { IsSoundMap glance.now }
    requires free { IsVertexAt glance.now.graph point.now None }
    requires first { IsBelowOrNone glance.now.graph point.now first }
    ensures spot { IsSpotOf glance.now.graph (tables_of glance.now) point.now result.0 }
    ensures last { IsBelowOrNone glance.now.graph point.now result.1 }
    ensures looks { steps.new ≤ steps.old + looks_ahead glance.now point.now first }
{
    point.laws();
    let mut last = first;
    let mut face = face_over(glance, &last);
    'faces: loop {
        match look_round(glance, face, point, last, steps) {
            Round::At(spot) => return (spot, last),
            Round::Over(highest) => {
                let over = face_over(glance, &highest);
                if over == face {
                    return (Spot::Face(face), highest);
                }
                last = highest;
                face = over;
            }
        }
    }
}

/// Where a point lies, by a walk up to it from the face over an edge that it sees below it, or from the unbounded face; and the edge
/// that was passed last, from which a walk to a point above goes on.
///
/// The records tell the vertex at the point, in one step where they map points to vertices (`Glance::vertex_at`). Where there is none, it
/// looks in each face once at the darts on the boundary, by the face's own list, for the edge that has the point inside, or else for the
/// highest edge that the point sees below it; from there it goes on into the face over that edge, until this is the one that it is in.
/// No isolated vertex is looked at. It takes no memory.
pub fn climb<L: Ledger>(
    glance: &Glance,
    first: Option<EdgeBelow>,
    point: &Point,
    steps: &mut Steps<L>,
) -> (Spot, Option<EdgeBelow>)
    requires map { IsSoundMap glance.now }
    requires first { IsBelowOrNone glance.now.graph point.now first }
    ensures spot { IsSpotOf glance.now.graph (tables_of glance.now) point.now result.0 }
    ensures last { IsBelowOrNone glance.now.graph point.now result.1 }
    ensures looks { steps.new ≤ steps.old + (vertex_looks glance.now + looks_ahead glance.now point.now first) }
{
    if let Some(vertex) = glance.vertex_at(point, steps) {
        return (Spot::Vertex(vertex), first);
    }
    climb_free(glance, first, point, steps)
}

/// Where a point lies: the vertex at it, else the edge that has it inside, else the face that it lies in (CGAL manual,
/// `Arr_walk_along_line_point_location`).
///
/// It asks for the vertex at the point (`climb`). Where there is none, it walks from the unbounded face up to the point. So it looks at
/// each dart once at most, and only at those on the boundaries of faces that the vertical below the point, leant by less than any number,
/// passes. It takes no memory.
pub fn locate<L: Ledger>(glance: &Glance, point: &Point, steps: &mut Steps<L>) -> Spot
    requires { IsSoundMap glance.now }
    ensures spot { IsSpotOf glance.now.graph (tables_of glance.now) point.now result }
    ensures looks { steps.new ≤ steps.old + (vertex_looks glance.now + looks_below glance.now.graph (tables_of glance.now) point.now) }
{
    climb(glance, None, point, steps).0
}
