//! The walk up to a point: from the unbounded face on, over the highest edge of each face's boundary that the point sees below it.
//!
//! The walk has a face, and the edge that it passed last, with the face over it. Of the face's boundary it takes the highest edge that
//! the point sees below it. Where the face over that edge is the one that the walk is in, the point lies in it; else it goes on into
//! the face over the edge. These are laws: their contracts state them, and their bodies, being empty, compute nothing (CGAL manual,
//! `Arr_walk_along_line_point_location`, which goes from edge to edge).
#![tactic(auto)]

ghost use Rattle.walk_laws.specs.Laws.{WalkEndsInFace, HighestTellsFace, FacesAreVisitedOnce};

/// A walk whose face has nothing higher on its boundary, and nothing at the point, has come to the face of the point.
pub fn walk_ends_in_face()
    ensures { WalkEndsInFace }
{}

/// A point off all vertices and edges lies in the face over the highest edge that it sees below it.
pub fn highest_tells_face()
    ensures { HighestTellsFace }
{}

/// No face is visited twice, so that what is on the boundaries of all visited faces is at most what is on those of all faces that
/// the leant vertical below the point passes.
pub fn faces_are_visited_once()
    ensures { FacesAreVisitedOnce }
{}
