//! The edits of a present, and the steps of each: changes of the graph by points, in order.
//!
//! `specs/` has the definitions. Each function here is a law of them, which its contract states and its body,
//! being empty, does not compute.
#![tactic(auto)]

ghost use Rattle.edit_steps.specs.EditLaws.{EditsKeepFit, StepsMakeGraph, StepsAreSound, VerticesChange, LooseIsNoVertex, MeetingPoints, LayersAreLawful};
ghost use Rattle.edit_steps.specs.EditLaws.{VerticesTogether, PathPointsTell, CurvesOfStrands, StrandsFollow, PathOfStrands, DropOfStrands};

/// An accepted edit keeps a present fit.
pub fn edits_keep_fit()
    ensures { EditsKeepFit }
{}

/// An edit's steps, one after the other, make of the graph of the present the graph of the new present.
pub fn steps_make_graph()
    ensures { StepsMakeGraph }
{}

/// Each step of an edit fits the graph that it meets, and the graph is plane after each.
pub fn steps_are_sound()
    ensures { StepsAreSound }
{}

/// An insertion loses no vertex, and a new one lies on the new piece; a vertex that goes with a curve lies on
/// it; a cut loses the ends of its edge at most.
pub fn vertices_change()
    ensures { VerticesChange }
{}

/// Over any points that contain the vertices, a point is no vertex exactly where it has no pin and either no
/// edge, or two along one line with the same sides of curves; these have the same curves then.
pub fn loose_is_no_vertex()
    ensures { LooseIsNoVertex }
{}

/// A new piece's vertices are its ends, the old vertices on it, and the points where it passes through an edge
/// of another line.
pub fn meeting_points()
    ensures { MeetingPoints }
{}

/// The layer before the first edit is lawful, and an accepted edit keeps it so.
pub fn layers_are_lawful()
    ensures { LayersAreLawful }
{}

/// With several new pieces the vertices are those with each alone, and where the new ones meet one another.
pub fn vertices_together()
    ensures { VerticesTogether }
{}

/// Points found side by side, with those where the sides meet one another, tell the new vertices and the edges of the sides.
pub fn path_points_tell()
    ensures { PathPointsTell }
{}

/// The curves of an edge are those of the sides along it.
pub fn curves_of_strands()
    ensures { CurvesOfStrands }
{}

/// An edit that sees no curve has the same steps where the sides of curves are told apart.
pub fn strands_follow()
    ensures { StrandsFollow }
{}

/// The new vertices of an insertion, and then each side along each edge, make the graph of the new present, its sides told apart.
pub fn path_of_strands()
    ensures { PathOfStrands }
{}

/// Each side of a curve from each of its edges, and then the tidying, make the graph of the new present, its sides told apart.
pub fn drop_of_strands()
    ensures { DropOfStrands }
{}
