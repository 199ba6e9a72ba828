//! The planar graph that a present induces: its vertices, and its edges with their curves.
//!
//! `specs/` has the definitions. A *present* is a list of pieces of segments, each of a numbered curve, and a
//! list of pins. Its vertices are the ends of pieces, the pins, and the points on two pieces of different
//! lines; its edges join neighbouring vertices on a piece. Each function here is a law of them, which its
//! contract states and its body, being empty, does not compute.
#![tactic(auto)]

ghost use Rattle.plane_graphs.specs.GraphLaws.{StandOnce, VerticesAre, EdgesAre, GraphIsPlane, PlaneIsDrawn, NoneCross, CurvesOfEdge, EdgesOfPiece};
ghost use Rattle.plane_graphs.specs.Strands.{StrandsAreApart};

/// Vertices, edges and the curves of an edge ascend, and each stands once.
pub fn stand_once()
    ensures { StandOnce }
{}

/// The vertices of a present are the ends of its pieces, its pins, and the points on two pieces of different
/// lines (CGAL manual, `Arrangement_2`; pins are this project's).
pub fn vertices_are()
    ensures { VerticesAre }
{}

/// The edges are the pairs of vertices on one piece with no vertex strictly between on it (CGAL manual).
pub fn edges_are()
    ensures { EdgesAre }
{}

/// The graph of a fit present is plane (Fogel, Halperin and Wein: a straight-line embedding).
pub fn graph_is_plane()
    ensures { GraphIsPlane }
{}

/// A graph is plane exactly where its lists ascend and its points and edges draw a plane graph: each point and
/// each edge once, both ends of an edge among the points, no point strictly inside an edge, and two edges
/// share ends only.
pub fn plane_is_drawn()
    ensures { PlaneIsDrawn }
{}

/// No edge of a plane graph crosses another, by the signs of four triangles.
pub fn none_cross()
    ensures { NoneCross }
{}

/// On an edge run the curves of all pieces that hold both its ends (CGAL manual, arrangements with history).
pub fn curves_of_edge()
    ensures { CurvesOfEdge }
{}

/// The edges of a piece join neighbouring vertices on it.
pub fn edges_of_piece()
    ensures { EdgesOfPiece }
{}

/// Sides told apart by numbers of their own keep a present fit and its vertices the same (this project).
pub fn strands_are_apart()
    ensures { StrandsAreApart }
{}
