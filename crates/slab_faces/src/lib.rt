//! The laws of faces in the slab model: labels, cycles, locations, and that what signs and counts call plane is a straight-line
//! graph.
//!
//! The laws ask of a skeleton that it be plane by signs and counts; the field asks that two edges share ends only (Fogel,
//! Halperin and Wein: a straight-line embedding). Where the lists ascend, both mean the same. Each function is a law: its
//! contract states it, and its body, being empty, computes nothing.
#![tactic(auto)]

ghost use Rattle.slab_faces.specs.CycleLaws.{NextStartsThere, CycleAcrossEdge};
ghost use Rattle.slab_faces.specs.SkeletonLaws.{GraphIsPlaneSkeleton};
ghost use Rattle.slab_faces.specs.Locations.{LocationIs, CellsHaveFaces};
ghost use Rattle.slab_faces.specs.PointLaws.{PointsHaveOneFace};
ghost use Rattle.slab_faces.specs.EveryFaceLaws.{OuterCyclesOfEveryFace, FaceIsTheCells};
ghost use Rattle.slab_faces.specs.LocationLaws.{LocationIsOne, OneEdgeAtMost, OffWalls, WallsTellSlabs, WallsTellEdges};
ghost use Rattle.slab_faces.specs.ComputedLaws.{LabelsAreFaces, LabelsAreLeast, ComputedNextKeepsFace, NextIsOneToOne, CycleParity};
ghost use Rattle.slab_faces.specs.PlaneSkeletons.{PlaneSkeletonsAreDrawn};

/// Two cells have one label exactly where they are in one face.
pub fn labels_are_faces()
    ensures { LabelsAreFaces }
{}

/// The label of a cell is the least cell of its face.
pub fn labels_are_least()
    ensures { LabelsAreLeast }
{}

/// A dart and its computed `next` have the same face on their left.
pub fn computed_next_keeps_face()
    ensures { ComputedNextKeepsFace }
{}

/// `next` is one to one.
pub fn next_is_one_to_one()
    ensures { NextIsOneToOne }
{}

/// A cycle's parity is the same on a whole face.
pub fn cycle_parity()
    ensures { CycleParity }
{}

/// The skeleton of a plane graph is plane, so that every law of faces holds for it.
pub fn graph_is_plane_skeleton()
    ensures { GraphIsPlaneSkeleton }
{}

/// The next dart starts where the dart ends.
pub fn next_starts_there()
    ensures { NextStartsThere }
{}

/// The parities of a cycle on both sides of an edge differ exactly where the edge has one dart of the cycle.
pub fn cycle_across_edge()
    ensures { CycleAcrossEdge }
{}

/// What location answers for a point is so: an equal vertex, else an edge that it is inside of, else a face.
pub fn location_is_one()
    ensures { LocationIsOne }
{}

/// No two edges have one point inside.
pub fn one_edge_at_most()
    ensures { OneEdgeAtMost }
{}

/// A point off all walls is in one cell.
pub fn off_walls()
    ensures { OffWalls }
{}

/// Slabs are the same, and in the same order, by the vertices to their left and by the walls to their left.
pub fn walls_tell_slabs()
    ensures { WallsTellSlabs }
{}

/// Edges span the same slabs, at the same places, by the vertices to a slab's left and by the walls to its left.
pub fn walls_tell_edges()
    ensures { WallsTellEdges }
{}

/// A vertex lies on itself, a point inside an edge on such an edge, and any other point in the face of its cell.
pub fn location_is()
    ensures { LocationIs }
{}

/// Each cell is in exactly one of the ranked faces.
pub fn cells_have_faces()
    ensures { CellsHaveFaces }
{}

/// A point off all vertices and edges has one face, looked at from its left or from its right.
pub fn points_have_one_face()
    ensures { PointsHaveOneFace }
{}

/// Of every face, with an edge beside it or not: a bounded one has an odd number of outer cycles, the unbounded one an even number.
pub fn outer_cycles_of_every_face()
    ensures { OuterCyclesOfEveryFace }
{}

/// The rank that location answers for a point is that of the face of the point's cell.
pub fn face_is_the_cells()
    ensures { FaceIsTheCells }
{}

/// A skeleton whose lists ascend is plane by signs and counts exactly where its points and edges draw a plane
/// graph: each point and each edge once, both ends of an edge among the points, no point strictly inside an
/// edge, and two edges share ends only.
pub fn plane_skeletons_are_drawn()
    ensures { PlaneSkeletonsAreDrawn }
{}
