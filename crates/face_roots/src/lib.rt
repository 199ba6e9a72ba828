//! The faces of a plane graph, told by the edge directly below each least vertex of a cycle.
//!
//! A cycle bounds its face from outside, or its face is the one above the edge directly below its least vertex, which is on a cycle
//! that comes earlier, or, with nothing below, the unbounded one. So each cycle has a root, and the ranks of all faces are one pass
//! over the roots: no faces are joined, and no cycle is walked. The same holds round one vertex: below its lowest edge is the face
//! above the edge below the vertex, below any other that above the next lower one. What holds of graphs are laws: their contracts
//! state them, and their bodies, being empty, compute nothing.
#![tactic(auto)]

mod ranks;

ghost use Rattle.face_roots.specs.CycleLinks.{LinksTellFaces};
ghost use Rattle.face_roots.specs.CycleRanks.{RanksByRoots};
ghost use Rattle.face_roots.specs.LowestDarts.{LowestIsAboveBelow};

pub use ranks::{Root, ranks_of};

/// What starts at a vertex is in the face of what is directly below it, and a cycle is inner exactly where it starts something at its
/// least vertex.
pub fn links_tell_faces()
    ensures { LinksTellFaces }
{}

/// The ranks of faces are told by the roots of cycles.
pub fn ranks_by_roots()
    ensures { RanksByRoots }
{}

/// Below the lowest edge that starts at a vertex is what is directly below the vertex, and below any other what is above the next
/// lower one.
pub fn lowest_is_above_below()
    ensures { LowestIsAboveBelow }
{}
