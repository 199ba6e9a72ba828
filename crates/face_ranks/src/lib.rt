//! The rank of a face that is told by its name: how many faces come before it, where the unbounded one is the first, and the
//! others stand in the order of their outer cycles, each told by its least dart.
//!
//! The key of each bounded face is listed first; by these one face's rank is counted, or all faces are given their ranks, which the
//! records keep; neither takes memory. Where the records may not be written, the rank is told by what they keep, or else by two walks
//! along each outer cycle. That a point lies in the face of the rank that its face's name has is a law: its contract states it, and
//! its body, being empty, computes nothing.
#![tactic(auto)]

mod order;
mod walks;

ghost use Rattle.face_ranks.specs.Ranks.{FaceIsLocated};

pub use order::{Ranking, key_of, rank_of};
pub use walks::rank_told;

/// A point on no vertex and no edge lies in the face of the rank that the name of its face has.
pub fn face_is_located()
    ensures { FaceIsLocated }
{}
