//! The rotation at a vertex: where a direction stands, clockwise, among the darts that leave it.
//!
//! Directions are those of lines, compared exactly. The place of a direction tells an insertion after which dart the
//! first dart of a new edge comes, or along which edge it would run; the dart that one comes directly after tells a removal
//! where the vertex closes up. Going round a vertex also finds the edge that joins it to another.
//!
//! A view is sound where the darts out of each of its vertices are a ring: each is followed by the next one clockwise
//! (`specs/Ring.antt`). The proofs say what a ring becomes with one more dart, one fewer, or one in another's place.
#![tactic(auto)]

ghost use Rattle.rotation_order.specs.PlaceLaws.{NeighboursHaveNoDartBetween, OnePlace};

mod clockwise;
mod neighbours;
mod places;
mod rounds;

pub use neighbours::dart_to;
pub use places::{Place, place_at};
pub use rounds::previous_around_source;

/// Clockwise from a dart, a direction between it and its neighbour is met before every other dart out of the vertex.
pub fn neighbours_have_no_dart_between()
    ensures { NeighboursHaveNoDartBetween }
{}

/// A direction has one place at a vertex.
pub fn one_place()
    ensures { OnePlace }
{}
