//! The points at which a segment meets the edges of a layer, by the index over its pieces: for the zone of a segment in a map whose faces have
//! many boundary cycles.
//!
//! Each edge lies on a piece of each curve that runs along it. So the segment meets an edge only where it meets such a piece, and the index tells
//! the pieces whose boxes meet its own (de Berg and others: windowing). What the segment has in common with a piece is a point, at which a
//! vertex is or an edge of the piece, or a part, along which an edge of the piece leads to each point but the first.
#![tactic(auto)]

mod pieces;
mod told;
mod windows;

pub use pieces::PieceSource;
