//! The lower or the upper envelope of an arrangement (CGAL manual, envelopes).
//!
//! An arrangement's edges don't cross, so nothing is swept and no meeting is computed. Each edge spans a range of slabs, and of
//! each slab the outermost edge is found by halving: an edge is offered to the slab at an end of its range that isn't half of a
//! pair, and what is left is a range of pairs, which are slabs of the next round. Only the boundaries of the unbounded face are walked:
//! what has nothing beyond it borders this face, so no other edge is outermost anywhere, and no other vertex is on an envelope. The
//! text of an envelope tells its vertices and what is between them, with the curves that run there.
#![tactic(auto)]

mod boundary;
mod corner;
mod edges;
mod envelope;
mod envelope_text;
mod order;
mod slab_edges;
mod slabs;

pub use corner::Envelope;
pub use envelope::envelope_of;
pub use envelope_laws::Which;
pub use envelope_text::text_of;
