//! Walks from dart to dart: once along the boundary that a dart lies on, or once round a vertex clockwise, as iterators that take no memory (CGAL
//! manual, circulators).
//!
//! To contracts each is the list of the darts that are still to come (`specs/Turns.antt`); what the whole list is, `specs/DartWalks.antt` says.
#![tactic(auto)]

mod along;
mod onward;
mod round;

pub use along::Along;
pub use round::Round;
