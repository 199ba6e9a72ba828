//! A plane sweep over pieces of segments: its events from left to right, and after each the pieces that it meets, from bottom to top.
//!
//! The sweep of Bentley and Ottmann, as the book by Fogel, Halperin and Wein tells it. Its line is the vertical line through the
//! last event, leant by less than any number: it has swept the points up to that event in their order, so that no line is
//! vertical to it, and no piece is a special case. Of what the sweep promises nothing depends on how it is done.
#![tactic(auto)]

mod event;
mod exchange;
mod laws;
mod places;
mod sweep;

pub use event::Event;
pub use laws::{edges_of_status, events_are_vertices, part_of_status, status_is_one};
pub use sweep::Sweep;
