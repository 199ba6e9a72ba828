//! One edge fewer in the records of a doubly-connected edge list.
//!
//! `unlink` answers the change, which tells the name that goes with the dart's, and what became of cycles and faces.
#![tactic(auto)]

mod breaking;
mod edges;
mod faces;
mod rounds;
mod told;
mod uniting;

pub use told::unlink;
