//! The program `planar` without its edges: a script of bytes in, replies out.
//!
//! [`planar`] is the top call. It reads the script from a [`Source`](outside::Source), answers each line when its end
//! was read, and hands the replies in their order to a [`Sink`](outside::Sink), all of them before it reads more.
#![tactic(auto)]

mod answer;
mod edits;
mod engine;
mod gathered;
mod layers;
mod line;
mod observers;
mod places;
mod questions;
mod reply;
mod run;
mod status;
mod text;
mod went;
mod world;

pub use run::planar;
pub use status::Status;
