//! The text of a subdivision, for anything that is read by name: its vertices with their neighbours clockwise, its edges with
//! their curves, its faces with their boundary cycles and isolated vertices; and that of an overlay, whose curves and faces
//! also tell of its two layers.
//!
//! The format is this project's; the names are those of the field (CGAL manual, 2D Arrangements). Vertices are numbered from
//! 1 in the order of their points, faces from 0 by rank.
#![tactic(auto)]

mod darts;
mod edges;
mod faces;
mod laws;
mod numbers;
mod put;
mod rounds;
mod vertices;
mod whole;
mod words;

pub use laws::{overlay_text_is_the_layers, records_tell_their_graph};
pub use put::{put_number, put_point, put_text};
pub use whole::{overlay_text, text};
