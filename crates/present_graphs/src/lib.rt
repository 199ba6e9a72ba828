//! The planar graph of a present, computed: its vertices, its edges, and which curves run along each edge.
//!
//! A *present* is a list of pieces of segments, each of a numbered curve, and a list of pins. Its vertices are the ends of
//! pieces, the pins, and the points on two pieces of different lines; its edges join neighbouring vertices on a piece
//! (CGAL manual, `Arrangement_2`; pins are this project's). Calls that take a present ask that it is
//! fit: its pieces lie on their segments, and those of one curve don't touch.
//!
//! Two layers are made one present here, of which all the rest can then be asked.
#![tactic(auto)]

mod edges;
mod marks;
mod pieces;
mod united;
mod vertices;

pub use edges::edges_of;
pub use marks::{Mark, marks_of};
pub use pieces::spans_of;
pub use united::unite;
pub use vertices::vertices_of;
