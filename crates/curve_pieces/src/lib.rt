//! The pieces of a layer's curves: each has a name, which stays until it goes, and knows the pieces before and after it in the
//! order in which they came, and the other pieces of its curve.
//!
//! All pieces are read in their order, those of one curve go at the cost of that curve alone, and those whose boxes meet a box are found by
//! an index. After `reserve` the changes take no memory.
#![tactic(auto)]

mod index;
mod iter;
mod links;
mod pieces;
mod row;
mod rows;

pub use iter::Iter;
pub use pieces::Pieces;
