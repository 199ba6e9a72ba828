//! The parts of a curve's sides between the points of a list, in edge order.
//!
//! Where several sides of one curve run between the same two points, their parts stand together.
#![tactic(auto)]

mod part;
mod parts;
mod side;

pub use part::Part;
pub use parts::{parts_in_order, sides_of};
pub use side::Side;
