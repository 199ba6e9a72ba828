//! The history of an arrangement's curves: which curves run along which edges, seen from both, the named curves and their
//! pieces, with an index over the pieces' boxes.
//!
//! An edge is told by the name of its dart from the lower to the upper end. After `reserve` the changes take no memory.
#![tactic(auto)]

mod changes;
mod cuts;
mod drawn;
mod history;
mod indexed;
mod layers;
mod others;
mod pairs;
mod passed;
mod strands;
mod walks;

pub use curve_pieces::Iter as PieceIter;
pub use cuts::CutPlan;
pub use drawn::Drawn;
pub use history::{History, HistoryError, LAST_CURVE};
