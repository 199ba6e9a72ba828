//! The split of an edge in the records of a doubly-connected edge list, and the merge of two.
//!
//! `split_in_cycles` and `merge_in_cycles` answer the names of what came and went; `split` and `merge` tell it by a change.
//!
//! Memory was reserved before, so that neither can fail.
#![tactic(auto)]

mod faces;
mod joining;
mod parting;
mod told;

pub use faces::{merge_in_cycles, split_in_cycles};
pub use joining::MergeNames;
pub use parting::SplitNames;
pub use told::{merge, split};
