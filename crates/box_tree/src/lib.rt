//! An index over boxes: entries, each a name with its box, and the questions which of them meet a box, and which are met by a
//! vertical ray, seen from its top (de Berg and others: windowing queries, stabbing queries).
//!
//! It is a trie: an entry goes down by the bits of its box's middle, those of x and of y by turns (Samet: PR k-d tree), and bits in which all that
//! lies below a node agrees are passed over (Morrison: PATRICIA). Larger entries stand nearer to the root for the most part, one at each node (de Berg
//! and others: priority search tree), so that deep boxes are small; each node has a box that covers all that is in it (Guttman: R-tree), and a
//! question passes over a node whose box it doesn't meet. So nothing is balanced, no size of a grid is chosen, and what an entry needs is
//! taken beforehand: after `reserve`, neither insertions and removals nor questions take memory.
#![tactic(auto)]

pub use box_tree::BoxTree;
pub use entry::Entry;
pub use visitor::Visitor;

mod box_tree;
mod deepest;
mod entry;
mod single;
#[cfg(test)]
mod tests;
mod tree;
mod visitor;
