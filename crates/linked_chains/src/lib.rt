//! Chains of nodes: each node is in the chain of its key, from which it can be taken in constant time.
//!
//! Nodes have names, which stay until they go; a chain is a doubly linked list whose links are names. After `reserve`
//! that many nodes and keys take no memory.
#![tactic(auto)]

mod chains;
mod links;
mod neighbour;
mod node;

pub use chains::Chains;
pub use links::set_head;
pub use node::Entry;
