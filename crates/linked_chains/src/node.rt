use crate::neighbour::Neighbour;

/// What a node says: the key of its chain, what is kept for it, and the name of its twin, of which the chains know nothing.
#[derive(Clone, Copy)]
pub struct Entry {
    pub key: usize,
    pub item: usize,
    pub twin: usize,
}

/// A node: its entry, and its neighbours in its chain.
#[derive(Clone, Copy)]
pub(crate) struct Node {
    pub(crate) entry: Entry,
    pub(crate) before: Neighbour,
    pub(crate) after: Neighbour,
}
