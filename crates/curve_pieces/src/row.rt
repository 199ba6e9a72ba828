use slab_laws::Piece;

/// The rows before and after one in a list, by name.
#[derive(Clone, Copy)]
pub(crate) struct Links {
    pub(crate) before: Option<usize>,
    pub(crate) after: Option<usize>,
}

/// A piece with its neighbours in the order of all pieces, and in the list of its curve's pieces.
#[derive(Clone, Copy)]
pub(crate) struct Row {
    pub(crate) piece: Piece,
    pub(crate) order: Links,
    pub(crate) curve: Links,
}

/// The first and the last row in the order of all pieces.
#[derive(Clone, Copy)]
pub(crate) struct Ends {
    pub(crate) first: Option<usize>,
    pub(crate) last: Option<usize>,
}
