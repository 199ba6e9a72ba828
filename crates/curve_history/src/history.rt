use curve_pieces::Pieces;
use linked_chains::Chains;
use std::marker::Model;
use thiserror::Error;

/// The last number that a curve can get.
pub const LAST_CURVE: u32 = u32::MAX;

/// Which curves run along which edges, the named curves, their pieces, and the number of the next curve.
///
/// Each pair of an edge and a side of a curve along it is two nodes that know each other, one in the chain of its edge, which
/// says the side by its number among all sides, and one in the chain of its curve, which says the edge. The chain of an edge goes
/// from its greatest side to its least, so that the sides of a curve stand together.
#[derive(Drop)]
pub struct History {
    pub(crate) by_edge: Chains,
    pub(crate) by_curve: Chains,
    pub(crate) pieces: Pieces,
    // The number of the next curve, or `None` after the last one.
    pub(crate) next: Option<u32>,
}

/// Why the edges of a curve can't be told.
#[derive(Clone, Copy, Debug, PartialEq, Eq, Error)]
pub enum HistoryError {
    /// No curve has this number.
    #[error("no curve has this number")]
    Unknown,
    /// There was no memory for the answer.
    #[error("no memory")]
    NoMemory,
}

impl Model for History {
    ghost use Rattle.curve_history.specs.Past.{Past};

    ghost Value = { Past };

    ghost use Rattle.curve_history.specs.HistoryInMemory.{past, IsSoundHistory};

    ghost view = { λ h. past h.by_edge h.by_curve h.pieces h.next };

    ghost invariant = { λ h. IsSoundHistory h.by_edge h.by_curve h.pieces h.next };
}
