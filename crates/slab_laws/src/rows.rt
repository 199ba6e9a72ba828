use crate::names::CycleKind;
use crate::slab_cell::SlabCell;

/// A dart of a subdivision that is kept in lists: the places of its two vertices and of its edge, and whether it goes from
/// the edge's lower end to its upper one.
#[derive(Clone, Copy, PartialEq, Eq, PartialOrd, Ord)]
pub struct ListedDart {
    pub source: usize,
    pub target: usize,
    pub edge: usize,
    pub forward: bool,
}

/// A boundary cycle of such a subdivision: the place of its least dart, its kind, and the least cell of its face.
#[derive(Clone, Copy)]
pub struct CycleRow {
    pub lead: usize,
    pub kind: CycleKind,
    pub face: SlabCell,
}
