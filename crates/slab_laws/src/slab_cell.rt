/// The part of a slab that has so many of the slab's edges below it. Cells are ordered by slab, then by place.
#[derive(Clone, Copy, PartialEq, Eq, PartialOrd, Ord)]
pub struct SlabCell {
    /// How many vertices lie to the left of the slab.
    pub slab: usize,
    /// How many of its edges lie below the cell.
    pub place: usize,
}
