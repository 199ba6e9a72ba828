ghost use Rattle.std.specs.Prelude.{◌≡◌, map, IfOk};
ghost use Rattle.std.specs.List.{position_or_len};
ghost use Rattle.slab_laws.specs.Faces.{same_cell};

use slab_laws::{CycleRow, SlabCell};
use std::alloc::{AllocError, Global};

// The place of a face, by its least cell, among the faces.
pub(crate) fn rank_of(faces: &[SlabCell], face: SlabCell) -> usize
    ensures { result ≡ position_or_len (same_cell face) faces.now }
{
    for i in 0..faces.len() {
        if face == faces[i] {
            return i;
        }
    }
    faces.len()
}

// Of each cycle the rank of its face.
pub(crate) fn cycle_ranks(
    alloc: Global,
    faces: &[SlabCell],
    cycles: &[CycleRow],
) -> Result<Vec<usize>, AllocError>
    ensures { IfOk result (λ v. v.items ≡ map (λ c. position_or_len (same_cell c.face) faces.now) cycles.now) }
{
    cycles.iter().map(|c| rank_of(faces, c.face)).collect(alloc)
}
