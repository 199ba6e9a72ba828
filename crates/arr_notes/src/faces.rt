ghost use Rattle.std.specs.Prelude.{◌≡◌, IfOk};

use no_memory::NoMemory;
use slab_laws::{CycleId, DartId, FaceId, Moved};
use std::alloc::Global;

/// What becomes of cycles and faces where an edge comes, by the names of the records (CGAL manual, `Arr_observer`: what is
/// notified of boundaries and faces; the list is this project's).
#[derive(Drop)]
pub enum Linked {
    /// Both ends were bare: the two darts are a new inner cycle in the face.
    NewHole {
        cycle: CycleId,
        face: FaceId,
    },
    /// One end was: both darts are on the cycle at the other.
    Grows {
        cycle: CycleId,
    },
    /// The two places are on two cycles of one face: the new darts and those of `gone` are on `kept`, and `gone` goes.
    Joins {
        kept: CycleId,
        gone: CycleId,
    },
    /// The two places are on one cycle: the orbit of `fresh_dart` is the new cycle `fresh`, the outer one of the new face
    /// `fresh_face`, to which the cycles and isolated vertices of `moved` move; the rest stays `kept`.
    Splits {
        kept: CycleId,
        fresh: CycleId,
        fresh_dart: DartId,
        fresh_face: FaceId,
        moved: Moved,
    },
}

/// What becomes of cycles and faces where an edge goes.
#[derive(Drop)]
pub enum Unlinked {
    /// Both ends become bare: their cycle goes, and both are isolated in the face.
    Vanishes {
        cycle: CycleId,
        face: FaceId,
    },
    /// One end does: it is isolated in the face, that of the cycle.
    Shrinks {
        cycle: CycleId,
        face: FaceId,
    },
    /// Neither does, and both darts were on one cycle: the orbit of `fresh_dart` is the new inner cycle `fresh` of the same
    /// face; the rest stays `kept`.
    Breaks {
        kept: CycleId,
        fresh: CycleId,
        fresh_dart: DartId,
    },
    /// They were on two cycles: the darts of `gone`, an outer one, are on `kept`; `gone` goes with its face, and what else
    /// that face had, the cycles and isolated vertices of `moved`, moves to the face of `kept`.
    Unites {
        kept: CycleId,
        gone: CycleId,
        gone_face: FaceId,
        moved: Moved,
    },
}

impl Linked {
    /// The same once more, the spare room of its lists included.
    ///
    /// # Errors
    ///
    /// There was no memory for the lists.
    pub fn copy(&self, alloc: Global) -> Result<Linked, NoMemory>
        ensures { IfOk result (λ l. l ≡ self.now) }
    {
        let copy = match self {
            Linked::NewHole { cycle, face } => Linked::NewHole {
                cycle: *cycle,
                face: *face,
            },
            Linked::Grows { cycle } => Linked::Grows { cycle: *cycle },
            Linked::Joins { kept, gone } => Linked::Joins {
                kept: *kept,
                gone: *gone,
            },
            Linked::Splits {
                kept,
                fresh,
                fresh_dart,
                fresh_face,
                moved,
            } => Linked::Splits {
                kept: *kept,
                fresh: *fresh,
                fresh_dart: *fresh_dart,
                fresh_face: *fresh_face,
                moved: moved.copy(alloc)?,
            },
        };
        Ok(copy)
    }
}

impl Unlinked {
    /// The same once more, the spare room of its lists included.
    ///
    /// # Errors
    ///
    /// There was no memory for the lists.
    pub fn copy(&self, alloc: Global) -> Result<Unlinked, NoMemory>
        ensures { IfOk result (λ u. u ≡ self.now) }
    {
        let copy = match self {
            Unlinked::Vanishes { cycle, face } => Unlinked::Vanishes {
                cycle: *cycle,
                face: *face,
            },
            Unlinked::Shrinks { cycle, face } => Unlinked::Shrinks {
                cycle: *cycle,
                face: *face,
            },
            Unlinked::Breaks {
                kept,
                fresh,
                fresh_dart,
            } => Unlinked::Breaks {
                kept: *kept,
                fresh: *fresh,
                fresh_dart: *fresh_dart,
            },
            Unlinked::Unites {
                kept,
                gone,
                gone_face,
                moved,
            } => Unlinked::Unites {
                kept: *kept,
                gone: *gone,
                gone_face: *gone_face,
                moved: moved.copy(alloc)?,
            },
        };
        Ok(copy)
    }
}
