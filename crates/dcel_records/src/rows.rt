ghost use Rattle.std.specs.Prelude.{◌≡◌, Some, IsSome};

use crate::links::Placed;
use exact_plane::{BoundingBox, Line, Point, WholeParts};
use slab_laws::{CycleId, CycleKind, DartId, FaceId, VertexId};

/// A place in a chain of a face: the face, and the neighbours there by their names.
#[derive(Clone, Copy)]
pub(crate) struct Place {
    pub(crate) face: FaceId,
    pub(crate) before: Option<usize>,
    pub(crate) after: Option<usize>,
}

/// What is kept of a vertex; `out` is one of the darts out of it, and `None` where there is none; `place` is that of an
/// isolated vertex in its face.
#[derive(Clone, Copy)]
pub(crate) struct StoredVertex {
    pub(crate) point: Point,
    pub(crate) pinned: bool,
    pub(crate) out: Option<DartId>,
    pub(crate) place: Option<Place>,
}

/// What is kept of a dart; `parts` are the whole parts of the point that it leaves, `target_parts` of the one that it reaches.
#[derive(Clone, Copy)]
pub(crate) struct StoredDart {
    pub(crate) source: VertexId,
    pub(crate) twin: DartId,
    pub(crate) next: DartId,
    pub(crate) parts: WholeParts,
    pub(crate) target_parts: WholeParts,
    pub(crate) line: Line,
    pub(crate) cycle: CycleId,
}

/// What is kept of a cycle: whether it is outer, a dart on it, its place in its face, and a box of whole parts that no point on it is
/// beyond.
#[derive(Clone, Copy)]
pub(crate) struct StoredCycle {
    pub(crate) kind: CycleKind,
    pub(crate) dart: DartId,
    pub(crate) place: Place,
    pub(crate) area: BoundingBox,
}

/// What is kept of a face: the first of its cycles, the first of its isolated vertices, and the rank that it was given last.
#[derive(Clone, Copy)]
pub(crate) struct StoredFace {
    pub(crate) first_cycle: Option<usize>,
    pub(crate) first_bare: Option<usize>,
    pub(crate) rank: usize,
}

impl Placed for StoredCycle {
    ghost use Rattle.dcel_records.specs.Placing.{cycle_placing};

    ghost placing = { cycle_placing };

    fn place(&self) -> Place {
        self.place
    }

    fn with_place(self, place: Place) -> StoredCycle {
        StoredCycle {
            kind: self.kind,
            dart: self.dart,
            place,
            area: self.area,
        }
    }

    fn first(face: &StoredFace) -> Option<usize> {
        face.first_cycle
    }

    fn with_first(face: StoredFace, first: Option<usize>) -> StoredFace {
        StoredFace {
            first_cycle: first,
            first_bare: face.first_bare,
            rank: face.rank,
        }
    }
}

impl Placed for StoredVertex {
    ghost use Rattle.dcel_records.specs.Placing.{vertex_placing};

    ghost placing = { vertex_placing };

    fn place(&self) -> Place {
        self.place.unwrap()
    }

    fn with_place(self, place: Place) -> StoredVertex {
        StoredVertex {
            point: self.point,
            pinned: self.pinned,
            out: self.out,
            place: Some(place),
        }
    }

    fn first(face: &StoredFace) -> Option<usize> {
        face.first_bare
    }

    fn with_first(face: StoredFace, first: Option<usize>) -> StoredFace {
        StoredFace {
            first_cycle: face.first_cycle,
            first_bare: first,
            rank: face.rank,
        }
    }
}
