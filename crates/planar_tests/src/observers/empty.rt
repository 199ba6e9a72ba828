use exact_plane::{Line, Point};
use no_memory::NoMemory;
use slab_laws::{CurveId, Curved, CycleId, CycleKind, DartId, Darts, FaceId, Faced, VertexId};
use std::alloc::Global;
use std::cell::Cell;

/// Records of the empty plane, which know whether somebody looked at them. A call that takes a name of a vertex, dart or cycle is never made:
/// no name has a record.
#[derive(Drop)]
pub struct EmptyPlane {
    point: Point,
    line: Line,
    looked: Cell<bool>,
}

impl EmptyPlane {
    /// No records; the point and the line are never seen.
    pub fn new(point: Point, line: Line) -> EmptyPlane {
        EmptyPlane {
            point,
            line,
            looked: Cell::new(false),
        }
    }

    /// Whether somebody asked for the vertices since this was last asked; a snapshot does.
    pub fn was_looked_at(&self) -> bool {
        self.looked.replace(false)
    }
}

#[tactic(auto, unfolding(slab_laws::specs::Tables::row_at))]
impl Darts for EmptyPlane {
    ghost use Rattle.arr_notes.specs.ViewChanges.{no_rows};

    ghost graph = { λ _. no_rows };

    fn source(&self, _d: DartId) -> VertexId {
        VertexId(0)
    }

    fn target(&self, _d: DartId) -> VertexId {
        VertexId(0)
    }

    fn twin(&self, _d: DartId) -> DartId {
        DartId(0)
    }

    fn next(&self, _d: DartId) -> DartId {
        DartId(0)
    }

    fn point(&self, _v: VertexId) -> Point {
        self.point
    }

    fn line(&self, _d: DartId) -> Line {
        self.line
    }

    fn pinned(&self, _v: VertexId) -> bool {
        false
    }

    fn out_of(&self, _v: VertexId) -> Option<DartId> {
        None
    }

    fn vertex_after(&self, _v: Option<VertexId>) -> Option<VertexId> {
        self.looked.set(true);
        None
    }

    fn dart_after(&self, _d: Option<DartId>) -> Option<DartId> {
        None
    }
}

#[tactic(auto, unfolding(slab_laws::specs::Tables::row_at))]
impl Curved for EmptyPlane {
    ghost use Rattle.std.specs.Prelude.{[]};

    ghost curve_list = { λ _ _. [] };

    fn curves(&self, alloc: Global, _d: DartId) -> Result<Vec<CurveId>, NoMemory> {
        Ok(Vec::new(alloc))
    }
}

#[tactic(auto, unfolding(slab_laws::specs::Tables::row_at, slab_laws::specs::Tables::name_after))]
impl Faced for EmptyPlane {
    ghost use Rattle.face_changes.specs.SoundExamples.{one_face};

    ghost faces = { λ _. one_face };

    fn cycle(&self, _d: DartId) -> CycleId {
        CycleId(0)
    }

    fn face(&self, _c: CycleId) -> FaceId {
        FaceId(0)
    }

    fn kind(&self, _c: CycleId) -> CycleKind {
        CycleKind::Inner
    }

    fn bare_face(&self, _v: VertexId) -> FaceId {
        FaceId(0)
    }

    fn cycle_after(&self, _c: Option<CycleId>) -> Option<CycleId> {
        None
    }

    fn face_after(&self, f: Option<FaceId>) -> Option<FaceId> {
        match f {
            None => Some(FaceId(0)),
            Some(_) => None,
        }
    }
}
