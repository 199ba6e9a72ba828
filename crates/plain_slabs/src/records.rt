use crate::plain::Plain;
use exact_plane::{Line, Point};
use no_memory::NoMemory;
use slab_laws::{CurveId, Curved, CycleId, CycleKind, DartId, Darts, FaceId, Faced, VertexId};
use std::alloc::Global;

impl Darts for Plain {
    ghost use Rattle.subdivision_rows.specs.Listed.{view_of};

    ghost graph = { view_of };

    fn source(&self, d: DartId) -> VertexId {
        self.rows.source(d)
    }

    fn target(&self, d: DartId) -> VertexId {
        self.rows.target(d)
    }

    fn twin(&self, d: DartId) -> DartId {
        self.rows.twin(d)
    }

    fn next(&self, d: DartId) -> DartId {
        self.rows.next(d)
    }

    fn point(&self, v: VertexId) -> Point {
        self.rows.point(v)
    }

    fn line(&self, d: DartId) -> Line {
        self.rows.line(d)
    }

    fn pinned(&self, v: VertexId) -> bool {
        self.rows.pinned(v)
    }

    fn out_of(&self, v: VertexId) -> Option<DartId> {
        self.rows.out_of(v)
    }

    fn vertex_after(&self, v: Option<VertexId>) -> Option<VertexId> {
        self.rows.vertex_after(v)
    }

    fn dart_after(&self, d: Option<DartId>) -> Option<DartId> {
        self.rows.dart_after(d)
    }
}

impl Curved for Plain {
    ghost use Rattle.subdivision_rows.specs.Curves.{curves_at};

    ghost curve_list = { curves_at };

    fn curves(&self, alloc: Global, d: DartId) -> Result<Vec<CurveId>, NoMemory> {
        self.rows.curves(alloc, d)
    }
}

impl Faced for Plain {
    ghost use Rattle.subdivision_rows.specs.Listed.{faces_of};

    ghost faces = { faces_of };

    fn cycle(&self, d: DartId) -> CycleId {
        self.rows.cycle(d)
    }

    fn face(&self, c: CycleId) -> FaceId {
        self.rows.face(c)
    }

    fn kind(&self, c: CycleId) -> CycleKind {
        self.rows.kind(c)
    }

    fn bare_face(&self, v: VertexId) -> FaceId {
        self.rows.bare_face(v)
    }

    fn cycle_after(&self, c: Option<CycleId>) -> Option<CycleId> {
        self.rows.cycle_after(c)
    }

    fn face_after(&self, f: Option<FaceId>) -> Option<FaceId> {
        self.rows.face_after(f)
    }
}
