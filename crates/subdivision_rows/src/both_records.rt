ghost use Rattle.std.specs.Prelude.{◌≡◌, ◌<◌, length};
ghost use Rattle.plane_graphs.specs.Graph.{edges};
ghost use Rattle.slab_laws.specs.View.{HasDart, twin_in};
ghost use Rattle.subdivision_rows.specs.Listed.{view_of};
ghost use Rattle.subdivision_rows.specs.OverlayInMemory.{edge_place_at};

use crate::both::Both;
use crate::rows::Rows;
use exact_plane::{Line, Point};
use no_memory::NoMemory;
use slab_laws::{CurveId, CycleId, CycleKind, DartId, Darts, FaceId, Faced, Layered, VertexId};
use std::alloc::Global;

// The place of the edge that a dart goes along.
pub(crate) fn edge_of(rows: &Rows, d: DartId) -> usize
    requires { HasDart (view_of rows.now) d }
    ensures place { result ≡ edge_place_at rows.now d.0 }
    ensures below { result < length (edges rows.now.graph) }
    ensures twin { edge_place_at rows.now (twin_in (view_of rows.now) d).0 ≡ edge_place_at rows.now d.0 }
{
    rows.lists.darts[d.0].edge
}

impl Darts for Both {
    ghost use Rattle.subdivision_rows.specs.OverlayInMemory.{graph_of};

    ghost graph = { graph_of };

    fn source(&self, d: DartId) -> VertexId {
        self.rows.source(d)
    }

    fn target(&self, d: DartId) -> VertexId {
        self.rows.target(d)
    }

    fn twin(&self, d: DartId) -> DartId {
        self.rows.twin(d)
    }

    fn next(&self, d: DartId) -> DartId {
        self.rows.next(d)
    }

    fn point(&self, v: VertexId) -> Point {
        self.rows.point(v)
    }

    fn line(&self, d: DartId) -> Line {
        self.rows.line(d)
    }

    fn pinned(&self, v: VertexId) -> bool {
        self.rows.pinned(v)
    }

    fn out_of(&self, v: VertexId) -> Option<DartId> {
        self.rows.out_of(v)
    }

    fn vertex_after(&self, v: Option<VertexId>) -> Option<VertexId> {
        self.rows.vertex_after(v)
    }

    fn dart_after(&self, d: Option<DartId>) -> Option<DartId> {
        self.rows.dart_after(d)
    }
}

impl Faced for Both {
    ghost use Rattle.subdivision_rows.specs.OverlayInMemory.{faces_in};

    ghost faces = { faces_in };

    fn cycle(&self, d: DartId) -> CycleId {
        self.rows.cycle(d)
    }

    fn face(&self, c: CycleId) -> FaceId {
        self.rows.face(c)
    }

    fn kind(&self, c: CycleId) -> CycleKind {
        self.rows.kind(c)
    }

    fn bare_face(&self, v: VertexId) -> FaceId {
        self.rows.bare_face(v)
    }

    fn cycle_after(&self, c: Option<CycleId>) -> Option<CycleId> {
        self.rows.cycle_after(c)
    }

    fn face_after(&self, f: Option<FaceId>) -> Option<FaceId> {
        self.rows.face_after(f)
    }
}

impl Layered for Both {
    ghost use Rattle.subdivision_rows.specs.OverlayInMemory.{red_of, blue_of};

    ghost red = { red_of };

    ghost blue = { blue_of };

    fn red_curves(&self, alloc: Global, d: DartId) -> Result<Vec<CurveId>, NoMemory> {
        let curves = self.red.curves_at(alloc, edge_of(&self.rows, d))?;
        Ok(curves)
    }

    fn blue_curves(&self, alloc: Global, d: DartId) -> Result<Vec<CurveId>, NoMemory> {
        let curves = self.blue.curves_at(alloc, edge_of(&self.rows, d))?;
        Ok(curves)
    }

    fn red_of(&self, f: FaceId) -> usize {
        self.red.label_at(f.0)
    }

    fn blue_of(&self, f: FaceId) -> usize {
        self.blue.label_at(f.0)
    }
}
