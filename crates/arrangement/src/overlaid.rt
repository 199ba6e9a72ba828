ghost use Rattle.std.specs.Prelude.{◌≡◌, slice_index_or, IfOk};
ghost use Rattle.slab_laws.specs.View.{HasDart};
ghost use Rattle.subdivision_rows.specs.OverlayInMemory.{graph_of as overlay_graph, edge_place_at};
ghost use Rattle.arrangement.specs.Overlays.{text_of};

use exact_plane::{Line, Point};
use no_memory::NoMemory;
use slab_laws::{CurveId, CycleId, CycleKind, DartId, Darts, FaceId, Faced, Layered, VertexId};
use std::alloc::Global;
use std::marker::Model;
use subdivision_rows::Both;

/// The overlay of two layers, red and blue: the subdivision of the plane by the segments and points of both, whose edges know
/// their curves of each layer and whose faces know the faces of each layer that hold them (CGAL manual, `overlay`).
#[derive(Drop)]
pub struct Overlay {
    pub(crate) both: Both,
}

impl Model for Overlay {
    ghost use Rattle.subdivision_rows.specs.OverlayInMemory.{Overlaid};
    ghost use Rattle.slab_laws.specs.FacesSound.{IsSound};
    ghost use Rattle.subdivision_rows.specs.Listed.{view_of, faces_of};

    ghost Value = { Overlaid };

    ghost view = { λ o. o.both };

    ghost invariant = { λ o. IsSound (view_of o.both.drawing) (faces_of o.both.drawing) };
}

impl Overlay {
    /// The text of the overlay.
    ///
    /// # Errors
    ///
    /// There was no memory for it.
    pub fn text(&self) -> Result<Vec<u8>, NoMemory>
        ensures { IfOk result (λ bytes. bytes.items ≡ text_of self.now) }
    {
        self.both.text()
    }

    /// How many red pieces hold the edge of a dart. A curve several of whose sides run along it counts several times.
    pub fn red_pieces(&self, d: DartId) -> usize
        requires { HasDart (overlay_graph self.now) d }
        ensures { result ≡ slice_index_or self.now.red_pieces (edge_place_at self.now.drawing d.0) 0 }
    {
        self.both.red_pieces(d)
    }

    /// How many blue pieces hold the edge of a dart.
    pub fn blue_pieces(&self, d: DartId) -> usize
        requires { HasDart (overlay_graph self.now) d }
        ensures { result ≡ slice_index_or self.now.blue_pieces (edge_place_at self.now.drawing d.0) 0 }
    {
        self.both.blue_pieces(d)
    }
}

impl Darts for Overlay {
    ghost use Rattle.subdivision_rows.specs.OverlayInMemory.{graph_of};

    ghost graph = { graph_of };

    fn source(&self, d: DartId) -> VertexId {
        self.both.source(d)
    }

    fn target(&self, d: DartId) -> VertexId {
        self.both.target(d)
    }

    fn twin(&self, d: DartId) -> DartId {
        self.both.twin(d)
    }

    fn next(&self, d: DartId) -> DartId {
        self.both.next(d)
    }

    fn point(&self, v: VertexId) -> Point {
        self.both.point(v)
    }

    fn line(&self, d: DartId) -> Line {
        self.both.line(d)
    }

    fn pinned(&self, v: VertexId) -> bool {
        self.both.pinned(v)
    }

    fn out_of(&self, v: VertexId) -> Option<DartId> {
        self.both.out_of(v)
    }

    fn vertex_after(&self, v: Option<VertexId>) -> Option<VertexId> {
        self.both.vertex_after(v)
    }

    fn dart_after(&self, d: Option<DartId>) -> Option<DartId> {
        self.both.dart_after(d)
    }
}

impl Faced for Overlay {
    ghost use Rattle.subdivision_rows.specs.OverlayInMemory.{faces_in};

    ghost faces = { faces_in };

    fn cycle(&self, d: DartId) -> CycleId {
        self.both.cycle(d)
    }

    fn face(&self, c: CycleId) -> FaceId {
        self.both.face(c)
    }

    fn kind(&self, c: CycleId) -> CycleKind {
        self.both.kind(c)
    }

    fn bare_face(&self, v: VertexId) -> FaceId {
        self.both.bare_face(v)
    }

    fn cycle_after(&self, c: Option<CycleId>) -> Option<CycleId> {
        self.both.cycle_after(c)
    }

    fn face_after(&self, f: Option<FaceId>) -> Option<FaceId> {
        self.both.face_after(f)
    }
}

impl Layered for Overlay {
    ghost use Rattle.subdivision_rows.specs.OverlayInMemory.{red_of, blue_of};

    ghost red = { red_of };

    ghost blue = { blue_of };

    fn red_curves(&self, alloc: Global, d: DartId) -> Result<Vec<CurveId>, NoMemory> {
        self.both.red_curves(alloc, d)
    }

    fn blue_curves(&self, alloc: Global, d: DartId) -> Result<Vec<CurveId>, NoMemory> {
        self.both.blue_curves(alloc, d)
    }

    fn red_of(&self, f: FaceId) -> usize {
        self.both.red_of(f)
    }

    fn blue_of(&self, f: FaceId) -> usize {
        self.both.blue_of(f)
    }
}
