ghost use Rattle.std.specs.Prelude.{◌≡◌, IfOk};
ghost use Rattle.arr_notes.specs.CurvedView.{IsSoundView, view_text};
ghost use Rattle.mirror_observer.specs.DartsOut.{AreOuts};
ghost use Rattle.mirror_observer.specs.Standing.{view_in};

use crate::outs::{out_at, outs_of};
use crate::tables::Tables;
use arr_text::text;
use exact_plane::{Line, Point};
use no_memory::NoMemory;
use slab_laws::{CurveId, Curved, CycleId, CycleKind, DartId, Darts, FaceId, Faced, VertexId};
use std::alloc::Global;
use std::collections::BTreeMap;
use std::marker::Model;

/// Maps that stand for a sound view, read by name, with one dart out of each vertex that darts leave.
#[derive(Drop)]
pub(crate) struct Seen<'a> {
    tables: &'a Tables,
    outs: BTreeMap<usize, DartId>,
}

impl<'a> Model for Seen<'a> {
    ghost use Rattle.arr_notes.specs.CurvedView.{CurvedView, IsSoundView};
    ghost use Rattle.mirror_observer.specs.DartsOut.{AreOuts};
    ghost use Rattle.mirror_observer.specs.Standing.{view_in};

    ghost Value = { CurvedView };

    ghost view = { λ s. view_in s.tables.now };

    ghost invariant = { λ s. IsSoundView (view_in s.tables.now) × AreOuts s.tables.now.darts.entries s.outs.entries };
}

impl<'a> Seen<'a> {
    fn new(alloc: Global, tables: &'a Tables) -> Result<Seen<'a>, NoMemory>
        requires { IsSoundView (view_in tables.now) }
        ensures { IfOk result (λ s. s ≡ view_in tables.now) }
    {
        let outs = outs_of(alloc, &tables.darts)?;
        Ok(Seen { tables, outs })
    }
}

impl<'a> Darts for Seen<'a> {
    ghost graph = { λ s. s.graph };

    fn source(&self, d: DartId) -> VertexId {
        self.tables.source(d)
    }

    fn target(&self, d: DartId) -> VertexId {
        self.tables.source(self.tables.twin(d))
    }

    fn twin(&self, d: DartId) -> DartId {
        self.tables.twin(d)
    }

    fn next(&self, d: DartId) -> DartId {
        self.tables.next(d)
    }

    fn point(&self, v: VertexId) -> Point {
        self.tables.point(v)
    }

    fn line(&self, d: DartId) -> Line {
        self.tables.line(d)
    }

    fn pinned(&self, v: VertexId) -> bool {
        self.tables.pinned(v)
    }

    fn out_of(&self, v: VertexId) -> Option<DartId> {
        out_at(&self.outs, v)
    }

    fn vertex_after(&self, v: Option<VertexId>) -> Option<VertexId> {
        self.tables.vertex_after(v)
    }

    fn dart_after(&self, d: Option<DartId>) -> Option<DartId> {
        self.tables.dart_after(d)
    }
}

impl<'a> Curved for Seen<'a> {
    ghost use Rattle.mirror_observer.specs.SeenCurves.{curve_list_of};

    ghost curve_list = { curve_list_of };

    fn curves(&self, alloc: Global, d: DartId) -> Result<Vec<CurveId>, NoMemory> {
        let list = self.tables.curves(alloc, d)?;
        Ok(list.into_vec())
    }
}

impl<'a> Faced for Seen<'a> {
    ghost faces = { λ s. s.faces };

    fn cycle(&self, d: DartId) -> CycleId {
        self.tables.cycle(d)
    }

    fn face(&self, c: CycleId) -> FaceId {
        self.tables.face(c)
    }

    fn kind(&self, c: CycleId) -> CycleKind {
        self.tables.kind(c)
    }

    fn bare_face(&self, v: VertexId) -> FaceId {
        self.tables.bare_face(v)
    }

    fn cycle_after(&self, c: Option<CycleId>) -> Option<CycleId> {
        self.tables.cycle_after(c)
    }

    fn face_after(&self, f: Option<FaceId>) -> Option<FaceId> {
        self.tables.face_after(f)
    }
}

/// The text of what the maps say, cycles and faces included.
///
/// # Errors
///
/// There was no memory for the text or for a table on the way.
pub(crate) fn text_of(alloc: Global, tables: &Tables) -> Result<Vec<u8>, NoMemory>
    requires { IsSoundView (view_in tables.now) }
    ensures { IfOk result (λ bytes. bytes.items ≡ view_text (view_in tables.now)) }
{
    let seen = Seen::new(alloc, tables)?;
    let bytes = text(alloc, &seen)?;
    Ok(bytes)
}
