ghost use Rattle.std.specs.Prelude.{◌≡◌};
ghost use Rattle.curve_history.specs.DrawnRecords.{IsTold};

use crate::history::History;
use exact_plane::{Line, Point};
use no_memory::NoMemory;
use slab_laws::{CurveId, Curved, CycleId, CycleKind, DartId, Darts, FaceId, Faced, VertexId};
use std::alloc::Global;
use std::marker::Model;

/// Records beside the history of their curves: a graph whose edges know their curves.
///
/// The history's edges are those of the records.
#[derive(Drop)]
pub struct Drawn<'a, R: Darts> {
    records: &'a R,
    history: &'a History,
}

impl<'a, R: Darts> Model for Drawn<'a, R> {
    ghost use Rattle.curve_history.specs.DrawnRecords.{DrawnRecords, IsTold};

    ghost Value = { DrawnRecords R };

    ghost view = { λ d. record { records = d.records.now; history = d.history.now } };

    ghost invariant = { λ d. IsTold (R.graph d.records.now) d.history.now };
}

impl<'a, R: Darts> Drawn<'a, R> {
    /// Records with the history of their edges.
    pub fn new(records: &'a R, history: &'a History) -> Drawn<'a, R>
        requires { IsTold (R.graph records.now) history.now }
        ensures records { result.records ≡ records.now }
        ensures history { result.history ≡ history.now }
    {
        Drawn { records, history }
    }
}

impl<'a, R: Darts> Darts for Drawn<'a, R> {
    ghost graph = { λ d. R.graph d.records };

    fn source(&self, d: DartId) -> VertexId {
        self.records.source(d)
    }

    fn target(&self, d: DartId) -> VertexId {
        self.records.target(d)
    }

    fn twin(&self, d: DartId) -> DartId {
        self.records.twin(d)
    }

    fn next(&self, d: DartId) -> DartId {
        self.records.next(d)
    }

    fn point(&self, v: VertexId) -> Point {
        self.records.point(v)
    }

    fn line(&self, d: DartId) -> Line {
        self.records.line(d)
    }

    fn pinned(&self, v: VertexId) -> bool {
        self.records.pinned(v)
    }

    fn out_of(&self, v: VertexId) -> Option<DartId> {
        self.records.out_of(v)
    }

    fn vertex_after(&self, v: Option<VertexId>) -> Option<VertexId> {
        self.records.vertex_after(v)
    }

    fn dart_after(&self, d: Option<DartId>) -> Option<DartId> {
        self.records.dart_after(d)
    }
}

impl<'a, R: Darts> Curved for Drawn<'a, R> {
    ghost use Rattle.curve_history.specs.DrawnRecords.{curves_in};

    ghost curve_list = { λ r d. curves_in (R.graph r.records) r.history d };

    fn curves(&self, alloc: Global, d: DartId) -> Result<Vec<CurveId>, NoMemory> {
        // Of two twins the one from the lower to the upper end has curves, and the other none.
        let twin = self.records.twin(d);
        if self.history.has_curves(d) {
            self.history.curves_of(alloc, d)
        } else {
            self.history.curves_of(alloc, twin)
        }
    }
}

impl<'a, R: Faced> Faced for Drawn<'a, R> {
    ghost faces = { λ d. R.faces d.records };

    fn cycle(&self, d: DartId) -> CycleId {
        self.records.cycle(d)
    }

    fn face(&self, c: CycleId) -> FaceId {
        self.records.face(c)
    }

    fn kind(&self, c: CycleId) -> CycleKind {
        self.records.kind(c)
    }

    fn bare_face(&self, v: VertexId) -> FaceId {
        self.records.bare_face(v)
    }

    fn cycle_after(&self, c: Option<CycleId>) -> Option<CycleId> {
        self.records.cycle_after(c)
    }

    fn face_after(&self, f: Option<FaceId>) -> Option<FaceId> {
        self.records.face_after(f)
    }
}
