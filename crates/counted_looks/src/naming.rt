use crate::name_calls::NameCalls;
use dcel_records::Records;
use slab_laws::{CycleId, DartId, Darts, FaceId, FaceLists, Faced, VertexId};

impl NameCalls for Records {
    ghost use Rattle.dcel_records.specs.RecordsView.{graph_of, tables_of, lists_of};

    ghost graph = { graph_of };

    ghost faces = { tables_of };

    ghost lists = { lists_of };

    fn source(&self, d: DartId) -> VertexId {
        Darts::source(self, d)
    }

    fn target(&self, d: DartId) -> VertexId {
        Darts::target(self, d)
    }

    fn twin(&self, d: DartId) -> DartId {
        Darts::twin(self, d)
    }

    fn next(&self, d: DartId) -> DartId {
        Darts::next(self, d)
    }

    fn out_of(&self, v: VertexId) -> Option<DartId> {
        Darts::out_of(self, v)
    }

    fn vertex_after(&self, v: Option<VertexId>) -> Option<VertexId> {
        Darts::vertex_after(self, v)
    }

    fn dart_after(&self, d: Option<DartId>) -> Option<DartId> {
        Darts::dart_after(self, d)
    }

    fn cycle(&self, d: DartId) -> CycleId {
        Faced::cycle(self, d)
    }

    fn face(&self, c: CycleId) -> FaceId {
        Faced::face(self, c)
    }

    fn bare_face(&self, v: VertexId) -> FaceId {
        Faced::bare_face(self, v)
    }

    fn cycle_after(&self, c: Option<CycleId>) -> Option<CycleId> {
        Faced::cycle_after(self, c)
    }

    fn face_after(&self, f: Option<FaceId>) -> Option<FaceId> {
        Faced::face_after(self, f)
    }

    fn first_cycle_of(&self, face: FaceId) -> Option<CycleId> {
        FaceLists::first_cycle_of(self, face)
    }

    fn cycle_after_in_face(&self, cycle: CycleId) -> Option<CycleId> {
        FaceLists::cycle_after_in_face(self, cycle)
    }

    fn dart_on(&self, cycle: CycleId) -> DartId {
        FaceLists::dart_on(self, cycle)
    }

    fn first_isolated_in(&self, face: FaceId) -> Option<VertexId> {
        FaceLists::first_isolated_in(self, face)
    }

    fn isolated_after_in_face(&self, v: VertexId) -> Option<VertexId> {
        FaceLists::isolated_after_in_face(self, v)
    }
}
