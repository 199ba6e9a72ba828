ghost use Rattle.std.specs.Prelude.{◌≡◌, option_map};
ghost use Rattle.slab_laws.specs.View.{cycle_id, vertex_id};

use crate::links::Placed;
use crate::records::Records;
use slab_laws::{CycleId, DartId, FaceId, FaceLists, VertexId};

fn cycle_named(name: Option<usize>) -> Option<CycleId>
    ensures { result ≡ option_map cycle_id name }
{
    name.map(CycleId)
}

fn vertex_named(name: Option<usize>) -> Option<VertexId>
    ensures { result ≡ option_map vertex_id name }
{
    name.map(VertexId)
}

impl FaceLists for Records {
    ghost use Rattle.dcel_records.specs.RecordsView.{lists_of};

    ghost lists = { lists_of };

    fn first_cycle_of(&self, face: FaceId) -> Option<CycleId> {
        cycle_named(self.faces[face.0].first_cycle)
    }

    fn cycle_after_in_face(&self, cycle: CycleId) -> Option<CycleId> {
        cycle_named(self.cycles[cycle.0].place.after)
    }

    fn dart_on(&self, cycle: CycleId) -> DartId {
        self.cycles[cycle.0].dart
    }

    fn first_isolated_in(&self, face: FaceId) -> Option<VertexId> {
        vertex_named(self.faces[face.0].first_bare)
    }

    fn isolated_after_in_face(&self, v: VertexId) -> Option<VertexId> {
        vertex_named(self.vertices[v.0].place().after)
    }
}
