ghost use Rattle.std.specs.Prelude.{◌≡◌};
ghost use Rattle.std.specs.Option.{option_map};
ghost use Rattle.slab.specs.Slab.{entries};
ghost use Rattle.slab_laws.specs.Tables.{name_after, names};
ghost use Rattle.slab_laws.specs.View.{cycle_id, face_id};

use crate::links::Placed;
use crate::records::Records;
use crate::rows::{StoredCycle, StoredFace};
use crate::table::Table;
use slab_laws::{CycleId, CycleKind, DartId, FaceId, Faced, VertexId};

fn cycle_name_after(cycles: &Table<StoredCycle>, name: Option<CycleId>) -> Option<CycleId>
    ensures { result ≡ option_map cycle_id (name_after (names (entries cycles.now)) (option_map (λ n. n.0) name)) }
{
    cycles.key_after(name.map(|n| n.0)).map(CycleId)
}

fn face_name_after(faces: &Table<StoredFace>, name: Option<FaceId>) -> Option<FaceId>
    ensures { result ≡ option_map face_id (name_after (names (entries faces.now)) (option_map (λ n. n.0) name)) }
{
    faces.key_after(name.map(|n| n.0)).map(FaceId)
}

impl Faced for Records {
    ghost use Rattle.dcel_records.specs.RecordsView.{tables_of};

    ghost faces = { tables_of };

    fn cycle(&self, d: DartId) -> CycleId {
        self.darts[d.0].cycle
    }

    fn face(&self, c: CycleId) -> FaceId {
        self.cycles[c.0].place.face
    }

    fn kind(&self, c: CycleId) -> CycleKind {
        self.cycles[c.0].kind
    }

    fn bare_face(&self, v: VertexId) -> FaceId {
        self.vertices[v.0].place().face
    }

    fn cycle_after(&self, c: Option<CycleId>) -> Option<CycleId> {
        cycle_name_after(&self.cycles, c)
    }

    fn face_after(&self, f: Option<FaceId>) -> Option<FaceId> {
        face_name_after(&self.faces, f)
    }
}
