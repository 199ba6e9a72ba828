ghost use Rattle.std.specs.Prelude.{◌≡◌, []};
ghost use Rattle.arr_notes.specs.FaceWriters.{moved_to};
ghost use Rattle.arr_notes.specs.NamedRows.{edit};
ghost use Rattle.mirror_observer.specs.FaceTables.{faces_in, in_face};

use crate::faces::{CycleEntry, FaceTables};
use slab_laws::{CycleId, FaceId, Moved, VertexId};
use std::collections::BTreeMap;

// The cycle is in the face, if it has an entry.
fn move_cycle(cycles: &mut BTreeMap<usize, CycleEntry>, cycle: CycleId, face: FaceId)
    ensures { cycles.new.entries ≡ edit cycle.0 (in_face face) cycles.old.entries }
{
    if let Some(entry) = cycles.get_mut(&cycle.0) {
        entry.face = face;
    }
}

// The vertex is isolated in the face, if it is isolated.
fn move_vertex(bare: &mut BTreeMap<usize, FaceId>, v: VertexId, face: FaceId)
    ensures { bare.new.entries ≡ edit v.0 (λ b. face) bare.old.entries }
{
    if let Some(entry) = bare.get_mut(&v.0) {
        *entry = face;
    }
}

impl FaceTables {
    // The cycles are in the face.
    fn move_cycles(&mut self, list: &[CycleId], face: FaceId)
        ensures { faces_in self.new ≡ moved_to list.now [] face (faces_in self.old) }
    {
        for cycle in list {
            move_cycle(&mut self.cycles, *cycle, face);
        }
    }

    // The isolated vertices are in the face.
    fn move_vertices(&mut self, list: &[VertexId], face: FaceId)
        ensures { faces_in self.new ≡ moved_to [] list.now face (faces_in self.old) }
    {
        for v in list {
            move_vertex(&mut self.bare, *v, face);
        }
    }

    // The cycles and isolated vertices are in the face.
    pub(crate) fn move_all(&mut self, moved: &Moved, face: FaceId)
        ensures { faces_in self.new ≡ moved_to moved.now.cycles moved.now.vertices face (faces_in self.old) }
    {
        self.move_cycles(moved.cycles(), face);
        self.move_vertices(moved.vertices(), face);
    }
}
