ghost use Rattle.std.specs.Prelude.{◌≡◌, ◌≢◌, ◌≤◌, [], option_map};
ghost use Rattle.slab_laws.specs.Tables.{row_at};
ghost use Rattle.slab_laws.specs.View.{HasDart, HasCycle, HasFace, cycle_in, face_id, kind_in};
ghost use Rattle.arr_notes.specs.FaceWriters.{with_cycle, without_cycle, with_face, without_face};
ghost use Rattle.dcel_records.specs.ListChanges.{cycle_listed, cycle_unlisted, cycle_relisted, dart_listed};
ghost use Rattle.dcel_records.specs.RecordsView.{graph_part, lists_of, IsSpareFaces};

use crate::areas::nothing;
use crate::links::{link_first, unlink};
use crate::records::{Records, no_rows_of_face};
use crate::rows::{Place, StoredCycle};
use slab_laws::{CycleId, CycleKind, DartId, FaceId};

impl Records {
    /// The kind and the face of the cycle, or `None` for a name without a record.
    pub fn cycle_of(&self, c: CycleId) -> Option<(CycleKind, FaceId)>
        ensures { result ≡ option_map (λ r. (r.kind, r.face)) (row_at self.now.faces.tables.cycles c.0) }
    {
        match self.cycles.get(c.0) {
            None => None,
            Some(cycle) => Some((cycle.kind, cycle.place.face)),
        }
    }

    /// A new face, in which nothing is, in room that is there.
    pub fn add_face(&mut self) -> FaceId
        requires { 1 ≤ self.old.faces.spare_faces }
        ensures name { ¬ HasFace self.old.faces.tables result }
        ensures tables { self.new.faces.tables ≡ with_face result self.old.faces.tables }
        ensures lists { lists_of self.new ≡ lists_of self.old }
        ensures spare { IsSpareFaces self.new.faces self.old.faces 0 1 }
        ensures moved { self.new.faces.moved ≡ self.old.faces.moved }
        ensures graph { graph_part self.new ≡ graph_part self.old }
        ensures mapped { self.new.mapped ≡ self.old.mapped }
    {
        FaceId(self.faces.insert_reserved(no_rows_of_face()))
    }

    /// A face in which nothing is goes, not the unbounded one.
    pub fn remove_face(&mut self, face: FaceId)
        requires face { HasFace self.old.faces.tables face }
        requires cycles { (lists_of self.old).cycles face ≡ [] }
        requires bare { (lists_of self.old).bare face ≡ [] }
        requires bounded { face ≢ face_id 0 }
        ensures tables { self.new.faces.tables ≡ without_face face self.old.faces.tables }
        ensures lists { lists_of self.new ≡ lists_of self.old }
        ensures spare { IsSpareFaces self.old.faces self.new.faces 0 1 }
        ensures moved { self.new.faces.moved ≡ self.old.faces.moved }
        ensures graph { graph_part self.new ≡ graph_part self.old }
        ensures mapped { self.new.mapped ≡ self.old.mapped }
    {
        self.faces.remove(face.0);
    }

    /// A new cycle, the first of the face, in room that is there; the dart is kept for it.
    pub fn add_cycle(&mut self, kind: CycleKind, face: FaceId, dart: DartId) -> CycleId
        requires room { 1 ≤ self.old.faces.spare_cycles }
        requires face { HasFace self.old.faces.tables face }
        ensures name { ¬ HasCycle self.old.faces.tables result }
        ensures tables { self.new.faces.tables ≡ with_cycle result kind face self.old.faces.tables }
        ensures lists { lists_of self.new ≡ cycle_listed result face dart (lists_of self.old) }
        ensures spare { IsSpareFaces self.new.faces self.old.faces 1 0 }
        ensures moved { self.new.faces.moved ≡ self.old.faces.moved }
        ensures graph { graph_part self.new ≡ graph_part self.old }
        ensures mapped { self.new.mapped ≡ self.old.mapped }
    {
        let place = Place {
            face,
            before: None,
            after: None,
        };
        let cycle = self.cycles.insert_reserved(StoredCycle {
            kind,
            dart,
            place,
            area: nothing(),
        });
        link_first(&mut self.cycles, &mut self.faces, cycle, face);
        CycleId(cycle)
    }

    /// A cycle that no dart is on goes.
    pub fn remove_cycle(&mut self, c: CycleId)
        requires cycle { HasCycle self.old.faces.tables c }
        requires off { (d : _) → HasDart self.old.graph d → cycle_in self.old.faces.tables d ≢ c }
        ensures tables { self.new.faces.tables ≡ without_cycle c self.old.faces.tables }
        ensures lists { lists_of self.new ≡ cycle_unlisted c (lists_of self.old) }
        ensures spare { IsSpareFaces self.old.faces self.new.faces 1 0 }
        ensures moved { self.new.faces.moved ≡ self.old.faces.moved }
        ensures graph { graph_part self.new ≡ graph_part self.old }
        ensures mapped { self.new.mapped ≡ self.old.mapped }
    {
        unlink(&mut self.cycles, &mut self.faces, c.0);
        self.cycles.remove(c.0);
    }

    /// The cycle becomes the first of another face, or of its own.
    pub fn move_cycle(&mut self, c: CycleId, face: FaceId)
        requires cycle { HasCycle self.old.faces.tables c }
        requires face { HasFace self.old.faces.tables face }
        ensures tables { self.new.faces.tables ≡ with_cycle c (kind_in self.old.faces.tables c) face self.old.faces.tables }
        ensures lists { lists_of self.new ≡ cycle_relisted c face (lists_of self.old) }
        ensures spare { IsSpareFaces self.old.faces self.new.faces 0 0 }
        ensures moved { self.new.faces.moved ≡ self.old.faces.moved }
        ensures graph { graph_part self.new ≡ graph_part self.old }
        ensures mapped { self.new.mapped ≡ self.old.mapped }
    {
        unlink(&mut self.cycles, &mut self.faces, c.0);
        link_first(&mut self.cycles, &mut self.faces, c.0, face);
    }

    /// Another dart is kept for the cycle.
    pub fn set_dart(&mut self, c: CycleId, dart: DartId)
        requires { HasCycle self.old.faces.tables c }
        ensures tables { self.new.faces.tables ≡ self.old.faces.tables }
        ensures lists { lists_of self.new ≡ dart_listed c dart (lists_of self.old) }
        ensures spare { IsSpareFaces self.old.faces self.new.faces 0 0 }
        ensures moved { self.new.faces.moved ≡ self.old.faces.moved }
        ensures graph { graph_part self.new ≡ graph_part self.old }
        ensures mapped { self.new.mapped ≡ self.old.mapped }
    {
        self.cycles[c.0].dart = dart;
    }
}
