ghost use Rattle.std.specs.Prelude.{◌≤◌, length};
ghost use Rattle.slab_laws.specs.FaceLists.{AreFacesListed};
ghost use Rattle.slab_laws.specs.Tables.{names, NamesAscend};
ghost use Rattle.slab_laws.specs.View.{HasBareFace, HasFace, HasVertex, face_id};
ghost use Rattle.dcel_records.specs.RecordsView.{lists_of};

use crate::records::Records;

impl Records {
    /// What is true of the faces of all records: each lists its own cycles and isolated vertices, the unbounded one is
    /// there, what is isolated has a record, no list is longer than what fits, no more cycles are there than fit, and names
    /// ascend.
    pub fn face_laws(&self)
        ensures listed { AreFacesListed self.now.faces.tables (lists_of self.now) }
        ensures unbounded { HasFace self.now.faces.tables (face_id 0) }
        ensures isolated { (v : _) → HasBareFace self.now.faces.tables v → HasVertex self.now.graph v }
        ensures cycles_fit { (a : _) → length ((lists_of self.now).cycles a) ≤ self.now.faces.capacity_of_cycles }
        ensures all_cycles_fit { length self.now.faces.tables.cycles ≤ self.now.faces.capacity_of_cycles }
        ensures vertices_fit { (a : _) → length ((lists_of self.now).bare a) ≤ self.now.capacity_of_vertices }
        ensures cycles_ascend { NamesAscend (names self.now.faces.tables.cycles) }
        ensures faces_ascend { NamesAscend self.now.faces.tables.faces }
        ensures cycle_of_ascend { NamesAscend (names self.now.faces.tables.cycle_of) }
        ensures bare_ascend { NamesAscend (names self.now.faces.tables.bare) }
    {
        // Any use of a field tells what is kept.
        let _faces = &self.faces;
    }
}
