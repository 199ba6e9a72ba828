ghost use Rattle.std.specs.Prelude.{◌≡◌, OnOk};
ghost use Rattle.slab_laws.specs.View.{cycle_in, face_in, kind_in, bare_face_in};
ghost use Rattle.arr_notes.specs.FaceWriters.{on_cycle, off_cycles, bare_in, not_bare, with_cycle, without_cycle, with_face, without_face};
ghost use Rattle.mirror_observer.specs.FaceTables.{faces_in};

use no_memory::NoMemory;
use slab_laws::{CycleId, CycleKind, DartId, FaceId, VertexId};
use std::collections::{BTreeMap, BTreeSet};

/// What is kept of a cycle.
#[derive(Clone, Copy)]
pub struct CycleEntry {
    pub kind: CycleKind,
    pub face: FaceId,
}

/// Cycles and faces by name: the cycle of each dart, the face of each isolated vertex, the cycles, and the names of faces.
#[derive(Drop)]
pub struct FaceTables {
    pub(crate) cycle_of: BTreeMap<usize, CycleId>,
    pub(crate) bare: BTreeMap<usize, FaceId>,
    pub(crate) cycles: BTreeMap<usize, CycleEntry>,
    pub(crate) faces: BTreeSet<usize>,
}

impl FaceTables {
    // The dart is on the cycle.
    pub(crate) fn set_cycle(&mut self, d: DartId, cycle: CycleId) -> Result<(), NoMemory>
        ensures { OnOk result (faces_in self.new ≡ on_cycle d cycle (faces_in self.old)) }
    {
        self.cycle_of.insert(d.0, cycle)?;
        Ok(())
    }

    // The dart is gone.
    pub(crate) fn drop_dart(&mut self, d: DartId)
        ensures { faces_in self.new ≡ off_cycles d (faces_in self.old) }
    {
        let _cycle = self.cycle_of.remove(&d.0);
    }

    // The vertex is isolated in the face.
    pub(crate) fn set_bare(&mut self, v: VertexId, face: FaceId) -> Result<(), NoMemory>
        ensures { OnOk result (faces_in self.new ≡ bare_in v face (faces_in self.old)) }
    {
        self.bare.insert(v.0, face)?;
        Ok(())
    }

    // The vertex isn't isolated, or is gone.
    pub(crate) fn drop_bare(&mut self, v: VertexId)
        ensures { faces_in self.new ≡ not_bare v (faces_in self.old) }
    {
        let _face = self.bare.remove(&v.0);
    }

    // One more cycle.
    pub(crate) fn add_cycle(
        &mut self,
        cycle: CycleId,
        kind: CycleKind,
        face: FaceId,
    ) -> Result<(), NoMemory>
        ensures { OnOk result (faces_in self.new ≡ with_cycle cycle kind face (faces_in self.old)) }
    {
        let entry = CycleEntry { kind, face };
        self.cycles.insert(cycle.0, entry)?;
        Ok(())
    }

    // One cycle fewer.
    pub(crate) fn drop_cycle(&mut self, cycle: CycleId)
        ensures { faces_in self.new ≡ without_cycle cycle (faces_in self.old) }
    {
        let _entry = self.cycles.remove(&cycle.0);
    }

    // One more face.
    pub(crate) fn add_face(&mut self, face: FaceId) -> Result<(), NoMemory>
        ensures { OnOk result (faces_in self.new ≡ with_face face (faces_in self.old)) }
    {
        self.faces.insert(face.0)?;
        Ok(())
    }

    // One face fewer.
    pub(crate) fn drop_face(&mut self, face: FaceId)
        ensures { faces_in self.new ≡ without_face face (faces_in self.old) }
    {
        let _was_there = self.faces.remove(&face.0);
    }

    // The cycle of a dart; without one, the one named 0.
    pub(crate) fn cycle_at(&self, d: DartId) -> CycleId
        ensures { result ≡ cycle_in (faces_in self.now) d }
    {
        match self.cycle_of.get(&d.0).copied() {
            Some(cycle) => cycle,
            None => CycleId(0),
        }
    }

    // The face that a cycle bounds; without an entry, the one named 0.
    pub(crate) fn face_at(&self, cycle: CycleId) -> FaceId
        ensures { result ≡ face_in (faces_in self.now) cycle }
    {
        match self.cycles.get(&cycle.0).copied() {
            Some(entry) => entry.face,
            None => FaceId(0),
        }
    }

    // Whether a cycle bounds its face from outside; without an entry it is a hole.
    pub(crate) fn kind_at(&self, cycle: CycleId) -> CycleKind
        ensures { result ≡ kind_in (faces_in self.now) cycle }
    {
        match self.cycles.get(&cycle.0).copied() {
            Some(entry) => entry.kind,
            None => CycleKind::Inner,
        }
    }

    // The face of an isolated vertex; without one, the one named 0.
    pub(crate) fn bare_at(&self, v: VertexId) -> FaceId
        ensures { result ≡ bare_face_in (faces_in self.now) v }
    {
        match self.bare.get(&v.0).copied() {
            Some(face) => face,
            None => FaceId(0),
        }
    }
}
