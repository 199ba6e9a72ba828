ghost use Rattle.std.specs.Prelude.{◌≡◌, ◌≢◌, Some, IfSome, IfNone, OnOk};
ghost use Rattle.slab_laws.specs.View.{HasDart, cycle_in};
ghost use Rattle.arr_notes.specs.FaceSteps.{in_two, in_one, new_hole, grows, joins, vanishes, unites, cleared, step_faces};
ghost use Rattle.arr_notes.specs.FaceWriters.{on_cycle, off_cycles, bare_in, recycled};
ghost use Rattle.arr_notes.specs.ViewChanges.{no_rows};
ghost use Rattle.mirror_observer.specs.FaceParts.{AreFacesSound, IsFoundAt, HasEntry};
ghost use Rattle.mirror_observer.specs.FaceTables.{faces_in};
ghost use Rattle.mirror_observer.specs.Tables.{darts_of};

use crate::faces::FaceTables;
use crate::tables::DartEntry;
use no_memory::NoMemory;
use slab_laws::{CycleId, CycleKind, DartId, FaceId, Moved, VertexId};
use std::collections::BTreeMap;

impl FaceTables {
    // Both darts are on the cycle.
    pub(crate) fn set_both(&mut self, d: DartId, m: DartId, cycle: CycleId) -> Result<(), NoMemory>
        ensures { OnOk result (faces_in self.new ≡ on_cycle m cycle (on_cycle d cycle (faces_in self.old))) }
    {
        self.set_cycle(d, cycle)?;
        self.set_cycle(m, cycle)?;
        Ok(())
    }

    // Both darts are gone.
    pub(crate) fn drop_both(&mut self, d: DartId, m: DartId)
        ensures { faces_in self.new ≡ off_cycles m (off_cycles d (faces_in self.old)) }
    {
        self.drop_dart(d);
        self.drop_dart(m);
    }

    // ---- single darts and vertices
    // An edge in two: `n` and `m`, of the new part, are on the cycles of `d` and of its twin.
    pub(crate) fn part(
        &mut self,
        d: DartId,
        twin: DartId,
        n: DartId,
        m: DartId,
    ) -> Result<(), NoMemory>
        ensures { OnOk result (faces_in self.new ≡ step_faces no_rows (faces_in self.old) (in_two d twin n m)) }
    {
        let left = self.cycle_at(d);
        let right = self.cycle_at(twin);
        self.set_cycle(n, left)?;
        self.set_cycle(m, right)?;
        Ok(())
    }

    // Two edges in one: `n` and its twin `m` are gone.
    pub(crate) fn merge(&mut self, n: DartId, m: DartId)
        ensures { faces_in self.new ≡ step_faces no_rows (faces_in self.old) (in_one n m) }
    {
        self.drop_both(n, m);
    }

    // ---- an edge that comes
    // Both ends were bare: its darts are a new hole in the face.
    pub(crate) fn make_hole(
        &mut self,
        d: DartId,
        m: DartId,
        u: VertexId,
        v: VertexId,
        cycle: CycleId,
        face: FaceId,
    ) -> Result<(), NoMemory>
        ensures { OnOk result (faces_in self.new ≡ step_faces no_rows (faces_in self.old) (new_hole d m u v cycle face)) }
    {
        self.drop_bare(u);
        self.drop_bare(v);
        self.add_cycle(cycle, CycleKind::Inner, face)?;
        self.set_both(d, m, cycle)?;
        Ok(())
    }

    // One end was bare: both darts are on the cycle at the other.
    pub(crate) fn grow(
        &mut self,
        d: DartId,
        m: DartId,
        bare: VertexId,
        cycle: CycleId,
    ) -> Result<(), NoMemory>
        ensures { OnOk result (faces_in self.new ≡ step_faces no_rows (faces_in self.old) (grows d m bare cycle)) }
    {
        self.drop_bare(bare);
        self.set_both(d, m, cycle)?;
        Ok(())
    }

    // ---- a cycle that goes
    // The dart, if it is on the cycle.
    fn if_on(&self, dart: Option<DartId>, cycle: CycleId) -> Option<DartId>
        ensures some { IfSome result (λ d. (dart ≡ Some d) × (cycle_in (faces_in self.now) d ≡ cycle)) }
        ensures none { IfNone result ((d : DartId) → dart ≡ Some d → cycle_in (faces_in self.now) d ≢ cycle) }
    {
        match dart {
            Some(d) => {
                if self.cycle_at(d) == cycle {
                    Some(d)
                } else {
                    None
                }
            }
            None => None,
        }
    }

    // The darts of a cycle that goes are on another one. One of two darts is on it, or none at all.
    pub(crate) fn recycle(
        &mut self,
        darts: &BTreeMap<usize, DartEntry>,
        first: Option<DartId>,
        second: Option<DartId>,
        gone: CycleId,
        kept: CycleId,
    )
        requires sound { AreFacesSound darts.now.entries (faces_in self.old) }
        requires first { HasEntry darts.now.entries first }
        requires second { HasEntry darts.now.entries second }
        requires found { IsFoundAt darts.now.entries (faces_in self.old) gone first second }
        ensures { faces_in self.new ≡ recycled gone kept (faces_in self.old) }
    {
        if let Some(d) = self.if_on(first, gone) {
            self.set_orbit(darts, d, kept);
            return;
        }
        if let Some(d) = self.if_on(second, gone) {
            self.set_orbit(darts, d, kept);
        }
    }

    // The two places are on two cycles: the new darts and those of `gone` are on `kept`, and `gone` goes.
    pub(crate) fn join(
        &mut self,
        darts: &BTreeMap<usize, DartEntry>,
        first: Option<DartId>,
        second: Option<DartId>,
        d: DartId,
        m: DartId,
        kept: CycleId,
        gone: CycleId,
    ) -> Result<(), NoMemory>
        requires sound { AreFacesSound darts.now.entries (faces_in self.old) }
        requires first { HasEntry darts.now.entries first }
        requires second { HasEntry darts.now.entries second }
        requires found { IsFoundAt darts.now.entries (faces_in self.old) gone first second }
        ensures { OnOk result (faces_in self.new ≡ step_faces no_rows (faces_in self.old) (joins d m kept gone)) }
    {
        self.recycle(darts, first, second, gone, kept);
        self.set_both(d, m, kept)?;
        self.drop_cycle(gone);
        Ok(())
    }

    // The darts of `gone`, an outer cycle, are on `kept`, and `gone` goes with its face, of which the rest moves.
    pub(crate) fn unite(
        &mut self,
        darts: &BTreeMap<usize, DartEntry>,
        d: DartId,
        m: DartId,
        kept: CycleId,
        gone: CycleId,
        gone_face: FaceId,
        moved: &Moved,
    )
        requires sound { AreFacesSound darts.now.entries (faces_in self.old) }
        requires first { HasDart (darts_of darts.now.entries) d }
        requires second { HasDart (darts_of darts.now.entries) m }
        requires found { IsFoundAt darts.now.entries (faces_in self.old) gone (Some d) (Some m) }
        ensures { faces_in self.new ≡ step_faces no_rows (faces_in self.old) (unites d m kept gone gone_face moved.now.cycles moved.now.vertices) }
    {
        self.recycle(darts, Some(d), Some(m), gone, kept);
        self.drop_both(d, m);
        let face = self.face_at(kept);
        self.move_all(moved, face);
        self.drop_cycle(gone);
        self.drop_face(gone_face);
    }

    // ---- an edge that goes
    // Both ends become bare, and their cycle goes.
    pub(crate) fn vanish(
        &mut self,
        d: DartId,
        m: DartId,
        u: VertexId,
        v: VertexId,
        cycle: CycleId,
        face: FaceId,
    ) -> Result<(), NoMemory>
        ensures { OnOk result (faces_in self.new ≡ step_faces no_rows (faces_in self.old) (vanishes d m u v cycle face)) }
    {
        self.drop_both(d, m);
        self.drop_cycle(cycle);
        self.set_bare(u, face)?;
        self.set_bare(v, face)?;
        Ok(())
    }

    // One end becomes bare.
    pub(crate) fn shrink(
        &mut self,
        d: DartId,
        m: DartId,
        bare: VertexId,
        face: FaceId,
    ) -> Result<(), NoMemory>
        ensures { OnOk result (faces_in self.new ≡ bare_in bare face (off_cycles m (off_cycles d (faces_in self.old)))) }
    {
        self.drop_both(d, m);
        self.set_bare(bare, face)?;
        Ok(())
    }

    // Nothing is left but the face.
    pub(crate) fn clear(&mut self, face: FaceId) -> Result<(), NoMemory>
        ensures { OnOk result (faces_in self.new ≡ step_faces no_rows (faces_in self.old) (cleared face)) }
    {
        self.cycle_of.clear();
        self.bare.clear();
        self.cycles.clear();
        self.faces.clear();
        self.faces.insert(face.0)?;
        Ok(())
    }
}
