ghost use Rattle.std.specs.Prelude.{◌≡◌, OnOk};
ghost use Rattle.slab_laws.specs.View.{HasDart, twin_in};
ghost use Rattle.arr_notes.specs.FacesTold.{bare_end, bared_end};
ghost use Rattle.mirror_observer.specs.FaceParts.{AreFacesSound, HasEntry, AreJoinedAt, AreUnitedAt, before_place, linked_first, linked_then, unlinked_first, unlinked_then};
ghost use Rattle.mirror_observer.specs.FaceTables.{faces_in, AreDartsSound, AreRowsOfDarts};
ghost use Rattle.mirror_observer.specs.Tables.{darts_of};

use crate::darts::{next_of, source_of, twin_of};
use crate::faces::FaceTables;
use crate::links::End;
use crate::tables::DartEntry;
use arr_notes::{Linked, Unlinked};
use no_memory::NoMemory;
use slab_laws::{CycleKind, DartId, VertexId};
use std::collections::BTreeMap;

// Of the ends of a new edge the one that was bare, where one was.
fn end_that_was_bare(start: End, finish: End) -> VertexId
    ensures { result ≡ bare_end start.place start.vertex finish.vertex }
{
    match start.place {
        Some(_) => finish.vertex,
        None => start.vertex,
    }
}

// Of the ends of an edge the one that becomes bare, where one does.
fn end_that_becomes_bare(darts: &BTreeMap<usize, DartEntry>, d: DartId, m: DartId) -> VertexId
    requires { m ≡ twin_in (darts_of darts.now.entries) d }
    ensures { result ≡ bared_end (darts_of darts.now.entries) d }
{
    if next_of(darts, m) == d {
        source_of(darts, d)
    } else {
        source_of(darts, m)
    }
}

// The dart that comes in before a place, where there is one.
fn before(darts: &BTreeMap<usize, DartEntry>, place: Option<DartId>) -> Option<DartId>
    ensures { result ≡ before_place (darts_of darts.now.entries) place }
{
    match place {
        Some(at) => Some(twin_of(darts, at)),
        None => None,
    }
}

impl FaceTables {
    // What a new edge makes of cycles and faces while the darts are as they were.
    pub(crate) fn link_first(
        &mut self,
        darts: &BTreeMap<usize, DartEntry>,
        d: DartId,
        m: DartId,
        start: End,
        finish: End,
        faces: &Linked,
    ) -> Result<(), NoMemory>
        requires sound { AreFacesSound darts.now.entries (faces_in self.old) }
        requires first { HasEntry darts.now.entries (before_place (darts_of darts.now.entries) start.place) }
        requires second { HasEntry darts.now.entries (before_place (darts_of darts.now.entries) finish.place) }
        requires joined { let g = darts_of darts.now.entries in AreJoinedAt darts.now.entries (faces_in self.old) (before_place g start.place) (before_place g finish.place) faces.now }
        ensures { OnOk result (faces_in self.new ≡ linked_first d m start.vertex finish.vertex start.place faces.now (faces_in self.old)) }
    {
        match faces {
            Linked::NewHole { cycle, face } => {
                self.make_hole(d, m, start.vertex, finish.vertex, *cycle, *face)
            }
            Linked::Grows { cycle } => { self.grow(d, m, end_that_was_bare(start, finish), *cycle) }
            Linked::Joins { kept, gone } => {
                let first = before(darts, start.place);
                let second = before(darts, finish.place);
                self.join(darts, first, second, d, m, *kept, *gone)
            }
            Linked::Splits { kept, .. } => self.set_both(d, m, *kept),
        }
    }

    // And once the darts are as they will be: the orbit of the fresh dart is a cycle of a new face.
    pub(crate) fn link_then(
        &mut self,
        darts: &BTreeMap<usize, DartEntry>,
        faces: &Linked,
    ) -> Result<(), NoMemory>
        requires sound { AreDartsSound darts.now.entries }
        requires rows { AreRowsOfDarts darts.now.entries (faces_in self.old).cycle_of }
        ensures { OnOk result (faces_in self.new ≡ linked_then (darts_of darts.now.entries) faces.now (faces_in self.old)) }
    {
        if let Linked::Splits {
            kept: _,
            fresh,
            fresh_dart,
            fresh_face,
            moved,
        } = faces
        {
            self.set_orbit(darts, *fresh_dart, *fresh);
            self.add_face(*fresh_face)?;
            self.add_cycle(*fresh, CycleKind::Outer, *fresh_face)?;
            self.move_all(moved, *fresh_face);
        }
        Ok(())
    }

    // What an edge that goes makes of cycles and faces while the darts are as they were.
    pub(crate) fn unlink_first(
        &mut self,
        darts: &BTreeMap<usize, DartEntry>,
        d: DartId,
        m: DartId,
        faces: &Unlinked,
    ) -> Result<(), NoMemory>
        requires sound { AreFacesSound darts.now.entries (faces_in self.old) }
        requires dart { HasDart (darts_of darts.now.entries) d }
        requires twin { m ≡ twin_in (darts_of darts.now.entries) d }
        requires united { AreUnitedAt darts.now.entries (faces_in self.old) d m faces.now }
        ensures { OnOk result (faces_in self.new ≡ unlinked_first (darts_of darts.now.entries) d faces.now (faces_in self.old)) }
    {
        match faces {
            Unlinked::Vanishes { cycle, face } => self.vanish(
                d,
                m,
                source_of(darts, d),
                source_of(darts, m),
                *cycle,
                *face,
            ),
            Unlinked::Shrinks { cycle: _, face } => {
                self.shrink(d, m, end_that_becomes_bare(darts, d, m), *face)
            }
            Unlinked::Breaks { .. } => {
                self.drop_both(d, m);
                Ok(())
            }
            Unlinked::Unites {
                kept,
                gone,
                gone_face,
                moved,
            } => {
                self.unite(darts, d, m, *kept, *gone, *gone_face, moved);
                Ok(())
            }
        }
    }

    // And once the darts are as they will be: the orbit of the fresh dart is a hole in the face.
    pub(crate) fn unlink_then(
        &mut self,
        darts: &BTreeMap<usize, DartEntry>,
        faces: &Unlinked,
    ) -> Result<(), NoMemory>
        requires sound { AreDartsSound darts.now.entries }
        requires rows { AreRowsOfDarts darts.now.entries (faces_in self.old).cycle_of }
        ensures { OnOk result (faces_in self.new ≡ unlinked_then (darts_of darts.now.entries) faces.now (faces_in self.old)) }
    {
        if let Unlinked::Breaks {
            kept,
            fresh,
            fresh_dart,
        } = faces
        {
            let face = self.face_at(*kept);
            self.set_orbit(darts, *fresh_dart, *fresh);
            self.add_cycle(*fresh, CycleKind::Inner, face)?;
        }
        Ok(())
    }
}
