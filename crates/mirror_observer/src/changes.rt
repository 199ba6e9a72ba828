ghost use Rattle.std.specs.Prelude.{◌≡◌, Some, None, OnOk};
ghost use Rattle.arr_notes.specs.declared.change.Change.TheVariants.{AddVertex, RemoveVertex, SplitEdge, MergeEdge, AddEdge, RemoveEdge, AddCurve, RemoveCurve, SetPin, ClearPin, Clear};
ghost use Rattle.mirror_observer.specs.Standing.{AreToChange, HaveChanged};
ghost use Rattle.mirror_observer.specs.Tables.{with_pinned};
ghost use Rattle.arr_notes.specs.NamedRows.{edit};

use crate::curves::{add_curve, along, lay, lift, remove_curve};
use crate::darts::twin_of;
use crate::links::{End, link, merge, part, unlink};
use crate::tables::{Tables, VertexEntry};
use arr_notes::{Change, Linked, Unlinked};
use exact_plane::{Line, Point};
use no_memory::NoMemory;
use slab_laws::{CurveId, DartId, FaceId, Sequence, VertexId};
use std::alloc::Global;
use std::collections::BTreeMap;

// The vertex is pinned, or not, if it has an entry.
fn pin(vertices: &mut BTreeMap<usize, VertexEntry>, v: VertexId, pinned: bool)
    ensures { vertices.new.entries ≡ edit v.0 (with_pinned pinned) vertices.old.entries }
{
    if let Some(entry) = vertices.get_mut(&v.0) {
        entry.pinned = pinned;
    }
}

impl Tables {
    fn add_vertex(&mut self, v: VertexId, p: Point, face: FaceId) -> Result<(), NoMemory>
        requires { AreToChange self.old (AddVertex v p face) }
        ensures { OnOk result (HaveChanged self.old (AddVertex v p face) self.new) }
    {
        let entry = VertexEntry {
            point: p,
            pinned: false,
        };
        self.vertices.insert(v.0, entry)?;
        self.faces.set_bare(v, face)?;
        Ok(())
    }

    fn remove_vertex(&mut self, v: VertexId)
        requires { AreToChange self.old (RemoveVertex v) }
        ensures { HaveChanged self.old (RemoveVertex v) self.new }
    {
        let _entry = self.vertices.remove(&v.0);
        self.faces.drop_bare(v);
    }

    fn set_pin(&mut self, v: VertexId)
        requires { AreToChange self.old (SetPin v) }
        ensures { HaveChanged self.old (SetPin v) self.new }
    {
        pin(&mut self.vertices, v, true);
    }

    fn clear_pin(&mut self, v: VertexId)
        requires { AreToChange self.old (ClearPin v) }
        ensures { HaveChanged self.old (ClearPin v) self.new }
    {
        pin(&mut self.vertices, v, false);
    }

    fn split_edge(
        &mut self,
        alloc: Global,
        d: DartId,
        v: VertexId,
        p: Point,
        n: DartId,
        m: DartId,
    ) -> Result<(), NoMemory>
        requires { AreToChange self.old (SplitEdge d v p n m) }
        ensures { OnOk result (HaveChanged self.old (SplitEdge d v p n m) self.new) }
    {
        let curves = along(alloc, &self.curves, d)?;
        let twin = twin_of(&self.darts, d);
        let entry = VertexEntry {
            point: p,
            pinned: false,
        };
        self.vertices.insert(v.0, entry)?;
        part(&mut self.darts, d, v, n, m)?;
        lay(&mut self.curves, n, curves)?;
        self.faces.part(d, twin, n, m)?;
        Ok(())
    }

    fn merge_edge(&mut self, v: VertexId, d: DartId, n: DartId)
        requires { AreToChange self.old (MergeEdge v d n) }
        ensures { HaveChanged self.old (MergeEdge v d n) self.new }
    {
        let gone = twin_of(&self.darts, n);
        self.faces.merge(n, gone);
        merge(&mut self.darts, d, n);
        lift(&mut self.curves, n);
        let _entry = self.vertices.remove(&v.0);
    }

    fn add_edge(
        &mut self,
        alloc: Global,
        d: DartId,
        m: DartId,
        start: End,
        finish: End,
        line: Line,
        curve: CurveId,
        faces: &Linked,
    ) -> Result<(), NoMemory>
        requires { AreToChange self.old (AddEdge d m start.vertex finish.vertex start.place finish.place line curve faces.now) }
        ensures { OnOk result (HaveChanged self.old (AddEdge d m start.vertex finish.vertex start.place finish.place line curve faces.now) self.new) }
    {
        let mut curves = Sequence::new(alloc);
        curves.push(curve)?;
        self.faces
            .link_first(&self.darts, d, m, start, finish, faces)?;
        link(&mut self.darts, d, m, start, finish, line)?;
        lay(&mut self.curves, d, curves)?;
        self.faces.link_then(&self.darts, faces)?;
        Ok(())
    }

    fn remove_edge(&mut self, d: DartId, m: DartId, faces: &Unlinked) -> Result<(), NoMemory>
        requires { AreToChange self.old (RemoveEdge d m faces.now) }
        ensures { OnOk result (HaveChanged self.old (RemoveEdge d m faces.now) self.new) }
    {
        self.faces.unlink_first(&self.darts, d, m, faces)?;
        unlink(&mut self.darts, d, m);
        lift(&mut self.curves, d);
        self.faces.unlink_then(&self.darts, faces)?;
        Ok(())
    }

    fn add_curve(&mut self, alloc: Global, d: DartId, curve: CurveId) -> Result<(), NoMemory>
        requires { AreToChange self.old (AddCurve d curve) }
        ensures { OnOk result (HaveChanged self.old (AddCurve d curve) self.new) }
    {
        add_curve(alloc, &mut self.curves, d, curve)?;
        Ok(())
    }

    fn remove_curve(&mut self, alloc: Global, d: DartId, curve: CurveId) -> Result<(), NoMemory>
        requires { AreToChange self.old (RemoveCurve d curve) }
        ensures { OnOk result (HaveChanged self.old (RemoveCurve d curve) self.new) }
    {
        remove_curve(alloc, &mut self.curves, d, curve)?;
        Ok(())
    }

    fn clear(&mut self, face: FaceId) -> Result<(), NoMemory>
        ensures { OnOk result (HaveChanged self.old (Clear face) self.new) }
    {
        self.vertices.clear();
        self.darts.clear();
        self.curves.clear();
        self.faces.clear(face)?;
        Ok(())
    }

    /// Makes a change. It takes a logarithm of what the maps have for each name that it writes, and copies the list of an edge's
    /// curves where these change or the edge is split. Where a cycle comes or goes beside another one, its darts are gone along.
    ///
    /// # Errors
    ///
    /// There was no memory for it; what the maps say then isn't told.
    pub fn change(&mut self, alloc: Global, change: &Change) -> Result<(), NoMemory>
        requires { AreToChange self.old change.now }
        ensures { OnOk result (HaveChanged self.old change.now self.new) }
    {
        match change {
            Change::AddVertex { v, p, face } => self.add_vertex(*v, *p, *face),
            Change::RemoveVertex { v } => {
                self.remove_vertex(*v);
                Ok(())
            }
            Change::SplitEdge { d, v, p, n, m } => self.split_edge(alloc, *d, *v, *p, *n, *m),
            Change::MergeEdge { v, d, n } => {
                self.merge_edge(*v, *d, *n);
                Ok(())
            }
            Change::AddEdge {
                d,
                m,
                u,
                v,
                at_u,
                at_v,
                line,
                curve,
                faces,
            } => {
                let start = End {
                    vertex: *u,
                    place: *at_u,
                };
                let finish = End {
                    vertex: *v,
                    place: *at_v,
                };
                self.add_edge(alloc, *d, *m, start, finish, *line, *curve, faces)
            }
            Change::RemoveEdge { d, m, faces } => self.remove_edge(*d, *m, faces),
            Change::AddCurve { d, curve } => self.add_curve(alloc, *d, *curve),
            Change::RemoveCurve { d, curve } => self.remove_curve(alloc, *d, *curve),
            Change::SetPin { v } => {
                self.set_pin(*v);
                Ok(())
            }
            Change::ClearPin { v } => {
                self.clear_pin(*v);
                Ok(())
            }
            Change::Clear { face } => self.clear(*face),
        }
    }
}
