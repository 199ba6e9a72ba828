ghost use Rattle.std.specs.Prelude.{◌≡◌, ◌↔◌, IsTrue, IfOk, IfSome, IfNone};
ghost use Rattle.std.specs.Option.{option_map};
ghost use Rattle.slab_laws.specs.Tables.{name_after, names};
ghost use Rattle.slab_laws.specs.View.{vertex_id, dart_id, cycle_id, face_id, HasVertex, HasDart, IsOutOf, point_in, pinned_in, source_in, twin_in, next_in, line_in, vertex_after_in, dart_after_in, cycle_in, face_in, kind_in, bare_face_in, cycle_after_in, face_after_in};
ghost use Rattle.mirror_observer.specs.Tables.{numbers_in, darts_of};
ghost use Rattle.mirror_observer.specs.Standing.{view_in};
ghost use Rattle.mirror_observer.specs.Reading.{curves_at_edge, start_after};

use crate::curves::{along, copied};
use crate::darts::{entry_of, line_of, next_of, source_of, twin_of};
use crate::faces::CycleEntry;
use crate::tables::{DartEntry, Tables, VertexEntry};
use exact_plane::{Line, Point};
use no_memory::NoMemory;
use slab_laws::{CurveId, CycleId, CycleKind, DartId, FaceId, Sequence, VertexId};
use std::alloc::Global;
use std::collections::{BTreeMap, BTreeSet};
use std::ops::Bound;

fn beyond(name: Option<usize>) -> Bound<usize>
    ensures { result ≡ start_after name }
{
    match name {
        Some(number) => Bound::Excluded(number),
        None => Bound::Unbounded,
    }
}

// The next greater name, or the least.
fn name_beyond<V>(entries: &BTreeMap<usize, V>, name: Option<usize>) -> Option<usize>
    ensures { result ≡ name_after (names entries.now.entries) name }
{
    let start = beyond(name);
    let mut rest = entries.range((start, Bound::Unbounded));
    match rest.next() {
        Some(entry) => {
            let (key, _value) = entry;
            Some(*key)
        }
        None => None,
    }
}

fn vertex_beyond(vertices: &BTreeMap<usize, VertexEntry>, v: Option<VertexId>) -> Option<VertexId>
    ensures { result ≡ option_map vertex_id (name_after (names vertices.now.entries) (option_map (λ w. w.0) v)) }
{
    name_beyond(vertices, v.map(|w| w.0)).map(VertexId)
}

fn dart_beyond(darts: &BTreeMap<usize, DartEntry>, d: Option<DartId>) -> Option<DartId>
    ensures { result ≡ option_map dart_id (name_after (names darts.now.entries) (option_map (λ e. e.0) d)) }
{
    name_beyond(darts, d.map(|e| e.0)).map(DartId)
}

fn cycle_beyond(cycles: &BTreeMap<usize, CycleEntry>, c: Option<CycleId>) -> Option<CycleId>
    ensures { result ≡ option_map cycle_id (name_after (names cycles.now.entries) (option_map (λ e. e.0) c)) }
{
    name_beyond(cycles, c.map(|e| e.0)).map(CycleId)
}

// The next greater of the names, or the least.
fn key_beyond(keys: &BTreeSet<usize>, name: Option<usize>) -> Option<usize>
    ensures { result ≡ name_after keys.now.keys name }
{
    let start = beyond(name);
    let mut rest = keys.range((start, Bound::Unbounded));
    match rest.next() {
        Some(key) => Some(*key),
        None => None,
    }
}

fn face_beyond(faces: &BTreeSet<usize>, f: Option<FaceId>) -> Option<FaceId>
    ensures { result ≡ option_map face_id (name_after faces.now.keys (option_map (λ e. e.0) f)) }
{
    key_beyond(faces, f.map(|e| e.0)).map(FaceId)
}

impl Tables {
    /// The vertex that the dart leaves; without an entry, the one named 0.
    pub fn source(&self, d: DartId) -> VertexId
        ensures { result ≡ source_in (view_in self.now).graph d }
    {
        source_of(&self.darts, d)
    }

    /// The opposite dart; without an entry, the dart itself.
    pub fn twin(&self, d: DartId) -> DartId
        ensures { result ≡ twin_in (view_in self.now).graph d }
    {
        twin_of(&self.darts, d)
    }

    /// The dart that follows; without an entry, the dart itself.
    pub fn next(&self, d: DartId) -> DartId
        ensures { result ≡ next_in (view_in self.now).graph d }
    {
        next_of(&self.darts, d)
    }

    /// The line of the dart's edge.
    pub fn line(&self, d: DartId) -> Line
        requires { HasDart (view_in self.now).graph d }
        ensures { result ≡ line_in (view_in self.now).graph d }
    {
        line_of(&self.darts, d)
    }

    /// The point of the vertex.
    pub fn point(&self, v: VertexId) -> Point
        requires { HasVertex (view_in self.now).graph v }
        ensures { result ≡ point_in (view_in self.now).graph v }
    {
        self.vertices[&v.0].point
    }

    /// Whether the vertex is pinned; without an entry it isn't.
    pub fn pinned(&self, v: VertexId) -> bool
        ensures { result ≡ pinned_in (view_in self.now).graph v }
    {
        match self.vertices.get(&v.0) {
            Some(entry) => entry.pinned,
            None => false,
        }
    }

    /// The next greater name of a vertex, or the least; `None` after the last.
    pub fn vertex_after(&self, v: Option<VertexId>) -> Option<VertexId>
        ensures { result ≡ vertex_after_in (view_in self.now).graph v }
    {
        vertex_beyond(&self.vertices, v)
    }

    /// The next greater name of a dart, or the least; `None` after the last.
    pub fn dart_after(&self, d: Option<DartId>) -> Option<DartId>
        ensures { result ≡ dart_after_in (view_in self.now).graph d }
    {
        dart_beyond(&self.darts, d)
    }

    /// The cycle that the dart is on; without one, the one named 0.
    pub fn cycle(&self, d: DartId) -> CycleId
        ensures { result ≡ cycle_in (view_in self.now).faces d }
    {
        self.faces.cycle_at(d)
    }

    /// The face that the cycle bounds; without an entry, the one named 0.
    pub fn face(&self, c: CycleId) -> FaceId
        ensures { result ≡ face_in (view_in self.now).faces c }
    {
        self.faces.face_at(c)
    }

    /// Whether the cycle bounds its face from outside; without an entry it is a hole.
    pub fn kind(&self, c: CycleId) -> CycleKind
        ensures { result ≡ kind_in (view_in self.now).faces c }
    {
        self.faces.kind_at(c)
    }

    /// The face in which the vertex lies, where no dart leaves it; else the one named 0.
    pub fn bare_face(&self, v: VertexId) -> FaceId
        ensures { result ≡ bare_face_in (view_in self.now).faces v }
    {
        self.faces.bare_at(v)
    }

    /// The next greater name of a cycle, or the least; `None` after the last.
    pub fn cycle_after(&self, c: Option<CycleId>) -> Option<CycleId>
        ensures { result ≡ cycle_after_in (view_in self.now).faces c }
    {
        cycle_beyond(&self.faces.cycles, c)
    }

    /// The next greater name of a face, or the least; `None` after the last.
    pub fn face_after(&self, f: Option<FaceId>) -> Option<FaceId>
        ensures { result ≡ face_after_in (view_in self.now).faces f }
    {
        face_beyond(&self.faces.faces, f)
    }

    /// The curves along the dart's edge: those of the dart, and else of its twin.
    ///
    /// # Errors
    ///
    /// There was no memory for them.
    pub fn curves(&self, alloc: Global, d: DartId) -> Result<Sequence<CurveId>, NoMemory>
        ensures { IfOk result (λ s. numbers_in s ≡ curves_at_edge (view_in self.now) d) }
    {
        match self.curves.get(&d.0) {
            Some(list) => {
                let copy = copied(alloc, list.as_slice())?;
                Ok(copy)
            }
            None => {
                let twin = twin_of(&self.darts, d);
                let other = along(alloc, &self.curves, twin)?;
                Ok(other)
            }
        }
    }
}
