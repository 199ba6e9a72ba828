ghost use Rattle.std.specs.Prelude.{◌≡◌, ◌++◌, [], ◌∷◌, cond, IfOk, IfSome, IfNone, OnOk};
ghost use Rattle.std.specs.List.{AllByRecursion};
ghost use Rattle.slab_laws.specs.View.{HasCycle, HasDart, HasVertex, HasFace, kind_in};
ghost use Rattle.dcel_records.specs.RecordsView.{lists_of, tables_of};
ghost use Rattle.arrangement.specs.Arranged.{arranged};
ghost use Rattle.arrangement.specs.FaceNumbers.{IsFaceAt, IsInNoFace, IsNumberOf};
ghost use Rattle.arrangement.specs.FacesRead.{kept_darts};
ghost use Rattle.dart_walks.specs.DartWalks.{AreAlong, AreJust, AreRound};
ghost use Rattle.listed_faces.specs.FaceParts.{AreBoundariesOf, IsIsolatedIn, face_left, is_kind};

use crate::arrangement::Arrangement;
use crate::spots::spot_at;
use dart_walks::{Along, Round};
use dcel_records::{Records, Spot};
use exact_plane::Point;
use listed_faces::is_kind;
use no_memory::NoMemory;
use slab_laws::{CycleId, CycleKind, DartId, Darts, FaceId, FaceLists, Faced, VertexId};
use std::alloc::Global;

// Appends the dart that is kept for a cycle, where this is of the kind.
fn push_of_kind(
    found: &mut Vec<DartId>,
    records: &Records,
    cycle: CycleId,
    kind: CycleKind,
) -> Result<(), NoMemory>
    requires { HasCycle (tables_of records.now) cycle }
    ensures { OnOk result (found.new.items ≡ found.old.items ++ cond (is_kind kind (kind_in (tables_of records.now) cycle)) ((lists_of records.now).dart_on cycle ∷ []) []) }
{
    if is_kind(kind, records.kind(cycle)) {
        found.push(records.dart_on(cycle))?;
    }
    Ok(())
}

// The darts that are kept for the boundaries of a kind, by the face's own list.
fn kept_boundaries(
    alloc: Global,
    records: &Records,
    face: FaceId,
    kind: CycleKind,
) -> Result<Vec<DartId>, NoMemory>
    requires { HasFace (tables_of records.now) face }
    ensures { IfOk result (λ v. v.items ≡ kept_darts (tables_of records.now) (lists_of records.now) face kind) }
{
    records.face_laws();
    let mut found = Vec::new(alloc);
    let mut at = records.first_cycle_of(face);
    'cycles: while let Some(cycle) = at {
        push_of_kind(&mut found, records, cycle, kind)?;
        at = records.cycle_after_in_face(cycle);
    }
    Ok(found)
}

// The isolated vertices in a face, by its own list.
fn listed_isolated(
    alloc: Global,
    records: &Records,
    face: FaceId,
) -> Result<Vec<VertexId>, NoMemory>
    requires { HasFace (tables_of records.now) face }
    ensures { IfOk result (λ v. v.items ≡ (lists_of records.now).bare face) }
{
    records.face_laws();
    let mut found = Vec::new(alloc);
    let mut at = records.first_isolated_in(face);
    'vertices: while let Some(vertex) = at {
        found.push(vertex)?;
        at = records.isolated_after_in_face(vertex);
    }
    Ok(found)
}

impl Arrangement {
    /// The face that a point lies in, by its name; `None` where the point is a vertex or lies on an edge (CGAL manual, point location).
    ///
    /// It is found by the vertices' hash and the index over the pieces: looked at are the pieces whose boxes a ray down from the point meets. Where
    /// memory for the index was refused, it is found by a walk, as [`locate`](Arrangement::locate) finds it under `Strategy::Walk`. It takes no memory.
    pub fn face_at(&self, p: &Point) -> Option<FaceId>
        ensures face { IfSome result (IsFaceAt (arranged Observer-dyn self.now) p.now) }
        ensures none { IfNone result (IsInNoFace (arranged Observer-dyn self.now) p.now) }
    {
        p.laws();
        match spot_at(&self.layer.records, &self.layer.history, p) {
            Spot::Vertex(_) => None,
            Spot::Edge(_) => None,
            Spot::Face(face) => Some(face),
        }
    }

    /// The number of a face: the one that [`locate`](Arrangement::locate) answers of each point in it, and that [`text`](Arrangement::text)
    /// has on its line (this project).
    ///
    /// The first question after an edit goes once along each outer boundary and counts the faces that come before this one, the second one
    /// ranks all, and the next ones look the number up. It takes no memory.
    pub fn number_of(&mut self, face: FaceId) -> usize
        requires face { HasFace (arranged Observer-dyn self.old).faces face }
        ensures number { IsNumberOf (arranged Observer-dyn self.old) face result }
        ensures same { self.new ≡ self.old }
    {
        self.laws();
        self.layer.rank_of(face)
    }

    /// A dart on each boundary of a face that is of this kind, with the face on its left: on the outer one, which each face but the
    /// unbounded one has, or on those of its holes (CGAL manual, `outer_ccb`, `inner_ccbs`).
    ///
    /// One look at each boundary of the face, by the face's own list.
    ///
    /// # Errors
    ///
    /// There was no memory for the list.
    pub fn boundaries_of(&self, face: FaceId, kind: CycleKind) -> Result<Vec<DartId>, NoMemory>
        requires face { HasFace (arranged Observer-dyn self.now).faces face }
        ensures boundaries { let a = arranged Observer-dyn self.now in IfOk result (λ v. AreBoundariesOf a.graph a.faces face kind v.items) }
    {
        self.layer.records.face_laws();
        kept_boundaries(self.alloc, &self.layer.records, face, kind)
    }

    /// Once along the boundary that a dart is on, from this one on, each dart followed by the next one; the face lies on the left of all
    /// (CGAL manual, `Ccb_halfedge_circulator`).
    ///
    /// One look at each dart, when it comes. It takes no memory.
    pub fn along(&self, dart: DartId) -> Along<'_, Records>
        requires dart { HasDart (arranged Observer-dyn self.now).graph dart }
        ensures along { let a = arranged Observer-dyn self.now in AreAlong a.graph a.faces dart result }
        ensures have { AllByRecursion (HasDart (arranged Observer-dyn self.now).graph) result }
    {
        Along::new(&self.layer.records, dart)
    }

    /// The same darts in a list.
    ///
    /// One look at each dart of the boundary.
    ///
    /// # Errors
    ///
    /// There was no memory for the list.
    pub fn darts_along(&self, dart: DartId) -> Result<Vec<DartId>, NoMemory>
        requires dart { HasDart (arranged Observer-dyn self.now).graph dart }
        ensures along { let a = arranged Observer-dyn self.now in IfOk result (λ v. AreAlong a.graph a.faces dart v.items) }
    {
        self.along(dart).list(self.alloc)
    }

    /// The isolated vertices in a face (CGAL manual, `isolated_vertices`).
    ///
    /// One look at each of them, by the face's own list.
    ///
    /// # Errors
    ///
    /// There was no memory for the list.
    pub fn isolated_in(&self, face: FaceId) -> Result<Vec<VertexId>, NoMemory>
        requires face { HasFace (arranged Observer-dyn self.now).faces face }
        ensures isolated { let a = arranged Observer-dyn self.now in IfOk result (λ v. AreJust (IsIsolatedIn a.faces face) v.items) }
    {
        self.layer.records.face_laws();
        listed_isolated(self.alloc, &self.layer.records, face)
    }

    /// The face on the left of a dart (CGAL manual, `face` of a halfedge). That of its twin is the neighbour across the edge, which may be
    /// the same face.
    ///
    /// The dart and its boundary are looked up, in constant time.
    pub fn face_left_of(&self, dart: DartId) -> FaceId
        requires dart { HasDart (arranged Observer-dyn self.now).graph dart }
        ensures face { result ≡ face_left (arranged Observer-dyn self.now).faces dart }
        ensures has { HasFace (arranged Observer-dyn self.now).faces result }
    {
        let records = &self.layer.records;
        records.face(records.cycle(dart))
    }

    /// Once round a vertex clockwise, along the darts out of it; the faces on their left are those round the vertex (CGAL manual,
    /// `Halfedge_around_vertex_circulator`). There is none where the vertex is isolated, and then `bare_face` of the records is the one
    /// face round it.
    ///
    /// One look at each dart, when it comes. It takes no memory.
    pub fn round(&self, vertex: VertexId) -> Round<'_, Records>
        requires vertex { HasVertex (arranged Observer-dyn self.now).graph vertex }
        ensures round { AreRound (arranged Observer-dyn self.now).graph vertex result }
        ensures have { AllByRecursion (HasDart (arranged Observer-dyn self.now).graph) result }
    {
        Round::new(&self.layer.records, vertex)
    }

    /// The same darts in a list.
    ///
    /// One look at each of them.
    ///
    /// # Errors
    ///
    /// There was no memory for the list.
    pub fn darts_round(&self, vertex: VertexId) -> Result<Vec<DartId>, NoMemory>
        requires vertex { HasVertex (arranged Observer-dyn self.now).graph vertex }
        ensures round { IfOk result (λ v. AreRound (arranged Observer-dyn self.now).graph vertex v.items) }
    {
        self.round(vertex).list(self.alloc)
    }
}
