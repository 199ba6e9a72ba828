ghost use Rattle.std.specs.Prelude.{◌≡◌, IfOk, IfSome, IfNone};
ghost use Rattle.std.specs.List.{AllByRecursion};
ghost use Rattle.slab_laws.specs.FacesSound.{IsSound};
ghost use Rattle.slab_laws.specs.View.{HasDart, HasFace, HasVertex};
ghost use Rattle.subdivision_rows.specs.OverlayInMemory.{graph_of, faces_in};
ghost use Rattle.dart_walks.specs.DartWalks.{AreAlong, AreJust, AreRound};
ghost use Rattle.face_location.specs.Spots.{IsSpotOf};
ghost use Rattle.listed_faces.specs.Boundaries.{AreDartsOnCycles};
ghost use Rattle.listed_faces.specs.FaceParts.{AreBoundariesOf, IsIsolatedIn, face_left};
ghost use Rattle.listed_faces.specs.Located.{IsListedFaceAt, IsInNoListedFace};
ghost use Rattle.arrangement.specs.SpotCells.{HasSpot};

use crate::overlaid::Overlay;
use dart_walks::{Along, Round};
use dcel_records::Spot;
use exact_plane::Point;
use no_memory::NoMemory;
use slab_laws::{CycleKind, DartId, FaceId, Faced, VertexId};

/// Faces of an overlay go by their numbers: the name of a face is its place among the faces, as its text has them, and `red_of`
/// and `blue_of` tell the faces of the layers that hold it.
impl Overlay {
    /// What is true of every overlay: it is a sound view of a plane graph with its faces.
    pub fn laws(&self)
        ensures stands { IsSound (graph_of self.now) (faces_in self.now) }
    {
        // Any use of a field tells what is kept.
        let _both = &self.both;
    }

    /// Where a point lies: the vertex at it, else the edge that has it inside, by its dart from the lower to the upper end, else the face
    /// that it lies in (CGAL manual, point location).
    ///
    /// A search among the vertices, and one look at each edge. It takes no memory.
    pub fn locate(&self, p: &Point) -> Spot
        ensures spot { IsSpotOf (graph_of self.now) (faces_in self.now) p.now result }
        ensures has { HasSpot (graph_of self.now) (faces_in self.now) result }
    {
        self.laws();
        listed_faces::locate(self.both.rows(), p)
    }

    /// The face that a point lies in, by its number; `None` where the point is a vertex or lies on an edge (CGAL manual, point location).
    ///
    /// A search among the vertices, and one look at each edge. It takes no memory.
    pub fn face_at(&self, p: &Point) -> Option<FaceId>
        ensures face { IfSome result (IsListedFaceAt self.now.drawing p.now) }
        ensures none { IfNone result (IsInNoListedFace self.now.drawing p.now) }
    {
        listed_faces::face_at(self.both.rows(), p)
    }

    /// A dart on each boundary of the overlay, in the order of the boundaries' names. By it and `face_left_of` one pass tells all
    /// boundaries of all faces.
    ///
    /// One look at each dart.
    ///
    /// # Errors
    ///
    /// There was no memory for the list.
    pub fn boundaries(&self) -> Result<Vec<DartId>, NoMemory>
        ensures boundaries { IfOk result (λ v. AreDartsOnCycles (graph_of self.now) (faces_in self.now) v.items) }
    {
        listed_faces::darts_on_boundaries(self.both.allocator(), self.both.rows())
    }

    /// A dart on each boundary of a face that is of this kind, with the face on its left: on the outer one, which each face but the
    /// unbounded one has, or on those of its holes (CGAL manual, `outer_ccb`, `inner_ccbs`).
    ///
    /// One look at each dart, since an overlay keeps no lists by face; `boundaries` tells them for all faces at the same cost.
    ///
    /// # Errors
    ///
    /// There was no memory for a list.
    pub fn boundaries_of(&self, face: FaceId, kind: CycleKind) -> Result<Vec<DartId>, NoMemory>
        requires face { HasFace (faces_in self.now) face }
        ensures boundaries { IfOk result (λ v. AreBoundariesOf (graph_of self.now) (faces_in self.now) face kind v.items) }
    {
        listed_faces::boundaries_of(self.both.allocator(), self.both.rows(), face, kind)
    }

    /// The isolated vertices in a face (CGAL manual, `isolated_vertices`).
    ///
    /// One search for each vertex among the darts.
    ///
    /// # Errors
    ///
    /// There was no memory for the list.
    pub fn isolated_in(&self, face: FaceId) -> Result<Vec<VertexId>, NoMemory>
        requires face { HasFace (faces_in self.now) face }
        ensures isolated { IfOk result (λ v. AreJust (IsIsolatedIn (faces_in self.now) face) v.items) }
    {
        self.laws();
        listed_faces::isolated_in(self.both.allocator(), self, face)
    }

    /// The face on the left of a dart (CGAL manual, `face` of a halfedge).
    ///
    /// The dart and its boundary are looked up, in constant time.
    pub fn face_left_of(&self, dart: DartId) -> FaceId
        requires dart { HasDart (graph_of self.now) dart }
        ensures face { result ≡ face_left (faces_in self.now) dart }
        ensures has { HasFace (faces_in self.now) result }
    {
        self.face(self.cycle(dart))
    }

    /// Once along the boundary that a dart is on, from this one on; the face lies on the left of all (CGAL manual,
    /// `Ccb_halfedge_circulator`).
    ///
    /// One look at each dart, when it comes. It takes no memory.
    pub fn along(&self, dart: DartId) -> Along<'_, Overlay>
        requires dart { HasDart (graph_of self.now) dart }
        ensures along { AreAlong (graph_of self.now) (faces_in self.now) dart result }
        ensures have { AllByRecursion (HasDart (graph_of self.now)) result }
    {
        self.laws();
        Along::new(self, dart)
    }

    /// The same darts in a list.
    ///
    /// # Errors
    ///
    /// There was no memory for the list.
    pub fn darts_along(&self, dart: DartId) -> Result<Vec<DartId>, NoMemory>
        requires dart { HasDart (graph_of self.now) dart }
        ensures along { IfOk result (λ v. AreAlong (graph_of self.now) (faces_in self.now) dart v.items) }
    {
        self.along(dart).list(self.both.allocator())
    }

    /// Once round a vertex clockwise, along the darts out of it (CGAL manual, `Halfedge_around_vertex_circulator`).
    ///
    /// A search for the first dart, and one look at each when it comes. It takes no memory.
    pub fn round(&self, vertex: VertexId) -> Round<'_, Overlay>
        requires vertex { HasVertex (graph_of self.now) vertex }
        ensures round { AreRound (graph_of self.now) vertex result }
        ensures have { AllByRecursion (HasDart (graph_of self.now)) result }
    {
        self.laws();
        Round::new(self, vertex)
    }

    /// The same darts in a list.
    ///
    /// # Errors
    ///
    /// There was no memory for the list.
    pub fn darts_round(&self, vertex: VertexId) -> Result<Vec<DartId>, NoMemory>
        requires vertex { HasVertex (graph_of self.now) vertex }
        ensures round { IfOk result (λ v. AreRound (graph_of self.now) vertex v.items) }
    {
        self.round(vertex).list(self.both.allocator())
    }
}
