ghost use Rattle.std.specs.Prelude.{◌≡◌, ◌≢◌, IfSome, IfNone};
ghost use Rattle.slab_laws.specs.Tables.{names, NamesAscend};
ghost use Rattle.slab_laws.specs.View.{HasVertex, HasDart, HasCycle, HasFace, HasBareFace, IsOutOf, source_in, target_in, twin_in, next_in, vertex_after_in, dart_after_in, cycle_in, face_in, bare_face_in, cycle_after_in, face_after_in};
ghost use Rattle.slab_laws.specs.FaceLists.{first_of, cycle_follower, vertex_follower};

use slab_laws::{CycleId, DartId, FaceId, VertexId};

/// The calls on a graph with faces that answer names alone: none of them tells where anything lies, and none is counted as a
/// look.
pub trait NameCalls {
    ghost use Rattle.slab_laws.specs.View.{View, Faces};
    ghost use Rattle.slab_laws.specs.FaceLists.{Lists};

    /// What the records mean: vertices and darts by name.
    ghost graph: { Self → View };

    /// Cycles and faces by name.
    ghost faces: { Self → Faces };

    /// The lists of each face, in the order in which they are read, and a dart for each cycle.
    ghost lists: { Self → Lists };

    /// The vertex that the dart leaves.
    fn source(&self, d: DartId) -> VertexId
        requires { HasDart (graph self.now) d }
        ensures { result ≡ source_in (graph self.now) d };

    /// The vertex that the dart reaches.
    fn target(&self, d: DartId) -> VertexId
        requires { HasDart (graph self.now) d }
        ensures { result ≡ target_in (graph self.now) d };

    /// The opposite dart on the same edge.
    fn twin(&self, d: DartId) -> DartId
        requires { HasDart (graph self.now) d }
        ensures twin { result ≡ twin_in (graph self.now) d }
        ensures has { HasDart (graph self.now) result }
        ensures back { twin_in (graph self.now) result ≡ d }
        ensures other { result ≢ d };

    /// The dart that follows on the cycle of the dart.
    fn next(&self, d: DartId) -> DartId
        requires { HasDart (graph self.now) d }
        ensures { result ≡ next_in (graph self.now) d };

    /// A dart out of the vertex, or `None` where there is none.
    fn out_of(&self, v: VertexId) -> Option<DartId>
        requires { HasVertex (graph self.now) v }
        ensures some { IfSome result (IsOutOf (graph self.now) v) }
        ensures none { IfNone result ((d : _) → ¬ IsOutOf (graph self.now) v d) };

    /// The next greater name of a vertex, or the least; `None` after the last. It takes any name.
    fn vertex_after(&self, v: Option<VertexId>) -> Option<VertexId>
        ensures after { result ≡ vertex_after_in (graph self.now) v }
        ensures ascend { NamesAscend (names (graph self.now).vertices) };

    /// The next greater name of a dart, or the least; `None` after the last. It takes any name.
    fn dart_after(&self, d: Option<DartId>) -> Option<DartId>
        ensures after { result ≡ dart_after_in (graph self.now) d }
        ensures ascend { NamesAscend (names (graph self.now).darts) };

    /// The cycle that the dart is on.
    fn cycle(&self, d: DartId) -> CycleId
        requires { HasDart (graph self.now) d }
        ensures cycle { result ≡ cycle_in (faces self.now) d }
        ensures has { HasCycle (faces self.now) result };

    /// The face that the cycle bounds.
    fn face(&self, c: CycleId) -> FaceId
        requires { HasCycle (faces self.now) c }
        ensures face { result ≡ face_in (faces self.now) c }
        ensures has { HasFace (faces self.now) result };

    /// The face in which the vertex lies, one that no dart leaves.
    fn bare_face(&self, v: VertexId) -> FaceId
        requires { HasBareFace (faces self.now) v }
        ensures face { result ≡ bare_face_in (faces self.now) v }
        ensures has { HasFace (faces self.now) result };

    /// The next greater name of a cycle, or the least; `None` after the last. It takes any name.
    fn cycle_after(&self, c: Option<CycleId>) -> Option<CycleId>
        ensures after { result ≡ cycle_after_in (faces self.now) c }
        ensures ascend { NamesAscend (names (faces self.now).cycles) };

    /// The next greater name of a face, or the least; `None` after the last. It takes any name.
    fn face_after(&self, f: Option<FaceId>) -> Option<FaceId>
        ensures after { result ≡ face_after_in (faces self.now) f }
        ensures ascend { NamesAscend (faces self.now).faces };

    /// The first cycle in the face's list.
    fn first_cycle_of(&self, face: FaceId) -> Option<CycleId>
        requires { HasFace (faces self.now) face }
        ensures { result ≡ first_of ((lists self.now).cycles face) };

    /// The cycle after another one in the list of its face.
    fn cycle_after_in_face(&self, cycle: CycleId) -> Option<CycleId>
        requires { HasCycle (faces self.now) cycle }
        ensures { result ≡ cycle_follower cycle ((lists self.now).cycles (face_in (faces self.now) cycle)) };

    /// The dart that is kept for the cycle.
    fn dart_on(&self, cycle: CycleId) -> DartId
        requires { HasCycle (faces self.now) cycle }
        ensures { result ≡ (lists self.now).dart_on cycle };

    /// The first isolated vertex in the face's list.
    fn first_isolated_in(&self, face: FaceId) -> Option<VertexId>
        requires { HasFace (faces self.now) face }
        ensures { result ≡ first_of ((lists self.now).bare face) };

    /// The isolated vertex after another one in the list of its face.
    fn isolated_after_in_face(&self, v: VertexId) -> Option<VertexId>
        requires { HasBareFace (faces self.now) v }
        ensures { result ≡ vertex_follower v ((lists self.now).bare (bare_face_in (faces self.now) v)) };
}
