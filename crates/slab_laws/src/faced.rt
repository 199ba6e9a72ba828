ghost use Rattle.std.specs.Prelude.{◌≡◌};
ghost use Rattle.slab_laws.specs.Tables.{names, NamesAscend};
ghost use Rattle.slab_laws.specs.View.{HasDart, HasCycle, HasFace, HasBareFace, cycle_in, face_in, kind_in, bare_face_in, cycle_after_in, face_after_in};

use crate::darts::Darts;
use crate::names::{CycleId, CycleKind, DartId, FaceId, VertexId};

/// A graph whose darts are on cycles, which bound faces.
pub trait Faced: Darts {
    ghost use Rattle.slab_laws.specs.View.{Faces};

    /// What the records mean: cycles and faces by name.
    ghost faces: { Self → Faces };

    /// The cycle that the dart is on.
    fn cycle(&self, d: DartId) -> CycleId
        requires { HasDart (Self.graph self.now) d }
        ensures cycle { result ≡ cycle_in (faces self.now) d }
        ensures has { HasCycle (faces self.now) result };

    /// The face that the cycle bounds.
    fn face(&self, c: CycleId) -> FaceId
        requires { HasCycle (faces self.now) c }
        ensures face { result ≡ face_in (faces self.now) c }
        ensures has { HasFace (faces self.now) result };

    /// Whether the cycle bounds its face from outside, or is a hole in it.
    fn kind(&self, c: CycleId) -> CycleKind
        requires { HasCycle (faces self.now) c }
        ensures { result ≡ kind_in (faces self.now) c };

    /// The face in which the vertex lies, one that no dart leaves.
    fn bare_face(&self, v: VertexId) -> FaceId
        requires { HasBareFace (faces self.now) v }
        ensures face { result ≡ bare_face_in (faces self.now) v }
        ensures has { HasFace (faces self.now) result };

    /// The next greater name of a cycle, or the least; `None` after the last. It takes any name.
    fn cycle_after(&self, c: Option<CycleId>) -> Option<CycleId>
        ensures after { result ≡ cycle_after_in (faces self.now) c }
        ensures ascend { NamesAscend (names (faces self.now).cycles) };

    /// The next greater name of a face, or the least; `None` after the last. It takes any name.
    fn face_after(&self, f: Option<FaceId>) -> Option<FaceId>
        ensures after { result ≡ face_after_in (faces self.now) f }
        ensures ascend { NamesAscend (faces self.now).faces };
}
