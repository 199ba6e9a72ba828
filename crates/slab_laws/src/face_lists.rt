ghost use Rattle.std.specs.Prelude.{◌≡◌};
ghost use Rattle.slab_laws.specs.View.{HasCycle, HasFace, HasBareFace, face_in, bare_face_in};
ghost use Rattle.slab_laws.specs.FaceLists.{first_of, cycle_follower, vertex_follower};

use crate::faced::Faced;
use crate::names::{CycleId, DartId, FaceId, VertexId};

/// A graph whose faces list their own cycles and the isolated vertices that lie in them.
///
/// A call answers a name, in constant time. That the lists are those of the faces is `AreLists`, which stands beside
/// soundness.
pub trait FaceLists: Faced {
    ghost use Rattle.slab_laws.specs.FaceLists.{Lists};

    /// The lists of each face, in the order in which they are read, and a dart for each cycle.
    ghost lists: { Self → Lists };

    /// The first cycle in the face's list.
    fn first_cycle_of(&self, face: FaceId) -> Option<CycleId>
        requires { HasFace (Self.faces self.now) face }
        ensures { result ≡ first_of ((lists self.now).cycles face) };

    /// The cycle after another one in the list of its face.
    fn cycle_after_in_face(&self, cycle: CycleId) -> Option<CycleId>
        requires { HasCycle (Self.faces self.now) cycle }
        ensures { result ≡ cycle_follower cycle ((lists self.now).cycles (face_in (Self.faces self.now) cycle)) };

    /// The dart that is kept for the cycle.
    fn dart_on(&self, cycle: CycleId) -> DartId
        requires { HasCycle (Self.faces self.now) cycle }
        ensures { result ≡ (lists self.now).dart_on cycle };

    /// The first isolated vertex in the face's list.
    fn first_isolated_in(&self, face: FaceId) -> Option<VertexId>
        requires { HasFace (Self.faces self.now) face }
        ensures { result ≡ first_of ((lists self.now).bare face) };

    /// The isolated vertex after another one in the list of its face.
    fn isolated_after_in_face(&self, v: VertexId) -> Option<VertexId>
        requires { HasBareFace (Self.faces self.now) v }
        ensures { result ≡ vertex_follower v ((lists self.now).bare (bare_face_in (Self.faces self.now) v)) };
}
