ghost use Rattle.std.specs.Prelude.{◌≡◌, ◌≢◌, IfSome, IfNone};
ghost use Rattle.slab_laws.specs.Tables.{names, NamesAscend};
ghost use Rattle.slab_laws.specs.View.{HasVertex, HasDart, IsOutOf, point_in, pinned_in, source_in, twin_in, next_in, target_in, line_in, vertex_after_in, dart_after_in};

use crate::names::{DartId, VertexId};
use exact_plane::{Line, Point};

/// A graph of vertices and darts (halfedges) that is read by name.
///
/// A call takes a name that has a record. Its result is what the view has for the name.
pub trait Darts {
    ghost use Rattle.slab_laws.specs.View.{View};

    /// What the records mean: vertices and darts by name.
    ghost graph: { Self → View };

    /// The vertex that the dart leaves.
    fn source(&self, d: DartId) -> VertexId
        requires { HasDart (graph self.now) d }
        ensures { result ≡ source_in (graph self.now) d };

    /// The vertex that the dart reaches, which its twin leaves.
    fn target(&self, d: DartId) -> VertexId
        requires { HasDart (graph self.now) d }
        ensures { result ≡ target_in (graph self.now) d };

    /// The opposite dart on the same edge. Twin is its own inverse, and no dart is its own twin.
    fn twin(&self, d: DartId) -> DartId
        requires { HasDart (graph self.now) d }
        ensures twin { result ≡ twin_in (graph self.now) d }
        ensures has { HasDart (graph self.now) result }
        ensures back { twin_in (graph self.now) result ≡ d }
        ensures other { result ≢ d };

    /// The dart that follows on the cycle of the dart.
    fn next(&self, d: DartId) -> DartId
        requires { HasDart (graph self.now) d }
        ensures { result ≡ next_in (graph self.now) d };

    /// The point of the vertex.
    fn point(&self, v: VertexId) -> Point
        requires { HasVertex (graph self.now) v }
        ensures { result ≡ point_in (graph self.now) v };

    /// The line of the pieces that hold the dart's edge. Twins have one line.
    fn line(&self, d: DartId) -> Line
        requires { HasDart (graph self.now) d }
        ensures line { result ≡ line_in (graph self.now) d }
        ensures twins { line_in (graph self.now) (twin_in (graph self.now) d) ≡ line_in (graph self.now) d };

    /// Whether the vertex is pinned.
    fn pinned(&self, v: VertexId) -> bool
        requires { HasVertex (graph self.now) v }
        ensures { result ≡ pinned_in (graph self.now) v };

    /// A dart out of the vertex, or `None` where there is none.
    fn out_of(&self, v: VertexId) -> Option<DartId>
        requires { HasVertex (graph self.now) v }
        ensures some { IfSome result (IsOutOf (graph self.now) v) }
        ensures none { IfNone result ((d : _) → ¬ IsOutOf (graph self.now) v d) };

    /// The next greater name of a vertex, or the least; `None` after the last. It takes any name.
    fn vertex_after(&self, v: Option<VertexId>) -> Option<VertexId>
        ensures after { result ≡ vertex_after_in (graph self.now) v }
        ensures ascend { NamesAscend (names (graph self.now).vertices) };

    /// The next greater name of a dart, or the least; `None` after the last. It takes any name.
    fn dart_after(&self, d: Option<DartId>) -> Option<DartId>
        ensures after { result ≡ dart_after_in (graph self.now) d }
        ensures ascend { NamesAscend (names (graph self.now).darts) };
}
