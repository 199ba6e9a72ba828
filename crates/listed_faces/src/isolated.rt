ghost use Rattle.std.specs.Prelude.{◌≡◌, IfOk};
ghost use Rattle.slab_laws.specs.FacesSound.{IsComplete};
ghost use Rattle.slab_laws.specs.View.{HasVertex};
ghost use Rattle.dart_walks.specs.DartWalks.{AreJust};
ghost use Rattle.listed_faces.specs.FaceParts.{IsIsolatedIn};
ghost use Rattle.listed_faces.specs.Boundaries.{is_isolated_in};

use no_memory::NoMemory;
use slab_laws::{FaceId, Faced, VertexId};
use std::alloc::Global;

// Whether a vertex has no dart and lies in the face.
fn is_isolated_in<R: Faced>(graph: &R, vertex: VertexId, face: FaceId) -> bool
    requires complete { IsComplete (R.graph graph.now) (R.faces graph.now) }
    requires vertex { HasVertex (R.graph graph.now) vertex }
    ensures { result ≡ is_isolated_in (R.faces graph.now) face vertex }
{
    match graph.out_of(vertex) {
        Some(_) => false,
        None => graph.bare_face(vertex) == face,
    }
}

/// The isolated vertices in a face.
///
/// One look at each vertex.
///
/// # Errors
///
/// There was no memory for the list.
pub fn isolated_in<R: Faced>(
    alloc: Global,
    graph: &R,
    face: FaceId,
) -> Result<Vec<VertexId>, NoMemory>
    requires complete { IsComplete (R.graph graph.now) (R.faces graph.now) }
    ensures { IfOk result (λ v. AreJust (IsIsolatedIn (R.faces graph.now) face) v.items) }
{
    let mut found = Vec::new(alloc);
    let mut last = None;
    'vertices: while let Some(vertex) = graph.vertex_after(last) {
        if is_isolated_in(graph, vertex, face) {
            found.push(vertex)?;
        }
        last = Some(vertex);
    }
    Ok(found)
}
