ghost use Rattle.std.specs.Prelude.{◌≡◌, map, IfOk};
ghost use Rattle.plane_graphs.specs.Graph.{graph, edges};
ghost use Rattle.slab_laws.specs.Tables.{NamesAscend};
ghost use Rattle.slab_laws.specs.View.{HasFace, face_id};
ghost use Rattle.record_orders.specs.Edges.{edge_of};
ghost use Rattle.arrangement.specs.Arranged.{arranged, layer_in};
ghost use Rattle.dart_walks.specs.DartWalks.{AreJust};
ghost use Rattle.arrangement.specs.Listed.{curves_drawn, forward_ends};

use crate::arrangement::Arrangement;
use arr_notes::face_names;
use curve_history::History;
use exact_plane::Point;
use no_memory::NoMemory;
use record_orders::{DartKey, darts_in_order, is_forward};
use slab_laws::{CurveId, FaceId};
use std::alloc::Global;

// The curve of each piece, in the order of the pieces.
fn curve_of_each(alloc: Global, history: &History) -> Result<Vec<CurveId>, NoMemory>
    ensures { IfOk result (λ v. map (λ c. c.0) v.items ≡ map (λ k. k.curve) history.now.pieces) }
{
    let mut curves = Vec::new(alloc);
    for piece in history.pieces_in_order() {
        curves.push(piece.curve)?;
    }
    Ok(curves)
}

// The ends of the edges of darts, each edge once, by its dart from the lower end.
fn ends_of_each(alloc: Global, darts: &[DartKey]) -> Result<Vec<(Point, Point)>, NoMemory>
    ensures { IfOk result (λ v. v.items ≡ forward_ends darts.now) }
{
    let mut ends = Vec::new(alloc);
    for dart in darts {
        if is_forward(dart) {
            ends.push((dart.source, dart.target))?;
        }
    }
    Ok(ends)
}

impl Arrangement {
    /// The curves that run along an edge, by their numbers, ascending. One that has lost all its edges to `remove_edge` keeps its number, which
    /// [`counts`](Arrangement::counts) counts, and isn't among these (CGAL manual, `curves_begin`).
    ///
    /// The pieces are sorted: n log n steps for n of them.
    ///
    /// # Errors
    ///
    /// There was no memory for the list.
    pub fn curves(&self) -> Result<Vec<CurveId>, NoMemory>
        ensures { IfOk result (λ v. map (λ c. c.0) v.items ≡ curves_drawn (layer_in (arranged Observer-dyn self.now)).present) }
    {
        let mut curves = curve_of_each(self.alloc, &self.layer.history)?;
        curves.sort_unstable();
        curves.dedup();
        Ok(curves)
    }

    /// The edges, each by its lower and its upper end, in the order of these (CGAL manual, `edges_begin`). The darts are sorted: n log n steps
    /// for n of them.
    ///
    /// # Errors
    ///
    /// There was no memory for the list or for the one of the darts.
    pub fn edges(&self) -> Result<Vec<(Point, Point)>, NoMemory>
        ensures { IfOk result (λ v. map edge_of v.items ≡ edges (graph (layer_in (arranged Observer-dyn self.now)).present)) }
    {
        let darts = darts_in_order(self.alloc, &self.layer.records)?;
        ends_of_each(self.alloc, &darts)
    }

    /// The faces, each by its name; the names ascend, and that of the unbounded one comes first (CGAL manual, `faces_begin`). One look at each
    /// face.
    ///
    /// # Errors
    ///
    /// There was no memory for the list.
    pub fn faces(&self) -> Result<Vec<FaceId>, NoMemory>
        ensures faces { IfOk result (λ v. AreJust (HasFace (arranged Observer-dyn self.now).faces) v.items) }
        ensures names { IfOk result (λ v. v.items ≡ map face_id (arranged Observer-dyn self.now).faces.faces) }
        ensures ascend { NamesAscend (arranged Observer-dyn self.now).faces.faces }
    {
        face_names(self.alloc, &self.layer.records)
    }
}
