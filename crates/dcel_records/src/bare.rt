ghost use Rattle.std.specs.Prelude.{◌≡◌};
ghost use Rattle.slab.specs.Slab.{ContainsKey};
ghost use Rattle.slab_laws.specs.View.{HasVertex, HasFace, HasBareFace};
ghost use Rattle.arr_notes.specs.FaceWriters.{bare_in, not_bare};
ghost use Rattle.dcel_records.specs.ListChanges.{vertex_listed, vertex_unlisted, vertex_relisted};
ghost use Rattle.dcel_records.specs.Placing.{vertex_placing, AreChained};
ghost use Rattle.dcel_records.specs.StoredRows.{isolated_among, HasLeft};
ghost use Rattle.dcel_records.specs.RecordsView.{graph_part, lists_of, IsSpareFaces};

use crate::links::{link_first, unlink};
use crate::records::Records;
use crate::rows::{StoredFace, StoredVertex};
use crate::table::Table;
use slab_laws::{FaceId, VertexId};

/// The vertex is taken out of the list of its face, where it is in one, and has no place; fewer are isolated then.
pub(crate) fn leave_face(
    vertices: &mut Table<StoredVertex>,
    faces: &mut Table<StoredFace>,
    isolated: &mut usize,
    v: VertexId,
)
    requires chained { AreChained vertex_placing vertices.old faces.old }
    requires has { ContainsKey vertices.old v.0 }
    requires counted { isolated.old ≡ isolated_among vertices.old }
    ensures left { HasLeft v.0 vertices.old vertices.new faces.old faces.new }
    ensures counted { isolated.new ≡ isolated_among vertices.new }
{
    if vertices[v.0].place.is_none() {
        return;
    }
    unlink(vertices, faces, v.0);
    vertices[v.0].place = None;
    *isolated -= 1;
}

impl Records {
    /// The vertex is isolated in the face, and the first in its list. This writes one field of a row: a writer of the edge
    /// crates, for a vertex that loses its last dart; a vertex that comes gets its face with its record (`add_vertex`).
    pub fn set_bare(&mut self, v: VertexId, face: FaceId)
        requires vertex { HasVertex self.old.graph v }
        requires elsewhere { ¬ HasBareFace self.old.faces.tables v }
        requires face { HasFace self.old.faces.tables face }
        ensures tables { self.new.faces.tables ≡ bare_in v face self.old.faces.tables }
        ensures lists { lists_of self.new ≡ vertex_listed v face (lists_of self.old) }
        ensures spare { IsSpareFaces self.old.faces self.new.faces 0 0 }
        ensures moved { self.new.faces.moved ≡ self.old.faces.moved }
        ensures graph { graph_part self.new ≡ graph_part self.old }
        ensures mapped { self.new.mapped ≡ self.old.mapped }
    {
        link_first(&mut self.vertices, &mut self.faces, v.0, face);
        // No more vertices are isolated than there is room for, which a `usize` counts.
        let _vertices = self.vertices.capacity();
        self.isolated += 1;
    }

    /// The vertex isn't isolated any more; where it wasn't, nothing is done.
    pub fn clear_bare(&mut self, v: VertexId)
        requires { HasVertex self.old.graph v }
        ensures tables { self.new.faces.tables ≡ not_bare v self.old.faces.tables }
        ensures lists { lists_of self.new ≡ vertex_unlisted v (lists_of self.old) }
        ensures spare { IsSpareFaces self.old.faces self.new.faces 0 0 }
        ensures moved { self.new.faces.moved ≡ self.old.faces.moved }
        ensures graph { graph_part self.new ≡ graph_part self.old }
        ensures mapped { self.new.mapped ≡ self.old.mapped }
    {
        leave_face(&mut self.vertices, &mut self.faces, &mut self.isolated, v);
    }

    /// An isolated vertex becomes the first in the list of another face, or of its own.
    pub fn move_bare(&mut self, v: VertexId, face: FaceId)
        requires vertex { HasBareFace self.old.faces.tables v }
        requires face { HasFace self.old.faces.tables face }
        ensures tables { self.new.faces.tables ≡ bare_in v face self.old.faces.tables }
        ensures lists { lists_of self.new ≡ vertex_relisted v face (lists_of self.old) }
        ensures spare { IsSpareFaces self.old.faces self.new.faces 0 0 }
        ensures moved { self.new.faces.moved ≡ self.old.faces.moved }
        ensures graph { graph_part self.new ≡ graph_part self.old }
        ensures mapped { self.new.mapped ≡ self.old.mapped }
    {
        unlink(&mut self.vertices, &mut self.faces, v.0);
        link_first(&mut self.vertices, &mut self.faces, v.0, face);
    }
}
