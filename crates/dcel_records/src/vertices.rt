ghost use Rattle.std.specs.Prelude.{◌≡◌, ◌≤◌, true, false, length};
ghost use Rattle.std.specs.List.{filter};
ghost use Rattle.slab_laws.specs.View.{HasVertex, HasFace, IsOutOf};
ghost use Rattle.arr_notes.specs.ViewChanges.{with_vertex, without_vertex, with_pin};
ghost use Rattle.arr_notes.specs.FaceWriters.{bare_in, not_bare};
ghost use Rattle.dcel_records.specs.ListChanges.{vertex_listed, vertex_unlisted};
ghost use Rattle.dcel_records.specs.RecordsView.{point_found, lists_of, IsSpare, IsSpareFaces};
ghost use Rattle.dcel_records.specs.Spots.{IsVertexAt};

use crate::bare::leave_face;
use crate::records::Records;
use crate::rows::StoredVertex;
use exact_plane::Point;
use slab_laws::{FaceId, VertexId};

impl Records {
    /// The point of the vertex, or `None` for a name without a record.
    pub fn point_of(&self, v: VertexId) -> Option<Point>
        ensures { result ≡ point_found self.now.graph v }
    {
        match self.vertices.get(v.0) {
            None => None,
            Some(vertex) => Some(vertex.point),
        }
    }

    /// Whether the map from points to vertices is whole. New records have it whole, and so have cleared ones, until two vertices
    /// have one point, or no memory is found for an entry of the map.
    pub fn is_mapped(&self) -> bool
        ensures { result ≡ self.now.mapped }
    {
        self.at.whole
    }

    /// The vertex at a point. Where the map from points to vertices is whole (`is_mapped`), it looks at the vertices whose
    /// points have the point's hash, so at one or two, unless points were chosen to share theirs; where it isn't, at all
    /// vertices. It takes no memory.
    pub fn vertex_at(&self, point: &Point) -> Option<VertexId>
        ensures { IsVertexAt self.now.graph point.now result }
    {
        if self.at.whole {
            return self.at.vertex(point);
        }
        for (key, vertex) in self.vertices.iter() {
            if vertex.point == *point {
                return Some(VertexId(key));
            }
        }
        None
    }

    /// A new vertex at the point, not pinned, without a dart: it is isolated in the face, and the first in its list; in room
    /// that is there.
    pub fn add_vertex(&mut self, point: Point, face: FaceId) -> VertexId
        requires spare { 1 ≤ self.old.spare_vertices }
        requires face { HasFace self.old.faces.tables face }
        ensures name { ¬ HasVertex self.old.graph result }
        ensures graph { self.new.graph ≡ with_vertex self.old.graph result point }
        ensures spare { IsSpare self.new self.old 1 0 }
        ensures tables { self.new.faces.tables ≡ bare_in result face self.old.faces.tables }
        ensures lists { lists_of self.new ≡ vertex_listed result face (lists_of self.old) }
        ensures spare_faces { IsSpareFaces self.old.faces self.new.faces 0 0 }
        ensures moved { self.new.faces.moved ≡ self.old.faces.moved }
        ensures mapped { self.new.mapped ≡ true → self.old.mapped ≡ true }
    {
        // Who has a face of its own has a record, so a new vertex has none yet.
        self.face_laws();
        let v = self.add_vertex_on_edge(point);
        self.set_bare(v, face);
        v
    }

    /// A new vertex, not pinned, without a dart, in no face's list, in room that is there. A vertex on an edge has no face of
    /// its own: this is the edge crates' own writer, which put the parts of the edge at it in the same step.
    pub fn add_vertex_on_edge(&mut self, point: Point) -> VertexId
        requires { 1 ≤ self.old.spare_vertices }
        ensures name { ¬ HasVertex self.old.graph result }
        ensures graph { self.new.graph ≡ with_vertex self.old.graph result point }
        ensures spare { IsSpare self.new self.old 1 0 }
        ensures faces { self.new.faces ≡ self.old.faces }
        ensures mapped { self.new.mapped ≡ true → self.old.mapped ≡ true }
    {
        let v = VertexId(
            self.vertices.insert_reserved(StoredVertex {
                point,
                pinned: false,
                out: None,
                place: None,
            }),
        );
        self.at.put(point, v);
        v
    }

    /// A vertex that no dart leaves goes, out of the list of its face too, where it is in one.
    pub fn remove_vertex(&mut self, v: VertexId)
        requires vertex { HasVertex self.old.graph v }
        requires bare { (d : _) → ¬ IsOutOf self.old.graph v d }
        ensures graph { self.new.graph ≡ without_vertex self.old.graph v }
        ensures spare { IsSpare self.old self.new 1 0 }
        ensures tables { self.new.faces.tables ≡ not_bare v self.old.faces.tables }
        ensures lists { lists_of self.new ≡ vertex_unlisted v (lists_of self.old) }
        ensures spare_faces { IsSpareFaces self.old.faces self.new.faces 0 0 }
        ensures moved { self.new.faces.moved ≡ self.old.faces.moved }
        ensures mapped { self.new.mapped ≡ self.old.mapped }
    {
        leave_face(&mut self.vertices, &mut self.faces, &mut self.isolated, v);
        let vertex = self.vertices.remove(v.0);
        self.at.take(&vertex.point);
        if vertex.pinned {
            self.pins -= 1;
        }
    }

    /// How many vertices are pinned.
    pub fn pins(&self) -> usize
        ensures { result ≡ length (filter (λ r. r.1.pinned) self.now.graph.vertices) }
    {
        self.pins
    }

    /// The vertex is pinned.
    pub fn set_pin(&mut self, v: VertexId)
        requires { HasVertex self.old.graph v }
        ensures graph { self.new.graph ≡ with_pin self.old.graph v true }
        ensures spare { IsSpare self.old self.new 0 0 }
        ensures faces { self.new.faces ≡ self.old.faces }
        ensures mapped { self.new.mapped ≡ self.old.mapped }
    {
        if self.vertices[v.0].pinned {
            return;
        }
        self.vertices[v.0].pinned = true;
        // No more vertices are pinned than there is room for, which a `usize` counts.
        let _vertices = self.vertices.capacity();
        self.pins += 1;
    }

    /// The vertex is not pinned.
    pub fn clear_pin(&mut self, v: VertexId)
        requires { HasVertex self.old.graph v }
        ensures graph { self.new.graph ≡ with_pin self.old.graph v false }
        ensures spare { IsSpare self.old self.new 0 0 }
        ensures faces { self.new.faces ≡ self.old.faces }
        ensures mapped { self.new.mapped ≡ self.old.mapped }
    {
        if !self.vertices[v.0].pinned {
            return;
        }
        self.vertices[v.0].pinned = false;
        self.pins -= 1;
    }
}
