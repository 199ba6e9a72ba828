ghost use Rattle.std.specs.Prelude.{◌≡◌, ℕ, true, List, []};
ghost use Rattle.slab_laws.specs.View.{VertexRecord};
ghost use Rattle.slab_laws.specs.declared.names.VertexId as names;
ghost use Rattle.dcel_records.specs.VertexMaps.{vertex_mapped, IsMapOf, IsOneMore};

use exact_plane::Point;
use slab_laws::VertexId;
use std::alloc::Global;
use std::collections::HashMap;

/// The vertex at each point, found by the point's hash.
///
/// The map is whole as long as each vertex has its entry. Once two vertices have one point, or no memory is given for an
/// entry, it is kept up no more, and a look for a vertex goes over all rows, until `clear`.
#[derive(Drop)]
pub(crate) struct VertexMap {
    vertices: HashMap<Point, VertexId>,
    pub(crate) whole: bool,
}

impl VertexMap {
    /// No vertices.
    pub(crate) fn new(alloc: Global) -> VertexMap
        ensures map { IsMapOf result [] }
        ensures whole { result.whole ≡ true }
    {
        VertexMap {
            vertices: HashMap::new(alloc),
            whole: true,
        }
    }

    /// Makes room for so many vertices more, where there is memory.
    pub(crate) fn reserve(&mut self, additional: usize)
        ensures map { (rows : List (ℕ × VertexRecord)) → IsMapOf self.old rows → IsMapOf self.new rows }
        ensures whole { self.new.whole ≡ self.old.whole }
    {
        // Without it an entry asks for memory when it is made, and the map may do without the entry.
        let _room = self.vertices.reserve(additional);
    }

    /// The vertex at the point, of a map that is whole.
    pub(crate) fn vertex(&self, point: &Point) -> Option<VertexId>
        ensures { result ≡ vertex_mapped self.now point.now }
    {
        self.vertices.get(point).copied()
    }

    /// A new vertex, at the point.
    pub(crate) fn put(&mut self, point: Point, v: VertexId)
        ensures map { (rows more : List (ℕ × VertexRecord)) → IsMapOf self.old rows → IsOneMore v point rows more → IsMapOf self.new more }
        ensures whole { self.new.whole ≡ true → self.old.whole ≡ true }
    {
        if !self.whole {
            return;
        }
        match self.vertices.insert(point, v) {
            Ok(None) => {}
            _ => self.whole = false,
        }
    }

    /// The vertex at the point goes.
    pub(crate) fn take(&mut self, point: &Point)
        ensures map { (v : names.VertexId) (rows less : List (ℕ × VertexRecord)) → IsMapOf self.old rows → IsOneMore v point.now less rows → IsMapOf self.new less }
        ensures whole { self.new.whole ≡ self.old.whole }
    {
        if self.whole {
            self.vertices.remove(point);
        }
    }

    /// All vertices go; their room stays.
    pub(crate) fn clear(&mut self)
        ensures map { IsMapOf self.new [] }
        ensures whole { self.new.whole ≡ true }
    {
        self.vertices.clear();
        self.whole = true;
    }
}
