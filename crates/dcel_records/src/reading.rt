ghost use Rattle.std.specs.Prelude.{◌≡◌};
ghost use Rattle.std.specs.Option.{option_map};
ghost use Rattle.slab.specs.Slab.{entries};
ghost use Rattle.slab_laws.specs.Tables.{name_after, names};
ghost use Rattle.slab_laws.specs.View.{vertex_id, dart_id};

use crate::records::Records;
use crate::rows::{StoredDart, StoredVertex};
use crate::table::Table;
use exact_plane::{Line, Point};
use slab_laws::{DartId, Darts, VertexId};

fn vertex_name_after(vertices: &Table<StoredVertex>, name: Option<VertexId>) -> Option<VertexId>
    ensures { result ≡ option_map vertex_id (name_after (names (entries vertices.now)) (option_map (λ n. n.0) name)) }
{
    vertices.key_after(name.map(|n| n.0)).map(VertexId)
}

fn dart_name_after(darts: &Table<StoredDart>, name: Option<DartId>) -> Option<DartId>
    ensures { result ≡ option_map dart_id (name_after (names (entries darts.now)) (option_map (λ n. n.0) name)) }
{
    darts.key_after(name.map(|n| n.0)).map(DartId)
}

impl Darts for Records {
    ghost use Rattle.dcel_records.specs.RecordsView.{graph_of};

    ghost graph = { graph_of };

    fn source(&self, d: DartId) -> VertexId {
        self.darts[d.0].source
    }

    fn target(&self, d: DartId) -> VertexId {
        let twin = self.darts[d.0].twin;
        self.darts[twin.0].source
    }

    fn twin(&self, d: DartId) -> DartId {
        self.darts[d.0].twin
    }

    fn next(&self, d: DartId) -> DartId {
        self.darts[d.0].next
    }

    fn point(&self, v: VertexId) -> Point {
        self.vertices[v.0].point
    }

    fn line(&self, d: DartId) -> Line {
        self.darts[d.0].line
    }

    fn pinned(&self, v: VertexId) -> bool {
        self.vertices[v.0].pinned
    }

    fn out_of(&self, v: VertexId) -> Option<DartId> {
        self.vertices[v.0].out
    }

    fn vertex_after(&self, v: Option<VertexId>) -> Option<VertexId> {
        vertex_name_after(&self.vertices, v)
    }

    fn dart_after(&self, d: Option<DartId>) -> Option<DartId> {
        dart_name_after(&self.darts, d)
    }
}
