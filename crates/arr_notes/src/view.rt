ghost use Rattle.std.specs.Prelude.{◌≡◌, map};
ghost use Rattle.std.specs.List.{flat_map};
ghost use Rattle.arr_notes.specs.ViewRows.{HaveLines, bare_row, cycle_of_row, cycle_row, dart_row, edge_row, vertex_row};

use exact_plane::{Line, Point};
use slab_laws::{CurveId, CycleId, CycleKind, DartId, FaceId, Sequence, VertexId};
use std::marker::Model;

/// A vertex of a view: its name, its point, whether it is pinned, and the face that it lies in where no dart leaves it.
#[derive(Clone, Copy)]
pub struct VertexRow {
    pub name: VertexId,
    pub point: Point,
    pub pinned: bool,
    pub face: Option<FaceId>,
}

/// A dart of a view: its name, the vertex that it leaves, its opposite, the dart that follows on its cycle, the line of its
/// edge, and its cycle.
#[derive(Clone, Copy)]
pub struct DartRow {
    pub name: DartId,
    pub source: VertexId,
    pub twin: DartId,
    pub next: DartId,
    pub line: Line,
    pub cycle: CycleId,
}

/// An edge of a view: the name of its dart from the lower to the upper end, its line, and the numbers of its curves, ascending.
#[derive(Drop)]
pub struct EdgeRow {
    pub dart: DartId,
    pub line: Line,
    pub curves: Sequence<CurveId>,
}

/// A cycle of a view: its name, whether it bounds its face from outside, and that face.
#[derive(Clone, Copy)]
pub struct CycleRow {
    pub name: CycleId,
    pub kind: CycleKind,
    pub face: FaceId,
}

/// Records as they stand at one moment, handed over whole: vertices, darts, edges, cycles and faces, each ascending by name.
#[derive(Drop)]
pub struct View {
    pub(crate) vertices: Sequence<VertexRow>,
    pub(crate) darts: Sequence<DartRow>,
    pub(crate) edges: Sequence<EdgeRow>,
    pub(crate) cycles: Sequence<CycleRow>,
    pub(crate) faces: Sequence<FaceId>,
}

impl Model for View {
    ghost use Rattle.arr_notes.specs.CurvedView.{CurvedView};
    ghost use Rattle.arr_notes.specs.ViewRows.{graph_of_rows, view_of_rows, HaveLines};

    ghost Value = { CurvedView };

    ghost view = { λ v. view_of_rows v.vertices v.darts v.edges v.cycles v.faces };

    ghost invariant = { λ v. HaveLines (graph_of_rows v.vertices v.darts) v.edges };
}

impl View {
    /// The vertices, ascending by name.
    pub fn vertices(&self) -> &[VertexRow]
        ensures vertices { map vertex_row result.now ≡ self.now.graph.vertices }
        ensures bare { flat_map (λ r. bare_row r.name r.face) result.now ≡ self.now.faces.bare }
    {
        self.vertices.as_slice()
    }

    /// The darts, ascending by name.
    pub fn darts(&self) -> &[DartRow]
        ensures darts { map dart_row result.now ≡ self.now.graph.darts }
        ensures cycles { map cycle_of_row result.now ≡ self.now.faces.cycle_of }
    {
        self.darts.as_slice()
    }

    /// The edges, ascending by the name of the dart from the lower to the upper end.
    pub fn edges(&self) -> &[EdgeRow]
        ensures curves { map edge_row result.now ≡ self.now.curves }
        ensures lines { HaveLines self.now.graph result.now }
    {
        self.edges.as_slice()
    }

    /// The cycles, ascending by name.
    pub fn cycles(&self) -> &[CycleRow]
        ensures { map cycle_row result.now ≡ self.now.faces.cycles }
    {
        self.cycles.as_slice()
    }

    /// The names of the faces, ascending; that of the unbounded one stands first.
    pub fn faces(&self) -> &[FaceId]
        ensures { map (λ a. a.0) result.now ≡ self.now.faces.faces }
    {
        self.faces.as_slice()
    }
}
