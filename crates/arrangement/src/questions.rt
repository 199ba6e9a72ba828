ghost use Rattle.std.specs.Prelude.{◌≡◌, ◌↔◌, ◌≢◌, ⊤, not, map, length, IfOk, IsErrOf, OnErr};
ghost use Rattle.std.specs.List.{count_by};
ghost use Rattle.exact_plane.specs.Point.{Point};
ghost use Rattle.plane_graphs.specs.Ascending.{Member, IsAscending};
ghost use Rattle.plane_graphs.specs.Graph.{graph, edges, curves, edge_cmp};
ghost use Rattle.slab_laws.specs.Subdivision.{holds};
ghost use Rattle.slab_laws.specs.Text.{present_text};
ghost use Rattle.arrangement.specs.Arranged.{arranged, layer_in, subdivision_by};
ghost use Rattle.arrangement.specs.Questions.{curves_between, IsNoEdge, AreEdgesOf, TakesMemory};

use crate::arrangement::Arrangement;
use crate::edges::ends_in_order;
use arr_text::text;
use curve_history::{Drawn, HistoryError};
use exact_plane::Point;
use locate_naive::edge_dart;
use no_memory::NoMemory;
use slab_laws::{Cell, CurveId, DartId, Darts, Strategy};
use thiserror::Error;

/// How many cells of each kind an arrangement has, and how many named curves.
#[derive(Clone, Copy, Debug, PartialEq, Eq)]
pub struct Counts {
    pub vertices: usize,
    pub edges: usize,
    pub faces: usize,
    /// Boundary cycles that bound their face from inside: its holes.
    pub inner: usize,
    /// Vertices that are no end of an edge.
    pub isolated: usize,
    pub curves: u32,
}

/// Why the curves of an edge can't be told.
#[derive(Clone, Copy, Debug, PartialEq, Eq, Error)]
pub enum EdgeError {
    /// No edge has these two ends.
    #[error("no edge has these two ends")]
    NoEdge,
    /// There was no memory for the answer.
    #[error("no memory")]
    NoMemory,
}

impl From<NoMemory> for EdgeError {
    ghost use Rattle.std.specs.Prelude.{◌≡◌};
    ghost use Rattle.arrangement.specs.declared.questions.EdgeError.TheVariants.{NoMemory as OutOfMemory};

    ghost from_gives = { λ _ e. e ≡ OutOfMemory };

    fn from(_error: NoMemory) -> EdgeError {
        EdgeError::NoMemory
    }
}

impl Arrangement {
    /// Where a point lies: at a vertex, on an edge, or in a face, told by its rank (CGAL manual, point location).
    ///
    /// The answer is the same under every strategy. Naive and walking location take no memory. The first question after an edit builds
    /// the trapezoidal map, or finds where the landmarks lie, and asks for memory then.
    /// Of a point in a face, the first question after an edit counts the faces before it, the second one ranks all, and the next ones look
    /// the rank up.
    ///
    /// # Errors
    ///
    /// There was no memory, under landmarks or the trapezoidal map.
    // The premise that always holds: other crates' checks take a call without any that has a box under `&mut` for one that makes boxes.
    pub fn locate(&mut self, strategy: Strategy, p: &Point) -> Result<Cell, NoMemory>
        requires always { ⊤ }
        ensures cell { IfOk result (λ c. c ≡ holds (subdivision_by (arranged Observer-dyn self.old)) p.now) }
        ensures no_memory { OnErr result (TakesMemory strategy) }
        ensures same { self.new ≡ self.old }
    {
        let alloc = self.alloc;
        self.layer.locate(alloc, strategy, p)
    }

    /// How many vertices, edges, faces, inner cycles, isolated vertices and named curves there are. Each number is kept, or comes from
    /// such numbers, so it takes constant time, and no memory.
    pub fn counts(&self) -> Counts
        ensures vertices { result.vertices ≡ length (subdivision_by (arranged Observer-dyn self.now)).graph.vertices }
        ensures edges { result.edges ≡ length (subdivision_by (arranged Observer-dyn self.now)).graph.edges }
        ensures faces { result.faces ≡ length (subdivision_by (arranged Observer-dyn self.now)).faces }
        ensures inner { result.inner ≡ count_by (λ k. not k.outer) (subdivision_by (arranged Observer-dyn self.now)).cycles }
        ensures isolated { result.isolated ≡ length (subdivision_by (arranged Observer-dyn self.now)).bare }
        ensures curves { result.curves ≡ length (layer_in (arranged Observer-dyn self.now)).names }
    {
        let rows = self.layer.records.counts();
        Counts {
            vertices: rows.vertices,
            edges: rows.darts / 2,
            faces: rows.faces,
            // Each face but the unbounded one has one outer cycle.
            inner: rows.cycles - (rows.faces - 1),
            isolated: rows.isolated,
            curves: self.layer.history.named(),
        }
    }

    /// The text of the subdivision.
    ///
    /// # Errors
    ///
    /// There was no memory for the text or for a table on the way.
    pub fn text(&self) -> Result<Vec<u8>, NoMemory>
        ensures { IfOk result (λ bytes. bytes.items ≡ present_text (layer_in (arranged Observer-dyn self.now)).present) }
    {
        let drawn = Drawn::new(&self.layer.records, &self.layer.history);
        text(self.alloc, &drawn)
    }

    /// The curves along the edge between two points, which come in either order; their numbers ascend (CGAL manual,
    /// originating curves).
    ///
    /// # Errors
    ///
    /// No edge has these two ends, whatever memory there is; or there was no memory for the list.
    pub fn curves_of(&self, p: &Point, q: &Point) -> Result<Vec<CurveId>, EdgeError>
        ensures curves { IfOk result (λ v. map (λ c. c.0) v.items ≡ curves_between (arranged Observer-dyn self.now) p.now q.now) }
        ensures no_edge { IsErrOf result EdgeError.NoEdge ↔ IsNoEdge (arranged Observer-dyn self.now) p.now q.now }
    {
        // Whether there is such an edge takes no memory to tell.
        let Some(edge) = edge_dart(&self.layer.records, p, q) else {
            return Err(EdgeError::NoEdge);
        };
        Ok(self.layer.history.curves_of(self.alloc, edge)?)
    }

    /// The edges along which a curve runs, each by its lower and its upper end, in the order of these (CGAL manual, induced
    /// edges).
    ///
    /// # Errors
    ///
    /// No curve has this number, whatever memory there is; or there was no memory for the list.
    pub fn edges_of(&self, curve: CurveId) -> Result<Vec<(Point, Point)>, HistoryError>
        ensures edges { IfOk result (λ v. AreEdgesOf (arranged Observer-dyn self.now) curve.0 v.items) }
        ensures ascend { IfOk result (λ v. IsAscending edge_cmp (map (λ p. record { low = p.0; high = p.1 }) v.items)) }
        ensures unknown { IsErrOf result HistoryError.Unknown ↔ ¬ Member curve.0 (layer_in (arranged Observer-dyn self.now)).names }
    {
        let darts = self.layer.history.edges_of(self.alloc, curve)?;
        match ends_in_order(self.alloc, &self.layer.records, &darts) {
            Ok(ends) => Ok(ends),
            Err(NoMemory) => Err(HistoryError::NoMemory),
        }
    }
}
