use exact_plane::{Point, Span};
use present_graphs::Mark;
use slab_laws::{CycleKind, ListedDart};

/// The rows of a subdivision of the plane by a graph, each list ascending: anything's name is its place in its list, a face's
/// is its rank.
#[derive(Drop)]
pub struct RowLists {
    /// The vertices.
    pub points: Vec<Point>,
    /// The pinned points.
    pub pins: Vec<Point>,
    /// Of each vertex whether it is pinned.
    pub pinned: Vec<bool>,
    /// The edges with their curves.
    pub marks: Vec<Mark>,
    /// The edges with their lines.
    pub edges: Vec<Span>,
    /// The darts, by source, then by target.
    pub darts: Vec<ListedDart>,
    /// Of each dart its twin.
    pub twins: Vec<usize>,
    /// Of each dart the next one of its cycle.
    pub nexts: Vec<usize>,
    /// Of each dart its cycle.
    pub in_cycles: Vec<usize>,
    /// Of each cycle, by their least darts, whether it bounds its face from outside.
    pub kinds: Vec<CycleKind>,
    /// Of each cycle the rank of its face.
    pub cycle_ranks: Vec<usize>,
    /// Of each vertex without darts the rank of its face; of the others, 0.
    pub bare_ranks: Vec<usize>,
    /// How many faces there are.
    pub faces: usize,
}
