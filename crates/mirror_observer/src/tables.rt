use crate::faces::FaceTables;
use exact_plane::{Line, Point};
use slab_laws::{CurveId, DartId, Sequence, VertexId};
use std::collections::BTreeMap;

/// What is kept of a vertex.
#[derive(Clone, Copy)]
pub struct VertexEntry {
    pub point: Point,
    pub pinned: bool,
}

/// What is kept of a dart: beside what a view says, the dart that it follows.
#[derive(Clone, Copy)]
pub struct DartEntry {
    pub source: VertexId,
    pub twin: DartId,
    pub next: DartId,
    pub previous: DartId,
    pub line: Line,
}

/// Vertices, darts, the curves along edges, cycles and faces, each by name.
#[derive(Drop)]
pub struct Tables {
    pub(crate) vertices: BTreeMap<usize, VertexEntry>,
    pub(crate) darts: BTreeMap<usize, DartEntry>,
    pub(crate) curves: BTreeMap<usize, Sequence<CurveId>>,
    pub(crate) faces: FaceTables,
}
