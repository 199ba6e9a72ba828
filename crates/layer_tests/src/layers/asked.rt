use crate::layers::edits::at;
use arrangement::{Arrangement, EdgeError, HistoryError};
use dcel_records::Records;
use exact_plane::Point;
use slab_laws::{CurveId, DartId, VertexId};
use std::test::Fail;

/// Names of records along the abscissa: of the vertices at 0, 1 and 4, and of the darts between the first two.
#[derive(Clone, Copy, PartialEq)]
pub struct Names {
    left: VertexId,
    middle: VertexId,
    right: VertexId,
    there: DartId,
    back: DartId,
}

// The name of the dart from one vertex to another, among the first hundred names.
fn dart(records: &Records, from: VertexId, to: VertexId) -> Option<DartId> {
    for name in 0..100 {
        if records.ends_of(DartId(name)) == Some((from, to)) {
            return Some(DartId(name));
        }
    }
    None
}

fn names_at(records: &Records, left: &Point, middle: &Point, right: &Point) -> Option<Names> {
    let left = records.vertex_at(left)?;
    let middle = records.vertex_at(middle)?;
    Some(Names {
        left,
        middle,
        right: records.vertex_at(right)?,
        there: dart(records, left, middle)?,
        back: dart(records, middle, left)?,
    })
}

/// The names, where all are there.
pub fn names_in(layer: &Arrangement) -> Result<Option<Names>, Fail> {
    let (left, middle, right) = (at(0, 0)?, at(1, 0)?, at(4, 0)?);
    Ok(names_at(layer.records(), &left, &middle, &right))
}

/// Whether just these curves run along the edge between two points of the abscissa; none where there is no edge.
pub fn has_curves(layer: &Arrangement, x: i128, z: i128, wanted: &[CurveId]) -> Result<bool, Fail> {
    let (first, second) = (at(x, 0)?, at(z, 0)?);
    match layer.curves_of(&first, &second) {
        Ok(found) => Ok(found.as_slice() == wanted),
        Err(EdgeError::NoEdge) => Ok(wanted.is_empty()),
        Err(EdgeError::NoMemory) => Ok(false),
    }
}

/// Whether the curve runs along just the edge between two points of the abscissa, the lower one first.
pub fn has_edge(layer: &Arrangement, curve: u32, x: i128, z: i128) -> Result<bool, Fail> {
    let wanted = [(at(x, 0)?, at(z, 0)?)];
    match layer.edges_of(CurveId(curve)) {
        Ok(found) => Ok(found.as_slice() == wanted.as_slice()),
        Err(_) => Ok(false),
    }
}

pub fn is_unknown(layer: &Arrangement, curve: u32) -> bool {
    match layer.edges_of(CurveId(curve)) {
        Err(HistoryError::Unknown) => true,
        _ => false,
    }
}

/// Vertices, edges, faces, inner cycles, isolated vertices and curves.
pub fn counted(layer: &Arrangement) -> Result<[usize; 6], Fail> {
    let counts = layer.counts();
    let curves = usize::try_from(counts.curves)?;
    Ok([
        counts.vertices,
        counts.edges,
        counts.faces,
        counts.inner,
        counts.isolated,
        curves,
    ])
}
