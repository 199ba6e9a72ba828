ghost use Rattle.std.specs.Prelude.{◌≡◌, map, IfOk};
ghost use Rattle.plane_graphs.specs.Ascending.{ascending};
ghost use Rattle.sweep_graphs.specs.Edges.{ends_of, ends_cmp, stretch_cmp};

use crate::trace::Stretch;
use no_memory::NoMemory;
use std::alloc::{AllocError, Global};

/// An edge, told by the places of its ends.
#[derive(Clone, Copy, PartialEq, Eq, PartialOrd, Ord)]
pub struct EdgeEnds {
    /// The lower end.
    pub low: usize,
    /// The upper end.
    pub high: usize,
}

// The edge that a stretch runs along.
pub(crate) fn edge_along(stretch: &Stretch) -> EdgeEnds
    ensures { result ≡ ends_of stretch.now }
{
    EdgeEnds {
        low: stretch.low,
        high: stretch.high,
    }
}

// The edges that stretches run along, in the order of these.
fn all_along(alloc: Global, stretches: &[Stretch]) -> Result<Vec<EdgeEnds>, AllocError>
    ensures { IfOk result (λ v. v.items ≡ map ends_of stretches.now) }
{
    stretches
        .iter()
        .map(|stretch| edge_along(stretch))
        .collect(alloc)
}

// Brings edges into their order, each once.
fn arrange_edges(edges: &mut Vec<EdgeEnds>)
    ensures { edges.new.items ≡ ascending ends_cmp edges.old.items }
{
    edges.sort_unstable();
    edges.dedup();
}

/// The edges that stretches run along, in their order, each once.
///
/// # Errors
///
/// There was no memory.
pub fn edges_along(alloc: Global, stretches: &[Stretch]) -> Result<Vec<EdgeEnds>, NoMemory>
    ensures { IfOk result (λ v. v.items ≡ ascending ends_cmp (map ends_of stretches.now)) }
{
    let mut edges = all_along(alloc, stretches)?;
    arrange_edges(&mut edges);
    Ok(edges)
}

// Brings stretches into their order, each once.
fn arrange_stretches(stretches: &mut Vec<Stretch>)
    ensures { stretches.new.items ≡ ascending stretch_cmp stretches.old.items }
{
    stretches.sort_unstable();
    stretches.dedup();
}

/// Stretches in the order of their edges, those along one edge by their pieces, each once.
///
/// # Errors
///
/// There was no memory.
pub fn stretches_by_edges(alloc: Global, stretches: &[Stretch]) -> Result<Vec<Stretch>, NoMemory>
    ensures { IfOk result (λ v. v.items ≡ ascending stretch_cmp stretches.now) }
{
    let mut sorted = Vec::from_slice(alloc, stretches)?;
    arrange_stretches(&mut sorted);
    Ok(sorted)
}
