ghost use Rattle.std.specs.Prelude.{◌≡◌, ◌↔◌, ◌==◌, map, IfOk};
ghost use Rattle.std.specs.List.{AllByRecursion, IsDistinct};
ghost use Rattle.plane_graphs.specs.Ascending.{Member, IsAscending};
ghost use Rattle.plane_graphs.specs.Graph.{edge_cmp};
ghost use Rattle.slab_laws.specs.Sound.{IsGraphSound, edge_in};
ghost use Rattle.arr_notes.specs.Curves.{IsForward};
ghost use Rattle.record_orders.specs.Edges.{edge_of};

use dcel_records::Records;
use exact_plane::Point;
use no_memory::NoMemory;
use record_orders::{DartKey, edges_in_order};
use slab_laws::DartId;
use std::alloc::Global;

fn ends_of(alloc: Global, edges: &[DartKey]) -> Result<Vec<(Point, Point)>, NoMemory>
    ensures { IfOk result (λ v. v.items ≡ map (λ k. (k.source, k.target)) edges.now) }
{
    let mut ends = Vec::new(alloc);
    for edge in edges {
        ends.push((edge.source, edge.target))?;
    }
    Ok(ends)
}

/// The ends of edges, which are told by their darts from the lower to the upper end, in the order of edges.
///
/// # Errors
///
/// There was no memory for the list.
pub(crate) fn ends_in_order(
    alloc: Global,
    records: &Records,
    darts: &[DartId],
) -> Result<Vec<(Point, Point)>, NoMemory>
    requires sound { IsGraphSound records.now.graph }
    requires forward { AllByRecursion (λ d. IsForward records.now.graph d) darts.now }
    requires once { IsDistinct (λ a b. a.0 == b.0) darts.now }
    ensures edges { IfOk result (λ v. (e : _) → Member e (map edge_of v.items) ↔ Member e (map (edge_in records.now.graph) darts.now)) }
    ensures ascend { IfOk result (λ v. IsAscending edge_cmp (map edge_of v.items)) }
{
    let edges = edges_in_order(alloc, records, darts)?;
    ends_of(alloc, &edges)
}
