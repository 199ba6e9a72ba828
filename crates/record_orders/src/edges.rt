ghost use Rattle.std.specs.Prelude.{◌≡◌, ◌↔◌, ◌==◌, map, IfOk};
ghost use Rattle.std.specs.List.{AllByRecursion, IsDistinct};
ghost use Rattle.plane_graphs.specs.Ascending.{Member, IsAscending};
ghost use Rattle.plane_graphs.specs.Graph.{edge_cmp};
ghost use Rattle.slab_laws.specs.Sound.{IsGraphSound};
ghost use Rattle.arr_notes.specs.Curves.{IsForward};
ghost use Rattle.record_orders.specs.Edges.{edge_of_key};
ghost use Rattle.record_orders.specs.Keys.{dart_key};

use crate::darts::{DartKey, keys_of};
use no_memory::NoMemory;
use slab_laws::{DartId, Darts};
use std::alloc::Global;

/// Darts from the lower to the upper end of their edges, with these ends, in the order of edges (CGAL manual,
/// lexicographic order).
///
/// # Errors
///
/// There was no memory for the list.
pub fn edges_in_order<R: Darts>(
    alloc: Global,
    records: &R,
    darts: &[DartId],
) -> Result<Vec<DartKey>, NoMemory>
    requires sound { IsGraphSound (R.graph records.now) }
    requires forward { AllByRecursion (λ d. IsForward (R.graph records.now) d) darts.now }
    requires once { IsDistinct (λ a b. a.0 == b.0) darts.now }
    ensures keys { IfOk result (λ ks. AllByRecursion (λ k. k ≡ dart_key (R.graph records.now) k.name) ks.items) }
    ensures names { IfOk result (λ ks. (d : DartId) → Member d (map (λ k. k.name) ks.items) ↔ Member d darts.now) }
    ensures ascend { IfOk result (λ ks. IsAscending edge_cmp (map edge_of_key ks.items)) }
{
    let mut keys = keys_of(alloc, records, darts)?;
    // No two edges have the same ends, so the names never decide.
    keys.sort_unstable();
    Ok(keys)
}
