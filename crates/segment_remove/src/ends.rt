ghost use Rattle.std.specs.Prelude.{◌≡◌, map, IfOk};
ghost use Rattle.std.specs.List.{AllByRecursion, flat_map};
ghost use Rattle.slab_laws.specs.Sound.{IsGraphSound};
ghost use Rattle.slab_laws.specs.View.{HasDart, HasVertex};
ghost use Rattle.record_orders.specs.Keys.{vertex_key};
ghost use Rattle.segment_remove.specs.Ends.{two_ends, AreEnds};

use dcel_records::Records;
use no_memory::NoMemory;
use record_orders::{DartKey, VertexKey};
use slab_laws::{Darts, VertexId};
use std::alloc::Global;

fn key_of(records: &Records, name: VertexId) -> VertexKey
    requires { HasVertex records.now.graph name }
    ensures { result ≡ vertex_key records.now.graph name }
{
    let point = records.point(name);
    VertexKey { point, name }
}

// Both ends of each edge, with their points.
fn end_keys(alloc: Global, records: &Records, edges: &[DartKey]) -> Result<Vec<VertexKey>, NoMemory>
    requires sound { IsGraphSound records.now.graph }
    requires have { AllByRecursion (λ k. HasDart records.now.graph k.name) edges.now }
    ensures { IfOk result (λ ks. ks.items ≡ flat_map (two_ends records.now.graph) edges.now) }
{
    let mut keys = Vec::new(alloc);
    for edge in edges {
        keys.push(key_of(records, records.source(edge.name)))?;
        keys.push(key_of(records, records.target(edge.name)))?;
    }
    Ok(keys)
}

fn names_of(alloc: Global, keys: &[VertexKey]) -> Result<Vec<VertexId>, NoMemory>
    ensures { IfOk result (λ ws. ws.items ≡ map (λ k. k.name) keys.now) }
{
    let mut names = Vec::new(alloc);
    for key in keys {
        names.push(key.name)?;
    }
    Ok(names)
}

/// The vertices at the ends of edges, in the order of their points, each once.
///
/// # Errors
///
/// There was no memory for the list.
pub(crate) fn ends_in_order(
    alloc: Global,
    records: &Records,
    edges: &[DartKey],
) -> Result<Vec<VertexId>, NoMemory>
    requires sound { IsGraphSound records.now.graph }
    requires have { AllByRecursion (λ k. HasDart records.now.graph k.name) edges.now }
    ensures { IfOk result (λ ws. AreEnds records.now.graph edges.now ws.items) }
{
    let mut keys = end_keys(alloc, records, edges)?;
    // A vertex has one point, so the names never decide.
    keys.sort_unstable();
    keys.dedup();
    names_of(alloc, &keys)
}
