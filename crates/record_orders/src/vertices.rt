ghost use Rattle.std.specs.Prelude.{◌≡◌, map, IfOk};
ghost use Rattle.std.specs.List.{AllByRecursion};
ghost use Rattle.slab_laws.specs.Sound.{IsGraphSound};
ghost use Rattle.slab_laws.specs.View.{HasVertex};
ghost use Rattle.record_orders.specs.Keys.{vertex_key, vertex_keys};

use arr_notes::vertex_names;
use exact_plane::Point;
use no_memory::NoMemory;
use slab_laws::{Darts, VertexId};
use std::alloc::{AllocError, Global};

/// A vertex with its point, by which it is ordered.
#[derive(Clone, Copy, PartialEq, Eq, PartialOrd, Ord)]
pub struct VertexKey {
    pub point: Point,
    pub name: VertexId,
}

/// The points of vertices, in their order.
///
/// # Errors
///
/// There was no memory for the list.
pub fn points_of(alloc: Global, vertices: &[VertexKey]) -> Result<Vec<Point>, AllocError>
    ensures { IfOk result (λ v. v.items ≡ map (λ k. k.point) vertices.now) }
{
    vertices.iter().map(|vertex| vertex.point).collect(alloc)
}

fn keys_of<R: Darts>(
    alloc: Global,
    records: &R,
    names: &[VertexId],
) -> Result<Vec<VertexKey>, NoMemory>
    requires { AllByRecursion (λ u. HasVertex (R.graph records.now) u) names.now }
    ensures { IfOk result (λ v. v.items ≡ map (vertex_key (R.graph records.now)) names.now) }
{
    let mut keys = Vec::new(alloc);
    for name in names {
        let point = records.point(*name);
        keys.push(VertexKey { point, name: *name })?;
    }
    Ok(keys)
}

/// All vertices in the order of their points (CGAL manual, lexicographic order).
///
/// # Errors
///
/// There was no memory for the list.
pub fn vertices_in_order<R: Darts>(alloc: Global, records: &R) -> Result<Vec<VertexKey>, NoMemory>
    requires { IsGraphSound (R.graph records.now) }
    ensures { IfOk result (λ v. v.items ≡ vertex_keys (R.graph records.now)) }
{
    let names = vertex_names(alloc, records)?;
    let mut keys = keys_of(alloc, records, &names)?;
    // No two vertices have one point, so the names never decide.
    keys.sort_unstable();
    Ok(keys)
}
