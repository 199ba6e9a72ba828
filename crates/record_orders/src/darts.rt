ghost use Rattle.std.specs.Prelude.{◌≡◌, map, IfOk};
ghost use Rattle.std.specs.List.{AllByRecursion};
ghost use Rattle.std.specs.Ordering.{is_lt};
ghost use Rattle.exact_plane.specs.PointOrder.{point_cmp};
ghost use Rattle.slab_laws.specs.Sound.{IsGraphSound};
ghost use Rattle.slab_laws.specs.View.{HasDart};
ghost use Rattle.record_orders.specs.Keys.{dart_key, dart_keys};

use arr_notes::dart_names;
use exact_plane::Point;
use no_memory::NoMemory;
use slab_laws::{DartId, Darts};
use std::alloc::Global;

/// A dart with the points of its ends, by which it is ordered.
#[derive(Clone, Copy, PartialEq, Eq, PartialOrd, Ord)]
pub struct DartKey {
    pub source: Point,
    pub target: Point,
    pub name: DartId,
}

/// Whether the dart goes from the lower to the upper end of its edge (CGAL manual, direction of a halfedge).
pub fn is_forward(dart: &DartKey) -> bool
    ensures { result ≡ is_lt (point_cmp dart.now.source dart.now.target) }
{
    dart.source < dart.target
}

fn key_of<R: Darts>(records: &R, name: DartId) -> DartKey
    requires sound { IsGraphSound (R.graph records.now) }
    requires has { HasDart (R.graph records.now) name }
    ensures { result ≡ dart_key (R.graph records.now) name }
{
    DartKey {
        source: records.point(records.source(name)),
        target: records.point(records.target(name)),
        name,
    }
}

pub(crate) fn keys_of<R: Darts>(
    alloc: Global,
    records: &R,
    names: &[DartId],
) -> Result<Vec<DartKey>, NoMemory>
    requires sound { IsGraphSound (R.graph records.now) }
    requires have { AllByRecursion (λ d. HasDart (R.graph records.now) d) names.now }
    ensures { IfOk result (λ v. v.items ≡ map (dart_key (R.graph records.now)) names.now) }
{
    let mut keys = Vec::new(alloc);
    for name in names {
        keys.push(key_of(records, *name))?;
    }
    Ok(keys)
}

/// All darts by source, then by target.
///
/// # Errors
///
/// There was no memory for the list.
pub fn darts_in_order<R: Darts>(alloc: Global, records: &R) -> Result<Vec<DartKey>, NoMemory>
    requires { IsGraphSound (R.graph records.now) }
    ensures { IfOk result (λ v. v.items ≡ dart_keys (R.graph records.now)) }
{
    let names = dart_names(alloc, records)?;
    let mut keys = keys_of(alloc, records, &names)?;
    // No two darts have one source and one target, so the names never decide.
    keys.sort_unstable();
    Ok(keys)
}
