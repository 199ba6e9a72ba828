ghost use Rattle.std.specs.Prelude.{◌≡◌, IfOk};
ghost use Rattle.exact_plane.specs.PointOrder.{point_cmp};
ghost use Rattle.plane_graphs.specs.Ascending.{IsAscending};
ghost use Rattle.slab_laws.specs.Skeleton.{IsPlaneSkeleton};
ghost use Rattle.slab_laws.specs.SpansDrawn.{drawn};
ghost use Rattle.slab_laws.specs.Rows.{next_places, lead_places};
ghost use Rattle.dart_orbits.specs.CycleLinks.{place_links};

use crate::numbers::least_of_classes;
use exact_plane::{Point, Span};
use no_memory::NoMemory;
use slab_laws::Link;
use std::alloc::Global;

// Each place with the place that follows it.
fn links_of(alloc: Global, nexts: &[usize]) -> Result<Vec<Link<usize>>, NoMemory>
    ensures { IfOk result (λ ls. ls.items ≡ place_links nexts.now) }
{
    let mut links = Vec::with_capacity(alloc, nexts.len())?;
    for (one, next) in nexts.iter().enumerate() {
        links.push(Link { one, other: *next })?;
    }
    Ok(links)
}

/// Of each dart the place of the least dart of its cycle, by which cycles are told apart (this project).
///
/// The places of the darts that follow are those of `nexts_of` for these points and edges, which say what graph is meant and
/// aren't read. A cycle is a class of the links between each dart and the one that follows.
///
/// # Errors
///
/// `NoMemory` where there is no memory for the list.
pub(crate) fn least_darts(
    alloc: Global,
    points: &[Point],
    edges: &[Span],
    nexts: &[usize],
) -> Result<Vec<usize>, NoMemory>
    requires plane { IsPlaneSkeleton (drawn points.now edges.now) }
    requires ascend { IsAscending point_cmp points.now }
    requires nexts { nexts.now ≡ next_places (drawn points.now edges.now) }
    ensures { IfOk result (λ ls. ls.items ≡ lead_places (drawn points.now edges.now)) }
{
    let links = links_of(alloc, nexts)?;
    least_of_classes(alloc, nexts.len(), &links)
}
