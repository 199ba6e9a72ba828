ghost use Rattle.std.specs.Prelude.{◌≡◌, ◌<◌, length, IfOk};
ghost use Rattle.slab_laws.specs.Rows.{next_places, lead_places};
ghost use Rattle.slab_laws.specs.Skeleton.{IsPlaneSkeleton};
ghost use Rattle.slab_laws.specs.SpansDrawn.{drawn};
ghost use Rattle.dart_orbits.specs.Walks.{ArePermuted, AreWhole, IsMarked};

use crate::tables::{number_at, set_number};
use exact_plane::{Point, Span};
use no_memory::NoMemory;
use std::alloc::Global;

// Walks the cycle of a dart, unless it is met already, and gives all its darts this one as their lead. A dart that isn't met has the
// number of all darts for its lead.
fn mark_cycle(leads: &mut Vec<usize>, nexts: &[usize], first: usize)
    requires counted { length leads.old.items ≡ length nexts.now }
    requires nexts { ArePermuted nexts.now }
    requires first { first < length nexts.now }
    requires whole { AreWhole nexts.now leads.old.items }
    ensures { IsMarked nexts.now first leads.old.items leads.new.items }
{
    let mut dart = first;
    'cycle: while number_at(leads, dart) == nexts.len() {
        set_number(leads, dart, first);
        dart = number_at(nexts, dart);
    }
}

/// Of each dart the place of the least dart of its cycle, by which cycles are told apart (this project).
///
/// The places of the darts that follow are those of `nexts_around` for these points and edges, which say what graph is meant and
/// aren't read. Each cycle is walked once, from its least dart.
pub(crate) fn least_darts_by_walks(
    alloc: Global,
    points: &[Point],
    edges: &[Span],
    nexts: &[usize],
) -> Result<Vec<usize>, NoMemory>
    requires plane { IsPlaneSkeleton (drawn points.now edges.now) }
    requires nexts { nexts.now ≡ next_places (drawn points.now edges.now) }
    ensures { IfOk result (λ v. v.items ≡ lead_places (drawn points.now edges.now)) }
{
    let mut leads = Vec::new(alloc);
    leads.resize(nexts.len(), nexts.len())?;
    for first in 0..nexts.len() {
        mark_cycle(&mut leads, nexts, first);
    }
    Ok(leads)
}
