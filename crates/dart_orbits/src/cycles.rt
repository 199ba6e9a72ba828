ghost use Rattle.std.specs.Prelude.{◌≡◌, length, IfOk};
ghost use Rattle.std.specs.List.Sorted.{IsStrictlyIncreasing};
ghost use Rattle.slab_laws.specs.SpansDrawn.{drawn};
ghost use Rattle.slab_laws.specs.Rows.{cycle_places, lead_places};
ghost use Rattle.slab_laws.specs.Skeleton.{IsPlaneSkeleton};
ghost use Rattle.dart_orbits.specs.CycleLinks.{cycle_leads, AreBelow, TellPlaces};

use crate::tables::{number_at, set_number};
use exact_plane::{Point, Span};
use no_memory::NoMemory;
use std::alloc::Global;

/// The places of the least darts of all cycles, ascending. Of the points and edges only the contract speaks.
///
/// # Errors
///
/// There was no memory for them.
pub fn least_darts_among(
    alloc: Global,
    points: &[Point],
    edges: &[Span],
    leads: &[usize],
) -> Result<Vec<usize>, NoMemory>
    requires plane { IsPlaneSkeleton (drawn points.now edges.now) }
    requires leads { leads.now ≡ lead_places (drawn points.now edges.now) }
    ensures { IfOk result (λ v. v.items ≡ cycle_leads (drawn points.now edges.now)) }
{
    let mut cycles = Vec::new(alloc);
    for (place, lead) in leads.iter().enumerate() {
        // The least dart of a cycle leads itself.
        if *lead == place {
            cycles.push(place)?;
        }
    }
    Ok(cycles)
}

// By the places of the least darts of cycles the places of these cycles, in a table that is so long.
fn places_by_leads(alloc: Global, cycles: &[usize], count: usize) -> Result<Vec<usize>, NoMemory>
    requires rise { IsStrictlyIncreasing cycles.now }
    requires below { AreBelow count cycles.now }
    ensures counted { IfOk result (λ v. length v.items ≡ count) }
    ensures each { IfOk result (λ v. TellPlaces cycles.now (length cycles.now) v.items) }
{
    let mut places = Vec::new(alloc);
    places.resize(count, 0)?;
    for (place, lead) in cycles.iter().enumerate() {
        set_number(&mut places, *lead, place);
    }
    Ok(places)
}

/// Of each dart the place of its cycle among the cycles. Of the points and edges only the contract speaks.
///
/// A table by the least darts tells each.
///
/// # Errors
///
/// There was no memory for the places.
pub fn cycles_at(
    alloc: Global,
    points: &[Point],
    edges: &[Span],
    leads: &[usize],
    cycles: &[usize],
) -> Result<Vec<usize>, NoMemory>
    requires plane { IsPlaneSkeleton (drawn points.now edges.now) }
    requires leads { leads.now ≡ lead_places (drawn points.now edges.now) }
    requires cycles { cycles.now ≡ cycle_leads (drawn points.now edges.now) }
    ensures { IfOk result (λ v. v.items ≡ cycle_places (drawn points.now edges.now)) }
{
    let by_leads = places_by_leads(alloc, cycles, leads.len())?;
    let mut places = Vec::with_capacity(alloc, leads.len())?;
    for lead in leads {
        places.push(number_at(&by_leads, *lead))?;
    }
    Ok(places)
}
