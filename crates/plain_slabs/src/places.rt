ghost use Rattle.std.specs.Prelude.{◌≡◌, IfOk};
ghost use Rattle.slab_laws.specs.SpansDrawn.{edge_of};
ghost use Rattle.plain_slabs.specs.PlaceTables.{IsSlanted, HasNoVertical, HasNoVerticalAcross, count_below, places_in};

use crate::reaches::{Reach, list_across, list_new};
use edge_predicates::is_below;
use exact_plane::Span;
use no_memory::NoMemory;
use std::alloc::Global;

/// The places of the edges in one slab.
#[derive(Drop)]
pub(crate) struct Places {
    pub slab: usize,
    /// For each edge that spans the slab, how many of the slab's edges are below it; 0 for each other.
    pub below: Vec<usize>,
}

// How many of the edges are below the edge.
fn count_lower(reaches: &[Reach], edge: &Span) -> usize
    requires own { IsSlanted edge.now }
    requires others { HasNoVertical reaches.now }
    ensures { result ≡ count_below reaches.now (edge_of edge.now) }
{
    reaches.iter().filter(|r| is_below(&r.edge, edge)).count()
}

// The places in another slab.
pub(crate) fn move_to(
    alloc: Global,
    reaches: &[Reach],
    places: &Places,
    slab: usize,
) -> Result<Places, NoMemory>
    requires slanted { HasNoVerticalAcross reaches.now }
    requires places { places.now.below.items ≡ places_in reaches.now places.now.slab }
    ensures slab { IfOk result (λ p. p.slab ≡ slab) }
    ensures places { IfOk result (λ p. p.below.items ≡ places_in reaches.now slab) }
{
    let present = list_across(alloc, reaches, slab)?;
    let came = list_new(alloc, reaches, places.slab, slab)?;
    let gone = list_new(alloc, reaches, slab, places.slab)?;
    let mut below = Vec::new(alloc);
    for (k, reach) in reaches.iter().enumerate() {
        let place = if !reach.spans(slab) {
            0
        } else if reach.spans(places.slab) {
            places.below[k] + count_lower(&came, &reach.edge) - count_lower(&gone, &reach.edge)
        } else {
            count_lower(&present, &reach.edge)
        };
        below.push(place)?;
    }
    Ok(Places { slab, below })
}
