ghost use Rattle.std.specs.Prelude.{◌≡◌, ◌<◌, ◌==◌, ℕ, map, filter, length, slice_set, slice_index_or, Some, None, IfOk};
ghost use Rattle.lower_envelope.specs.Slabs.{further_at, is_new, ends_at, inner, is_proper, covers};
ghost use Rattle.lower_envelope.specs.Slabs.{AreSlanted, ArePlaces, IsOffered, AreJoined, IsWithin, AreWithin, AreInTurn, AreBest};

use crate::order::is_lower;
use envelope_laws::Which;
use exact_plane::Span;
use no_memory::NoMemory;
use std::alloc::{AllocError, Global};

/// An edge, by its place in a list, and the slabs that it spans: from `low` on and before `high`.
#[derive(Clone, Copy)]
pub(crate) struct Stretch {
    pub(crate) place: usize,
    pub(crate) low: usize,
    pub(crate) high: usize,
}

// Whether the first edge is further out than the second, in the slabs that both span.
fn is_further(which: Which, edges: &[Span], first: usize, second: usize) -> bool
    requires slanted { AreSlanted edges.now }
    requires first { first < length edges.now }
    requires second { second < length edges.now }
    ensures { result ≡ further_at which edges.now first second }
{
    match which {
        Which::Lower => is_lower(&edges[first], &edges[second]),
        Which::Upper => is_lower(&edges[second], &edges[first]),
    }
}

// Whether an edge takes the place of the one that stands.
fn is_taken(which: Which, edges: &[Span], stands: Option<usize>, place: usize) -> bool
    requires slanted { AreSlanted edges.now }
    requires place { place < length edges.now }
    requires stands { (a : ℕ) → stands ≡ Some a → a < length edges.now }
    ensures { result ≡ is_new (further_at which edges.now) stands place }
{
    match stands {
        Some(other) => is_further(which, edges, place, other),
        None => true,
    }
}

fn put(slabs: &mut Vec<Option<usize>>, slab: usize, place: usize)
    requires { slab < length slabs.old.items }
    ensures { slabs.new.items ≡ slice_set slabs.old.items slab (Some place) }
{
    slabs[slab] = Some(place);
}

/// What stands for a slab.
pub(crate) fn stands_at(slabs: &[Option<usize>], slab: usize) -> Option<usize>
    ensures { result ≡ slice_index_or slabs.now slab None }
{
    match slabs.get(slab) {
        Some(stands) => *stands,
        None => None,
    }
}

// Offers an edge to a slab, which keeps the outermost.
fn offer(which: Which, edges: &[Span], slabs: &mut Vec<Option<usize>>, slab: usize, place: usize)
    requires slanted { AreSlanted edges.now }
    requires place { place < length edges.now }
    requires slab { slab < length slabs.old.items }
    requires stand { ArePlaces edges.now slabs.old.items }
    ensures length { length slabs.new.items ≡ length slabs.old.items }
    ensures offers { IsOffered (further_at which edges.now) (λ i. i == slab) place slabs.old.items slabs.new.items }
    ensures stand { ArePlaces edges.now slabs.new.items }
{
    if is_taken(which, edges, stands_at(slabs, slab), place) {
        put(slabs, slab, place);
    }
}

// Offers an edge to the slabs at the ends of its range that aren't halves of a pair within it.
fn offer_ends(which: Which, edges: &[Span], slabs: &mut Vec<Option<usize>>, stretch: &Stretch)
    requires slanted { AreSlanted edges.now }
    requires within { IsWithin edges.now (length slabs.old.items) stretch.now }
    requires stand { ArePlaces edges.now slabs.old.items }
    ensures length { length slabs.new.items ≡ length slabs.old.items }
    ensures offers { IsOffered (further_at which edges.now) (ends_at stretch.now) stretch.now.place slabs.old.items slabs.new.items }
    ensures stand { ArePlaces edges.now slabs.new.items }
{
    if stretch.low % 2 == 1 {
        offer(which, edges, slabs, stretch.low, stretch.place);
    }
    if stretch.high % 2 == 1 {
        offer(which, edges, slabs, stretch.high - 1, stretch.place);
    }
}

// The pairs of slabs that the rest of a range has.
fn pairs_of(stretch: &Stretch) -> Stretch
    ensures { result ≡ inner stretch.now }
{
    Stretch {
        place: stretch.place,
        low: stretch.low / 2 + stretch.low % 2,
        high: stretch.high / 2,
    }
}

pub(crate) fn has_some(stretch: &Stretch) -> bool
    ensures { result ≡ is_proper stretch.now }
{
    stretch.low < stretch.high
}

// What is left for the next round.
fn wider(alloc: Global, stretches: &[Stretch]) -> Result<Vec<Stretch>, AllocError>
    ensures { IfOk result (λ v. v.items ≡ filter is_proper (map inner stretches.now)) }
{
    stretches
        .iter()
        .map(|stretch| pairs_of(stretch))
        .filter(|stretch| has_some(stretch))
        .collect(alloc)
}

// The slabs of one round, before those of pairs are known.
fn ends_of(
    alloc: Global,
    which: Which,
    edges: &[Span],
    stretches: &[Stretch],
    count: usize,
) -> Result<Vec<Option<usize>>, NoMemory>
    requires slanted { AreSlanted edges.now }
    requires within { AreWithin edges.now count stretches.now }
    requires in_turn { AreInTurn (further_at which edges.now) stretches.now }
    ensures length { IfOk result (λ v. length v.items ≡ count) }
    ensures best { IfOk result (λ v. AreBest (further_at which edges.now) ends_at stretches.now v.items) }
    ensures stand { IfOk result (λ v. ArePlaces edges.now v.items) }
{
    let mut slabs = Vec::new(alloc);
    slabs.resize(count, None)?;
    for stretch in stretches {
        offer_ends(which, edges, &mut slabs, stretch);
    }
    Ok(slabs)
}

// Offers to each slab what is outermost for its pair.
fn offer_pairs(
    which: Which,
    edges: &[Span],
    slabs: &mut Vec<Option<usize>>,
    pairs: &[Option<usize>],
)
    requires slanted { AreSlanted edges.now }
    requires stand { ArePlaces edges.now slabs.old.items }
    requires pairs { ArePlaces edges.now pairs.now }
    ensures length { length slabs.new.items ≡ length slabs.old.items }
    ensures joins { AreJoined (further_at which edges.now) pairs.now slabs.old.items slabs.new.items }
    ensures stand { ArePlaces edges.now slabs.new.items }
{
    for slab in 0..slabs.len() {
        if let Some(place) = stands_at(pairs, slab / 2) {
            offer(which, edges, slabs, slab, place);
        }
    }
}

/// Of each slab the outermost of the edges that span it, if there is one.
///
/// # Errors
///
/// There was no memory.
pub(crate) fn outermost_of(
    alloc: Global,
    which: Which,
    edges: &[Span],
    stretches: &[Stretch],
    count: usize,
) -> Result<Vec<Option<usize>>, NoMemory>
    requires slanted { AreSlanted edges.now }
    requires within { AreWithin edges.now count stretches.now }
    requires in_turn { AreInTurn (further_at which edges.now) stretches.now }
    ensures length { IfOk result (λ v. length v.items ≡ count) }
    ensures best { IfOk result (λ v. AreBest (further_at which edges.now) covers stretches.now v.items) }
    ensures stand { IfOk result (λ v. ArePlaces edges.now v.items) }
{
    let mut slabs = ends_of(alloc, which, edges, stretches, count)?;
    let rest = wider(alloc, stretches)?;
    if !rest.is_empty() {
        let pairs = outermost_of(alloc, which, edges, &rest, count / 2 + count % 2)?;
        offer_pairs(which, edges, &mut slabs, &pairs);
    }
    Ok(slabs)
}
