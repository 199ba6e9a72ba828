ghost use Rattle.std.specs.Prelude.{◌≡◌, ◌<◌, length, slice_index_or, slice_set, None, IfOk};
ghost use Rattle.std.specs.List.{find};
ghost use Rattle.sweep_graphs.specs.Edges.{ends_of};
ghost use Rattle.sweep_graphs.specs.EdgesBelow.{was_open, IsEdgeOfOpen, IsEdgeUnder, AreClosed, AreEdgesUnder};

use crate::edges::{EdgeEnds, edge_along};
use crate::trace::{OpenStretch, Stretch, Trace};
use no_memory::NoMemory;
use std::alloc::Global;

// Whether a stretch is the one that was told while it was open.
fn was_open(stretch: &Stretch, under: &OpenStretch) -> bool
    ensures { result ≡ was_open under.now stretch.now }
{
    stretch.low == under.low && stretch.piece == under.piece
}

// That stretch, found by going through all.
fn find_open(stretches: &[Stretch], under: &OpenStretch) -> Option<Stretch>
    ensures { result ≡ find (was_open under.now) stretches.now }
{
    stretches
        .iter()
        .copied()
        .find(|stretch| was_open(stretch, under))
}

fn found_edge(stretches: &[Stretch], under: &OpenStretch) -> Option<EdgeEnds>
    ensures { IsEdgeOfOpen stretches.now under.now result }
{
    let stretch = find_open(stretches, under)?;
    Some(edge_along(&stretch))
}

// The edge of an open stretch, where it is among the stretches: it should be at the place.
fn edge_of_open(stretches: &[Stretch], place: usize, under: &OpenStretch) -> Option<EdgeEnds>
    ensures { IsEdgeOfOpen stretches.now under.now result }
{
    match stretches.get(place) {
        Some(stretch) if was_open(stretch, under) => Some(edge_along(stretch)),
        _ => found_edge(stretches, under),
    }
}

// How many places a table by pieces has.
fn count_pieces(stretches: &[Stretch]) -> usize {
    let mut count = 0;
    for stretch in stretches {
        if stretch.piece >= count {
            count = stretch.piece.saturating_add(1);
        }
    }
    count
}

// The place that is noted of a piece.
fn place_of(places: &[usize], piece: usize) -> usize {
    match places.get(piece) {
        Some(place) => *place,
        None => 0,
    }
}

// The edge of what is below a vertex, where of each piece the place of its stretch that ends first after the vertex is noted.
fn edge_under(
    stretches: &[Stretch],
    places: &[usize],
    below: &[Option<OpenStretch>],
    vertex: usize,
) -> Option<EdgeEnds>
    requires { vertex < length below.now }
    ensures { IsEdgeUnder stretches.now (slice_index_or below.now vertex None) result }
{
    match &below[vertex] {
        Some(under) => edge_of_open(stretches, place_of(places, under.piece), under),
        None => None,
    }
}

fn set_edge(edges: &mut Vec<Option<EdgeEnds>>, vertex: usize, edge: Option<EdgeEnds>)
    requires { vertex < length edges.old.items }
    ensures { edges.new.items ≡ slice_set edges.old.items vertex edge }
{
    edges[vertex] = edge;
}

fn ends_at(stretches: &[Stretch], place: usize, vertex: usize) -> bool {
    match stretches.get(place) {
        Some(stretch) => stretch.high == vertex,
        None => false,
    }
}

fn note_place(places: &mut Vec<usize>, stretches: &[Stretch], place: usize) {
    if let Some(stretch) = stretches.get(place) {
        if let Some(noted) = places.get_mut(stretch.piece) {
            *noted = place;
        }
    }
}

// Notes the places of the stretches that end at a vertex, going back from a place, and gives the one where it stops. What a wrong
// note costs is time alone.
fn note_ends(places: &mut Vec<usize>, stretches: &[Stretch], from: usize, vertex: usize) -> usize {
    let mut place = from;
    'ends: while place > 0 && ends_at(stretches, place - 1, vertex) {
        place -= 1;
        note_place(places, stretches, place);
    }
    place
}

/// Of each vertex the edge directly below it. It goes back from the last vertex, since the stretch below one is that of its piece
/// which ends first after it: each stretch is met once.
///
/// # Errors
///
/// There was no memory.
pub fn edges_below(alloc: Global, trace: &Trace) -> Result<Vec<Option<EdgeEnds>>, NoMemory>
    requires { AreClosed trace.now }
    ensures { IfOk result (λ v. AreEdgesUnder trace.now v.items) }
{
    let stretches = trace.stretches.as_slice();
    let below = trace.below.as_slice();
    let mut places = Vec::new(alloc);
    places.resize(count_pieces(stretches), 0)?;
    let mut edges = Vec::new(alloc);
    let count = below.len();
    edges.resize(count, None)?;
    let mut from = stretches.len();
    let mut vertex = count;
    'back: while vertex > 0 {
        vertex -= 1;
        let edge = edge_under(stretches, &places, below, vertex);
        set_edge(&mut edges, vertex, edge);
        from = note_ends(&mut places, stretches, from, vertex);
    }
    Ok(edges)
}
