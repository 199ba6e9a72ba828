ghost use Rattle.std.specs.Prelude.{◌≡◌, ◌≢◌, ◌<◌, true, false, length, None, IfOk};
ghost use Rattle.std.specs.List.Sorted.{IsPartitionPoint, IsSorted};
ghost use Rattle.std.specs.Ordering.{is_lt};
ghost use Rattle.plane_graphs.specs.Ascending.{IsAscending};
ghost use Rattle.plane_graphs.specs.Fit.{IsFit};
ghost use Rattle.plane_graphs.specs.Line.{same_point};
ghost use Rattle.slab_laws.specs.Pieces.{present_of};
ghost use Rattle.sweep_graphs.specs.Edges.{stretch_cmp};
ghost use Rattle.overlay_sweep.specs.Cuts.{StandsWith, IsCutAt};
ghost use Rattle.overlay_sweep.specs.KnownEdges.{IsPlaceOfOwn, IsOwnAlong};
ghost use Rattle.overlay_sweep.specs.KnownLabels.{AreKnown};
ghost use Rattle.overlay_sweep.specs.LayerGraphs.{IsLayerGraph, ArePiecesFrom};
ghost use Rattle.overlay_sweep.specs.OwnEdges.{begin_cmp, own_at, passed_at, passing_with, AreOwnEdges, HasOwnFrom, IsOwnFrom, IsTold};

use crate::graphs::LayerGraph;
use crate::own::{OwnEdge, laws_of_own, place_from};
use crate::rows::laws_of_spans;
use exact_plane::Span;
use no_memory::NoMemory;
use slab_laws::Present;
use std::alloc::Global;
use sweep_graphs::{EdgeEnds, Stretch};

// Where the stretch runs along the edge and is of one of `count` pieces from `first` on, the place of its piece among these.
fn place_of_own(stretch: &Stretch, edge: &EdgeEnds, first: usize, count: usize) -> Option<usize>
    ensures { IsPlaceOfOwn first count edge.now stretch.now result }
{
    if stretch.low != edge.low || stretch.high != edge.high || stretch.piece < first {
        return None;
    }
    let place = stretch.piece - first;
    if place < count { Some(place) } else { None }
}

fn comes_before(stretch: &Stretch, bar: &Stretch) -> bool
    ensures { result ≡ is_lt (stretch_cmp stretch.now bar.now) }
{
    *stretch < *bar
}

fn stands_before(stretches: &[Stretch], place: usize, bar: &Stretch) -> bool
    ensures { result ≡ true → StandsWith (λ s. is_lt (stretch_cmp s bar.now)) true stretches.now place }
{
    match stretches.get(place) {
        Some(stretch) => comes_before(stretch, bar),
        None => false,
    }
}

fn stands_beyond(stretches: &[Stretch], place: usize, bar: &Stretch) -> bool
    ensures { result ≡ true → StandsWith (λ s. is_lt (stretch_cmp s bar.now)) false stretches.now place }
{
    match stretches.get(place) {
        Some(stretch) => !comes_before(stretch, bar),
        None => false,
    }
}

// Whether those that come before the bar end just before the place. Where none does, or all do, it says no.
fn is_cut(stretches: &[Stretch], place: usize, bar: &Stretch) -> bool
    ensures { result ≡ true → IsCutAt (λ s. is_lt (stretch_cmp s bar.now)) stretches.now place }
{
    if place == 0 {
        return false;
    }
    if !stands_before(stretches, place - 1, bar) {
        return false;
    }
    stands_beyond(stretches, place, bar)
}

// How many stand first and come before the bar. Few do, so that they are met one by one.
fn count_before(stretches: &[Stretch], bar: &Stretch) -> usize {
    stretches
        .iter()
        .take_while(|stretch| comes_before(stretch, bar))
        .count()
}

// Where those that come before the bar end, which should be at the place or soon after it; else by one search.
fn end_before(stretches: &[Stretch], place: usize, bar: &Stretch) -> usize
    requires { IsAscending stretch_cmp stretches.now }
    ensures { IsPartitionPoint (λ s. is_lt (stretch_cmp s bar.now) ≡ true) (λ s. is_lt (stretch_cmp s bar.now) ≡ false) stretches.now result }
{
    let (_, rest) = stretches.split_at(place.min(stretches.len()));
    let end = place.saturating_add(count_before(rest, bar));
    if is_cut(stretches, end, bar) {
        return end;
    }
    stretches.partition_point(|stretch| comes_before(stretch, bar))
}

// The place of one of the pieces that runs along the edge, the first of those. Its stretch should come soon after the place, which
// becomes its own.
fn own_along(
    stretches: &[Stretch],
    edge: &EdgeEnds,
    first: usize,
    count: usize,
    place: &mut usize,
) -> Option<usize>
    requires { IsAscending stretch_cmp stretches.now }
    ensures { IsOwnAlong first count stretches.now edge.now result }
{
    let bar = Stretch {
        low: edge.low,
        high: edge.high,
        piece: first,
    };
    let end = end_before(stretches, *place, &bar);
    *place = end;
    let stretch = stretches.get(end)?;
    place_of_own(stretch, edge, first, count)
}

// The place of the own edge that a part of it lies on, which begins at the vertex: that of the edge which passes the vertex, as is noted,
// or else of the one that begins there.
fn own_place(own: &[OwnEdge], passing: &[Option<usize>], vertex: usize, part: &Span) -> usize
    requires sorted { IsSorted begin_cmp own.now }
    requires some { HasOwnFrom own.now (passed_at passing.now vertex) part.now }
    ensures within { result < length own.now }
    ensures from { IsOwnFrom own.now (passed_at passing.now vertex) part.now result }
{
    match passing.get(vertex) {
        Some(Some(place)) => *place,
        _ => place_from(own, part),
    }
}

fn ends_with(own: &[OwnEdge], place: usize, part: &Span) -> bool
    requires { place < length own.now }
    ensures { result ≡ same_point (own_at own.now place).span.upper part.now.upper }
{
    own[place].span.upper() == part.upper()
}

// Notes the vertex at which a part of an own edge ends, unless the edge ends there, too.
fn note_passing(
    own: &[OwnEdge],
    passing: &mut Vec<Option<usize>>,
    vertex: usize,
    part: &Span,
    place: usize,
)
    requires vertex { vertex < length passing.old.items }
    requires place { place < length own.now }
    ensures { passing.new.items ≡ passing_with own.now passing.old.items vertex part.now place }
{
    if ends_with(own, place, part) {
        return;
    }
    passing[vertex] = Some(place);
}

fn over_at(own: &[OwnEdge], place: usize) -> usize
    requires { place < length own.now }
    ensures { result ≡ (own_at own.now place).over }
{
    own[place].over
}

// The rank of the face above the own edge that a part of it lies on; none, where no piece of the layer runs along the part.
fn label_along(
    own: &[OwnEdge],
    passing: &mut Vec<Option<usize>>,
    edge: &EdgeEnds,
    part: &Span,
    piece: Option<usize>,
) -> Option<usize>
    requires sorted { IsSorted begin_cmp own.now }
    requires high { edge.now.high < length passing.old.items }
    requires some { piece ≢ None → HasOwnFrom own.now (passed_at passing.old.items edge.now.low) part.now }
    ensures { IsTold own.now passing.old.items passing.new.items edge.now.low edge.now.high part.now piece result }
{
    match piece {
        Some(_) => {
            let place = own_place(own, passing, edge.low, part);
            note_passing(own, passing, edge.high, part, place);
            Some(over_at(own, place))
        }
        None => None,
    }
}

/// Of each edge of the whole that has a curve of the layer the rank of the face above the layer's own edge that it lies on (Fogel,
/// Halperin and Wein: an edge of the overlay lies on an edge of each layer whose curve it has); of any other edge, none.
///
/// The layer's own edges stand in the order in which they begin. The graph is that of `graph_of` for a present that has the layer's
/// pieces from the place `first` on. It goes through the edges and their stretches in step: an own edge is searched where it begins, and
/// then followed from vertex to vertex.
///
/// # Errors
///
/// There was no memory.
pub fn known_labels(
    alloc: Global,
    layer: &Present,
    own: &[OwnEdge],
    whole: &LayerGraph,
    first: usize,
) -> Result<Vec<Option<usize>>, NoMemory>
    requires fit { IsFit (present_of layer.now) }
    requires own { AreOwnEdges (present_of layer.now) own.now }
    requires sorted { IsSorted begin_cmp own.now }
    requires whole { (w : _) × IsFit w × IsLayerGraph w whole.now × ArePiecesFrom first (present_of layer.now) w }
    ensures { (w : _) → IsFit w → IsLayerGraph w whole.now → ArePiecesFrom first (present_of layer.now) w → IfOk result (λ v. AreKnown (present_of layer.now) w v.items) }
{
    laws_of_own(own);
    laws_of_spans(&whole.spans);
    let count = layer.pieces.as_slice().len();
    let mut known = Vec::with_capacity(alloc, whole.edges.len())?;
    let mut passing = Vec::new(alloc);
    passing.resize(whole.trace.points.as_slice().len(), None)?;
    let mut place = 0;
    for (index, edge) in whole.edges.iter().enumerate() {
        let piece = own_along(&whole.stretches, edge, first, count, &mut place);
        let part = &whole.spans[index];
        known.push(label_along(own, &mut passing, edge, part, piece))?;
    }
    Ok(known)
}
