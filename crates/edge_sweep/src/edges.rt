ghost use Rattle.std.specs.Prelude.{◌≡◌, ℕ, length, slice_get, ◌↔◌, ◌<◌, ◌≤◌, ◌-◌, OnOk};
ghost use Rattle.std.specs.List.{prefix_len};
ghost use Rattle.std.specs.List.Sorted.{IsPartitionedBy, IsPermutation, IsSorted};
ghost use Rattle.std.specs.Ordering.{nat_cmp};
ghost use Rattle.plane_graphs.specs.Ascending.{Member, IsAscending};
ghost use Rattle.edge_sweep.specs.Swept.{begin_cmp, is_below, ends_at, starts_at, edge_found, last_of, upright_end, upright_only};
ghost use Rattle.plane_graphs.specs.Line.{same_point};
ghost use Rattle.edge_sweep.specs.Fronts.{IsCutBelow};

use edge_predicates::{is_slanted, is_under};
use exact_plane::{Point, Span, slope_order};
use no_memory::NoMemory;
use slab_laws::DartId;
use std::cmp::Ordering;

/// An edge, by the name of its dart from the lower to the upper end.
#[derive(Clone, Copy)]
pub struct SweptEdge {
    /// The edge with its line.
    pub span: Span,
    /// The name of the dart.
    pub dart: DartId,
}

// Edges in the order in which they begin: by their lower ends, those from one lower end by their slopes, that is from bottom to top. Names
// decide between none of a plane graph.
pub(crate) fn begin_order(first: &SweptEdge, second: &SweptEdge) -> Ordering
    ensures { result ≡ begin_cmp first.now second.now }
{
    match first.span.lower().cmp(&second.span.lower()) {
        Ordering::Equal => slope_order(&first.span.line(), &second.span.line()).then(
            first.dart.0.cmp(&second.dart.0),
        ),
        order => order,
    }
}

// Brings edges into that order.
pub(crate) fn sort_edges(edges: &mut Vec<SweptEdge>)
    ensures same { IsPermutation edges.old.items edges.new.items }
    ensures sorted { IsSorted begin_cmp edges.new.items }
{
    edges.sort_unstable_by(|first, second| begin_order(first, second));
}

// Whether the edge at a place passes below the point.
fn passes_below(edges: &[SweptEdge], place: usize, point: &Point) -> bool
    ensures { result ≡ is_below edges.now point.now place }
{
    match edges.get(place) {
        Some(edge) => is_under(&edge.span, point),
        None => false,
    }
}

// How many edges of a front pass below the point.
pub(crate) fn count_below(edges: &[SweptEdge], status: &[usize], point: &Point) -> usize
    ensures bound { result ≤ length status.now }
    ensures cut { IsPartitionedBy (is_below edges.now point.now) status.now → IsCutBelow edges.now point.now status.now result }
{
    status.partition_point(|place| passes_below(edges, *place, point))
}

// Whether the edge at a place ends at the point.
fn ends_there(edges: &[SweptEdge], place: usize, point: &Point) -> bool
    ensures { result ≡ ends_at edges.now point.now place }
{
    point.laws();
    match edges.get(place) {
        Some(edge) => edge.span.upper() == *point,
        None => false,
    }
}

// How many of the first edges of a part of a front end at the point.
pub(crate) fn count_ending(edges: &[SweptEdge], status: &[usize], point: &Point) -> usize
    ensures { result ≡ prefix_len (ends_at edges.now point.now) status.now }
{
    status
        .iter()
        .take_while(|place| ends_there(edges, **place, point))
        .count()
}

// Whether the edge starts at the point.
fn starts_there(edge: &SweptEdge, point: &Point) -> bool
    ensures { result ≡ starts_at point.now edge.now }
{
    edge.span.lower() == *point
}

// How many of the first edges of a part of all start at the point.
pub(crate) fn count_starting(edges: &[SweptEdge], point: &Point) -> usize
    ensures { result ≡ prefix_len (starts_at point.now) edges.now }
{
    edges
        .iter()
        .take_while(|edge| starts_there(edge, point))
        .count()
}

// The edge at a place of a front.
pub(crate) fn edge_in(edges: &[SweptEdge], status: &[usize], index: usize) -> Option<SweptEdge>
    ensures { result ≡ edge_found edges.now (slice_get status.now index) }
{
    let place = status.get(index)?;
    let edge = edges.get(*place)?;
    Some(*edge)
}

// The edge at the last of the first places of a front.
pub(crate) fn edge_under(edges: &[SweptEdge], status: &[usize], count: usize) -> Option<SweptEdge>
    ensures none { count ≡ 0 → result ≡ None }
    ensures some { 0 < count → result ≡ edge_found edges.now (slice_get status.now (count - 1)) }
{
    if count == 0 {
        return None;
    }
    edge_in(edges, status, count - 1)
}

// Whether the edge ends at the point.
fn ends_here(edge: &SweptEdge, point: &Point) -> bool
    ensures { result ≡ same_point edge.now.span.upper point.now }
{
    edge.span.upper() == *point
}

// The edge, where it ends at the point and is vertical.
pub(crate) fn upright_ending(edge: Option<SweptEdge>, point: &Point) -> Option<SweptEdge>
    ensures { result ≡ upright_end point.now edge }
{
    let edge = edge?;
    if ends_here(&edge, point) && !is_slanted(&edge.span) {
        Some(edge)
    } else {
        None
    }
}

// The last of the first edges.
fn last_among(edges: &[SweptEdge], count: usize) -> Option<SweptEdge>
    ensures { result ≡ last_of edges.now count }
{
    if count == 0 {
        return None;
    }
    let edge = edges.get(count - 1)?;
    Some(*edge)
}

// The last of the first edges that start at a point, where it is vertical.
pub(crate) fn upright_starting(edges: &[SweptEdge], point: &Point) -> Option<SweptEdge>
    ensures { result ≡ upright_only (last_of edges.now (prefix_len (starts_at point.now) edges.now)) }
{
    let edge = last_among(edges, count_starting(edges, point))?;
    if is_slanted(&edge.span) {
        None
    } else {
        Some(edge)
    }
}

// Makes a list that of the places from one up to another.
pub(crate) fn fill_between(places: &mut Vec<usize>, from: usize, to: usize) -> Result<(), NoMemory>
    requires { from ≤ to }
    ensures places { OnOk result ((i : ℕ) → Member i places.new.items ↔ ((from ≤ i) × (i < to))) }
    ensures ascend { OnOk result (IsAscending nat_cmp places.new.items) }
{
    places.clear();
    for place in from..to {
        places.push(place)?;
    }
    Ok(())
}
