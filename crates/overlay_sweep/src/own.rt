ghost use Rattle.std.specs.Prelude.{◌≡◌, ◌<◌, length};
ghost use Rattle.std.specs.List.Sorted.{IsPermutation, IsSorted};
ghost use Rattle.std.specs.Ordering.{is_lt};
ghost use Rattle.std.specs.declared.cmp.Ordering.TheVariants.{Equal};
ghost use Rattle.exact_plane.specs.Span.{IsSpan};
ghost use Rattle.plane_graphs.specs.Ascending.{Member};
ghost use Rattle.overlay_sweep.specs.OwnEdges.{begin_cmp, bar_at, own_at};
ghost use Rattle.overlay_sweep.specs.declared.own.OwnEdge.{OwnEdge};

use exact_plane::{Span, slope_order};
use std::cmp::Ordering;

/// An edge of a layer, and the rank of the face above it.
#[derive(Clone, Copy)]
pub struct OwnEdge {
    /// The edge with its line.
    pub span: Span,
    /// The rank of the face on its left, going from its lower to its upper end; 0 is the unbounded face.
    pub over: usize,
}

// What is true of all spans, of that of each edge.
pub(crate) fn laws_of_own(edges: &[OwnEdge])
    ensures { (k : OwnEdge) → Member k edges.now → IsSpan k.span }
{
    for edge in edges {
        edge.span.laws();
    }
}

// Edges by their lower ends, those from one lower end by their slopes. Of a plane graph no two are level.
fn begin_order(first: &OwnEdge, second: &OwnEdge) -> Ordering
    ensures { result ≡ begin_cmp first.now second.now }
{
    match first.span.lower().cmp(&second.span.lower()) {
        Ordering::Equal => slope_order(&first.span.line(), &second.span.line()),
        order => order,
    }
}

// Brings edges into that order.
pub(crate) fn sort_edges(edges: &mut Vec<OwnEdge>)
    ensures same { IsPermutation edges.old.items edges.new.items }
    ensures sorted { IsSorted begin_cmp edges.new.items }
{
    edges.sort_unstable_by(|first, second| begin_order(first, second));
}

fn comes_before(edge: &OwnEdge, bar: &OwnEdge) -> bool
    ensures { result ≡ is_lt (begin_cmp edge.now bar.now) }
{
    begin_order(edge, bar).is_lt()
}

// The place of an edge that begins where a part of its line does, by one search.
pub(crate) fn place_from(edges: &[OwnEdge], part: &Span) -> usize
    requires sorted { IsSorted begin_cmp edges.now }
    requires some { (k : OwnEdge) × Member k edges.now × (begin_cmp k (bar_at part.now) ≡ Equal) }
    ensures within { result < length edges.now }
    ensures begins { begin_cmp (own_at edges.now result) (bar_at part.now) ≡ Equal }
{
    let bar = OwnEdge {
        span: *part,
        over: 0,
    };
    edges.partition_point(|edge| comes_before(edge, &bar))
}
