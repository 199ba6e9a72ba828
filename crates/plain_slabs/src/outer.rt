ghost use Rattle.std.specs.Prelude.{◌≡◌, ◌<◌, true, false, length};
ghost use Rattle.slab_laws.specs.Cycles.{dart_labels, left_of_dart, odd};
ghost use Rattle.slab_laws.specs.Darts.{darts as all_darts};
ghost use Rattle.slab_laws.specs.SpansDrawn.{edge_of, drawn};
ghost use Rattle.slab_laws.specs.Rows.{dart_at, dart_rows, lead_places};
ghost use Rattle.slab_laws.specs.Skeleton.{left_of, IsPlaneSkeleton};
ghost use Rattle.edge_predicates.specs.CellsAbove.{above_by, is_above};

use edge_predicates::{is_below, is_over, is_slanted, reaches_left, reaches_right};
use exact_plane::{Point, Span};
use slab_laws::ListedDart;

// Whether an edge is above the cell on the left of a dart on another edge, one that isn't vertical.
fn is_above_slanted(edge: &Span, own: &Span, forward: bool) -> bool
    requires { left_of own.now.lower own.now.upper ≡ true }
    ensures { result ≡ above_by true forward (edge_of own.now) (edge_of edge.now) }
{
    edge.laws();
    if !reaches_right(edge, &own.lower()) {
        return false;
    }
    if forward {
        is_below(own, edge)
    } else {
        !is_below(edge, own)
    }
}

// Whether an edge is above the cell on the left of a dart on another edge, a vertical one.
fn is_above_upright(edge: &Span, own: &Span, forward: bool) -> bool
    ensures { result ≡ above_by false forward (edge_of own.now) (edge_of edge.now) }
{
    let low = own.lower();
    let reaches = if forward {
        reaches_left(edge, &low)
    } else {
        reaches_right(edge, &low)
    };
    reaches && is_over(edge, &low)
}

// Whether an edge is above the cell on the left of a dart on another edge.
fn is_above_dart(edge: &Span, own: &Span, forward: bool) -> bool
    ensures { result ≡ is_above (edge_of own.now) forward (edge_of edge.now) }
{
    if is_slanted(own) {
        is_above_slanted(edge, own, forward)
    } else {
        is_above_upright(edge, own, forward)
    }
}

/// Whether the cycle of a least dart bounds its face from outside: whether the edges above the dart's left cell, each
/// counted once for each dart of the cycle on it, are odd in number (Fogel, Halperin and Wein: ray shooting).
///
/// It takes time linear in the number of darts. Of the points only the contract speaks.
pub(crate) fn is_outer(
    points: &[Point],
    edges: &[Span],
    darts: &[ListedDart],
    leads: &[usize],
    lead: usize,
) -> bool
    requires plane { IsPlaneSkeleton (drawn points.now edges.now) }
    requires darts { darts.now ≡ dart_rows (drawn points.now edges.now) }
    requires leads { leads.now ≡ lead_places (drawn points.now edges.now) }
    requires lead { lead < length darts.now }
    ensures { let g = drawn points.now edges.now in
        result ≡ odd g (dart_labels (all_darts g)) (dart_at g lead) (left_of_dart g (dart_at g lead)) }
{
    let dart = darts[lead];
    let edge = edges[dart.edge];
    let mut is_odd = false;
    for (place, other) in darts.iter().enumerate() {
        if leads[place] == lead && is_above_dart(&edges[other.edge], &edge, dart.forward) {
            is_odd = !is_odd;
        }
    }
    is_odd
}
