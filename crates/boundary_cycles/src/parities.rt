ghost use Rattle.std.specs.Prelude.{◌≡◌, ◌↔◌, true};
ghost use Rattle.exact_plane.specs.Point.{IsPoint};
ghost use Rattle.face_changes.specs.Kinds.{odd_at, is_outer};
ghost use Rattle.slab_laws.specs.Cycles.{left_of_dart};
ghost use Rattle.slab_laws.specs.Slabs.{left_cell, left_bottom};
ghost use Rattle.slab_laws.specs.Sound.{IsGraphSound, skeleton_of, dart_in, edge_in};
ghost use Rattle.slab_laws.specs.View.{HasDart, point_in, source_in, target_in};
ghost use Rattle.slab_laws.specs.declared.names.CycleKind.TheVariants.{Outer};
ghost use Rattle.boundary_cycles.specs.Asked.{is_behind_asked, is_above_asked, IsAsked};
ghost use Rattle.boundary_cycles.specs.OffCycle.{IsOffCycle};
ghost use Rattle.boundary_cycles.specs.Extents.{IsExtent};
ghost use Rattle.boundary_cycles.specs.Counted.{is_odd_above as is_odd_count};

use crate::asked::{Asked, asked_beside};
use crate::extents::{Extent, is_clear_of};
use exact_plane::Point;
use slab_laws::{CycleKind, DartId, Darts};
use sound_views::span_of;

// Whether the edge of a dart is above the cell. Of both ends it is known whether they are on the left of the cell's
// slab.
fn is_above<R: Darts>(records: &R, d: DartId, asked: &Asked, from: bool, to: bool) -> bool
    requires sound { IsGraphSound (R.graph records.now) }
    requires dart { HasDart (R.graph records.now) d }
    requires asked { IsAsked asked.now }
    requires from { let v = R.graph records.now in from ≡ is_behind_asked asked.now (point_in v (source_in v d)) }
    requires to { let v = R.graph records.now in to ≡ is_behind_asked asked.now (point_in v (target_in v d)) }
    ensures { result ≡ is_above_asked asked.now (edge_in (R.graph records.now) d) }
{
    from != to && asked.is_under(&span_of(records, d))
}

// Whether an odd number of darts of the cycle are above the cell. Each point of the cycle is compared once with an
// abscissa, and only where a dart passes it is the dart's line looked at.
fn is_odd_above<R: Darts>(records: &R, cycle: DartId, asked: &Asked) -> bool
    requires sound { IsGraphSound (R.graph records.now) }
    requires dart { HasDart (R.graph records.now) cycle }
    requires asked { IsAsked asked.now }
    ensures { result ≡ is_odd_count (R.graph records.now) cycle asked.now }
{
    let mut is_odd = false;
    let mut dart = cycle;
    let mut from = asked.is_behind(&records.point(records.source(dart)));
    'cycle: loop {
        let next = records.next(dart);
        let to = asked.is_behind(&records.point(records.source(next)));
        if is_above(records, dart, asked, from, to) {
            is_odd = !is_odd;
        }
        if next == cycle {
            return is_odd;
        }
        dart = next;
        from = to;
    }
}

// The same, where the cycle's extent is known: a cell beside a vertical that is clear of the cycle has none above it.
fn is_odd_within<R: Darts>(records: &R, cycle: DartId, extent: &Extent, asked: &Asked) -> bool
    requires sound { IsGraphSound (R.graph records.now) }
    requires dart { HasDart (R.graph records.now) cycle }
    requires extent { IsExtent (R.graph records.now) cycle extent.now }
    requires asked { IsAsked asked.now }
    ensures { result ≡ is_odd_count (R.graph records.now) cycle asked.now }
{
    !is_clear_of(extent, &asked.at()) && is_odd_above(records, cycle, asked)
}

/// Whether the cycle of a dart has an odd number of darts above the cell on the left of another dart: whether that is
/// inside an outer cycle, or within a hole (Fogel, Halperin and Wein: ray shooting).
///
/// It goes along the cycle once, and takes no memory. Each vertex of the cycle is compared by its abscissa, and only
/// where a dart spans the slab of that cell is its line looked at.
pub fn is_odd_beside<R: Darts>(records: &R, cycle: DartId, d: DartId) -> bool
    requires sound { IsGraphSound (R.graph records.now) }
    requires cycle { HasDart (R.graph records.now) cycle }
    requires dart { HasDart (R.graph records.now) d }
    ensures { let v = R.graph records.now in
        result ≡ odd_at (skeleton_of v) (dart_in v cycle) (left_of_dart (skeleton_of v) (dart_in v d)) }
{
    is_odd_above(records, cycle, &asked_beside(records, d))
}

/// Whether the cycle of a dart has an odd number of darts above a point (Fogel, Halperin and Wein: ray shooting): above
/// the cell on the left of the vertical through it, with the edges at or below the point below it. For a vertex that
/// no dart leaves this is the cell that it lies in. Where the point is on no edge and no vertex of the cycle, it is all
/// the same whether edges through it count as below.
///
/// It goes along the cycle once, and takes no memory.
pub fn parity<R: Darts>(records: &R, d: DartId, point: &Point) -> bool
    requires sound { IsGraphSound (R.graph records.now) }
    requires dart { HasDart (R.graph records.now) d }
    ensures cell { let v = R.graph records.now in
        result ≡ odd_at (skeleton_of v) (dart_in v d) (left_cell (skeleton_of v) point.now) }
    ensures strictly { let v = R.graph records.now in IsOffCycle v d point.now
        → result ≡ odd_at (skeleton_of v) (dart_in v d) (left_bottom (skeleton_of v) point.now) }
{
    point.laws();
    is_odd_above(records, d, &Asked::Left(*point))
}

/// Whether the cycle of a dart bounds the face on its left from outside (CGAL manual, outer and inner CCB): whether an
/// odd number of its darts are above the dart's own left cell. Which dart of the cycle is asked makes no difference.
///
/// It goes along the cycle once, and takes no memory.
pub fn kind<R: Darts>(records: &R, d: DartId) -> CycleKind
    requires sound { IsGraphSound (R.graph records.now) }
    requires dart { HasDart (R.graph records.now) d }
    ensures { let v = R.graph records.now in (result ≡ Outer) ↔ (is_outer (skeleton_of v) (dart_in v d) ≡ true) }
{
    if is_odd_beside(records, d, d) {
        CycleKind::Outer
    } else {
        CycleKind::Inner
    }
}

/// As `is_odd_beside`, for a caller who has the cycle's extent: two comparisons and no walk, where the other dart's
/// cell is clear of it (this project).
pub fn is_odd_beside_within<R: Darts>(
    records: &R,
    cycle: DartId,
    extent: &Extent,
    d: DartId,
) -> bool
    requires sound { IsGraphSound (R.graph records.now) }
    requires cycle { HasDart (R.graph records.now) cycle }
    requires extent { IsExtent (R.graph records.now) cycle extent.now }
    requires dart { HasDart (R.graph records.now) d }
    ensures { let v = R.graph records.now in
        result ≡ odd_at (skeleton_of v) (dart_in v cycle) (left_of_dart (skeleton_of v) (dart_in v d)) }
{
    is_odd_within(records, cycle, extent, &asked_beside(records, d))
}

/// As `parity`, for a caller who has the cycle's extent: two comparisons and no walk, where the point is clear of it
/// (this project).
pub fn parity_within<R: Darts>(records: &R, d: DartId, extent: &Extent, point: &Point) -> bool
    requires sound { IsGraphSound (R.graph records.now) }
    requires dart { HasDart (R.graph records.now) d }
    requires extent { IsExtent (R.graph records.now) d extent.now }
    ensures cell { let v = R.graph records.now in
        result ≡ odd_at (skeleton_of v) (dart_in v d) (left_cell (skeleton_of v) point.now) }
    ensures strictly { let v = R.graph records.now in IsOffCycle v d point.now
        → result ≡ odd_at (skeleton_of v) (dart_in v d) (left_bottom (skeleton_of v) point.now) }
{
    point.laws();
    is_odd_within(records, d, extent, &Asked::Left(*point))
}
