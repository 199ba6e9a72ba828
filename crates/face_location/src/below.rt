ghost use Rattle.std.specs.Prelude.{◌≡◌, IfSome};
ghost use Rattle.slab_laws.specs.Sound.{IsGraphSound};
ghost use Rattle.slab_laws.specs.View.{HasDart};
ghost use Rattle.face_location.specs.Below.{IsEdgeFound, higher_of};

use crate::passing::{Passing, passing_of};
use edge_predicates::is_above;
use exact_plane::Point;
use slab_laws::{DartId, Darts};
use sound_views::{is_first, span_of};

/// What a look at all edges finds for a point; an edge is told by its dart from the lower to the upper end.
#[derive(Clone, Copy, PartialEq, Eq)]
pub enum EdgeFound {
    /// The edge that has the point inside.
    Through(DartId),
    /// No edge has it inside; the highest one below it, if one is below it.
    Below(Option<DartId>),
}

// The higher of the highest edge so far and one more.
fn higher<R: Darts>(records: &R, highest: Option<DartId>, dart: DartId) -> DartId
    requires sound { IsGraphSound (R.graph records.now) }
    requires highest { IfSome highest (HasDart (R.graph records.now)) }
    requires dart { HasDart (R.graph records.now) dart }
    ensures { result ≡ higher_of (R.graph records.now) highest dart }
{
    match highest {
        Some(other) => {
            if is_above(&span_of(records, dart), &span_of(records, other)) {
                dart
            } else {
                other
            }
        }
        None => dart,
    }
}

/// The edge that has a point inside, or else the highest one below it (Fogel, Halperin and Wein: vertical ray shooting). It looks
/// at each edge once, by the first of its two darts, and takes no memory.
pub fn edge_at_or_below<R: Darts>(records: &R, point: &Point) -> EdgeFound
    requires { IsGraphSound (R.graph records.now) }
    ensures { IsEdgeFound (R.graph records.now) point.now result }
{
    point.laws();
    let mut highest = None;
    let mut last = None;
    while let Some(dart) = records.dart_after(last) {
        if is_first(records, dart) {
            match passing_of(records, dart, point) {
                Passing::Through(forward) => return EdgeFound::Through(forward),
                Passing::Below(forward) => highest = Some(higher(records, highest, forward)),
                Passing::Apart => {}
            }
        }
        last = Some(dart);
    }
    EdgeFound::Below(highest)
}
