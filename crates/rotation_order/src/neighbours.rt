ghost use Rattle.std.specs.Prelude.{◌≡◌, ◌≢◌, true, false};
ghost use Rattle.slab_laws.specs.Sound.{IsGraphSound};
ghost use Rattle.slab_laws.specs.View.{HasVertex, HasDart, point_in, target_in};
ghost use Rattle.rotation_order.specs.Neighbours.{IsDartTo};

use exact_plane::Point;
use slab_laws::{DartId, Darts, VertexId};

// Whether the dart leads to the point.
fn leads_to<R: Darts>(records: &R, dart: DartId, point: &Point) -> bool
    requires sound { IsGraphSound (R.graph records.now) }
    requires dart { HasDart (R.graph records.now) dart }
    ensures there { result ≡ true → point_in (R.graph records.now) (target_in (R.graph records.now) dart) ≡ point.now }
    ensures elsewhere { result ≡ false → point_in (R.graph records.now) (target_in (R.graph records.now) dart) ≢ point.now }
{
    records.point(records.target(dart)) == *point
}

/// A dart from a vertex to a point, or `None` where no edge joins them (CGAL manual, circulator around a vertex).
///
/// It goes round the vertex once at most, and takes no memory.
pub fn dart_to<R: Darts>(records: &R, from: VertexId, to: &Point) -> Option<DartId>
    requires sound { IsGraphSound (R.graph records.now) }
    requires from { HasVertex (R.graph records.now) from }
    ensures { IsDartTo (R.graph records.now) from to.now result }
{
    let first = records.out_of(from)?;
    // The round begins just after the first dart, and so ends with it.
    let mut dart = records.next(records.twin(first));
    'ring: while !leads_to(records, dart, to) {
        if dart == first {
            return None;
        }
        dart = records.next(records.twin(dart));
    }
    Some(dart)
}
