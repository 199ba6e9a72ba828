ghost use Rattle.std.specs.Prelude.{◌≡◌};
ghost use Rattle.slab_laws.specs.Sound.{IsGraphSound};
ghost use Rattle.slab_laws.specs.View.{HasVertex, HasDart};
ghost use Rattle.rotation_order.specs.Place.{direction_in, IsPlaceOf};

use crate::clockwise::{comes_first_clockwise, down};
use exact_plane::{Direction, turn_order};
use slab_laws::{DartId, Darts, VertexId};

/// Where a direction stands among the darts out of a vertex.
#[derive(Clone, Copy)]
pub enum Place {
    /// Between two neighbours, clockwise from the first; one dart twice where it is alone.
    Between(DartId, DartId),
    /// Along this dart.
    Along(DartId),
    /// No dart leaves the vertex.
    Bare,
}

// The direction in which a dart leaves its vertex.
fn way<R: Darts>(records: &R, dart: DartId) -> Direction
    requires sound { IsGraphSound (R.graph records.now) }
    requires dart { HasDart (R.graph records.now) dart }
    ensures { result ≡ direction_in (R.graph records.now) dart }
{
    let from = records.point(records.source(dart));
    let to = records.point(records.target(dart));
    let along = Direction::along(&records.line(dart));
    if from < to { along } else { along.back() }
}

/// Where a direction stands, clockwise, among the darts out of a vertex (CGAL manual, circulator around a vertex).
///
/// It goes round the vertex once at most, and takes no memory.
pub fn place_at<R: Darts>(records: &R, vertex: VertexId, direction: Direction) -> Place
    requires sound { IsGraphSound (R.graph records.now) }
    requires vertex { HasVertex (R.graph records.now) vertex }
    ensures { IsPlaceOf (R.graph records.now) vertex direction result }
{
    let Some(first) = records.out_of(vertex) else {
        return Place::Bare;
    };
    let down = down();
    let mut dart = first;
    let mut way_out = way(records, dart);
    'ring: while !turn_order(down, way_out, direction).is_eq() {
        let after = records.next(records.twin(dart));
        let way_after = way(records, after);
        if comes_first_clockwise(down, way_out, direction, way_after) {
            return Place::Between(dart, after);
        }
        dart = after;
        way_out = way_after;
    }
    Place::Along(dart)
}
