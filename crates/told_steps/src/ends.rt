ghost use Rattle.std.specs.Prelude.{◌≡◌};
ghost use Rattle.slab_laws.specs.Sound.{IsGraphSound};
ghost use Rattle.slab_laws.specs.View.{HasDart, point_in, source_in, target_in};

use dcel_records::Records;
use exact_plane::Point;
use slab_laws::{DartId, Darts};

/// The points of the dart's ends, its source's first.
pub(crate) fn ends(records: &Records, d: DartId) -> (Point, Point)
    requires sound { IsGraphSound records.now.graph }
    requires dart { HasDart records.now.graph d }
    ensures low { result.0 ≡ point_in records.now.graph (source_in records.now.graph d) }
    ensures high { result.1 ≡ point_in records.now.graph (target_in records.now.graph d) }
{
    let source = records.source(d);
    let target = records.target(d);
    (records.point(source), records.point(target))
}
