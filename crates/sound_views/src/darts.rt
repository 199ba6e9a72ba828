ghost use Rattle.std.specs.Prelude.{◌≡◌, nat_lt};
ghost use Rattle.slab_laws.specs.Sound.{IsGraphSound, edge_in};
ghost use Rattle.slab_laws.specs.SpansDrawn.{edge_of};
ghost use Rattle.slab_laws.specs.View.{HasDart, line_in, twin_in};
ghost use Rattle.sound_views.specs.ForwardDarts.{IsForwardOf};

use exact_plane::Span;
use slab_laws::{DartId, Darts};

/// Whether the dart has the lesser name of the two along its edge: a look at all darts that passes over the others meets each
/// edge once.
pub fn is_first<R: Darts>(records: &R, dart: DartId) -> bool
    requires { HasDart (R.graph records.now) dart }
    ensures { result ≡ nat_lt dart.0 (twin_in (R.graph records.now) dart).0 }
{
    dart.0 < records.twin(dart).0
}

/// The dart along the same edge that runs from its lower to its upper end (CGAL manual, direction of a halfedge).
pub fn forward_dart<R: Darts>(records: &R, dart: DartId) -> DartId
    requires sound { IsGraphSound (R.graph records.now) }
    requires dart { HasDart (R.graph records.now) dart }
    ensures { IsForwardOf (R.graph records.now) dart result }
{
    if records.point(records.source(dart)) < records.point(records.target(dart)) {
        dart
    } else {
        records.twin(dart)
    }
}

/// The edge of a dart, with its line.
pub fn span_of<R: Darts>(records: &R, dart: DartId) -> Span
    requires sound { IsGraphSound (R.graph records.now) }
    requires dart { HasDart (R.graph records.now) dart }
    ensures edge { edge_of result ≡ edge_in (R.graph records.now) dart }
    ensures line { result.line ≡ line_in (R.graph records.now) dart }
{
    let forward = forward_dart(records, dart);
    let lower = records.point(records.source(forward));
    let upper = records.point(records.target(forward));
    Span::between(lower, upper, records.line(forward))
}
