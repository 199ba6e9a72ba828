ghost use Rattle.std.specs.Prelude.{◌≡◌, ◌<◌, not, length, slice_index_or};
ghost use Rattle.face_changes.specs.Kinds.{is_outer};
ghost use Rattle.slab_laws.specs.Rows.{dart_at, dart_rows, lead_places};
ghost use Rattle.slab_laws.specs.Skeleton.{IsPlaneSkeleton};
ghost use Rattle.slab_laws.specs.SpansDrawn.{drawn};
ghost use Rattle.dart_orbits.specs.Around.{AreAround};

use dart_orbits::first_around;
use exact_plane::{Point, Span};
use slab_laws::ListedDart;

fn lead_at(leads: &[usize], dart: usize) -> usize
    requires { dart < length leads.now }
    ensures { result ≡ slice_index_or leads.now dart 0 }
{
    leads[dart]
}

/// Whether the cycle of a least dart bounds its face from inside: whether the first dart clockwise, from straight down on, out of its
/// least vertex is on the same cycle (this project). No cycle is walked.
///
/// The darts, how they stand round their sources, and the least darts of their cycles are those of `darts_of`, `darts_around` and
/// `least_darts_by_walks` for these points and edges.
pub fn is_inner(
    points: &[Point],
    edges: &[Span],
    darts: &[ListedDart],
    around: &[usize],
    leads: &[usize],
    lead: usize,
) -> bool
    requires plane { IsPlaneSkeleton (drawn points.now edges.now) }
    requires darts { darts.now ≡ dart_rows (drawn points.now edges.now) }
    requires around { AreAround (drawn points.now edges.now) around.now }
    requires leads { leads.now ≡ lead_places (drawn points.now edges.now) }
    requires lead { lead < length darts.now }
    requires least { slice_index_or leads.now lead 0 ≡ lead }
    ensures { result ≡ not (is_outer (drawn points.now edges.now) (dart_at (drawn points.now edges.now) lead)) }
{
    lead_at(leads, first_around(points, edges, darts, around, lead)) == lead
}
