ghost use Rattle.std.specs.Prelude.{◌≡◌};
ghost use Rattle.slab_laws.specs.Skeleton.{under};
ghost use Rattle.slab_laws.specs.Sound.{IsGraphSound, edge_in};
ghost use Rattle.slab_laws.specs.SpansDrawn.{edge_of};
ghost use Rattle.arr_notes.specs.Curves.{IsForward};
ghost use Rattle.edge_predicates.specs.Above.{is_above as lies_above};

use dcel_records::Records;
use edge_predicates::{is_over, precedes};
use exact_plane::{Point, Sign, Span, side};
use slab_laws::{DartId, Darts};

// Whether the line of a dart's edge passes below the point, or on the right of it where the edge is vertical.
fn is_edge_under(records: &Records, dart: DartId, point: &Point) -> bool
    requires sound { IsGraphSound records.now.graph }
    requires dart { IsForward records.now.graph dart }
    ensures { result ≡ under (edge_in records.now.graph dart) point.now }
{
    let lower = records.point(records.source(dart));
    let upper = records.point(records.target(dart));
    let line = records.line(dart);
    // These tell that the ends and the line are those of a part of a line.
    lower.laws();
    upper.laws();
    line.laws();
    match side(&line, point) {
        Sign::Plus => true,
        Sign::Zero | Sign::Minus => false,
    }
}

/// Whether an edge is above that of a dart, where both go on beyond the later of their lower ends.
// No span is made of the other edge: that would be tried for its ends, which the records vouch for, at each node of each way down.
pub fn is_above_edge(records: &Records, span: &Span, dart: DartId) -> bool
    requires sound { IsGraphSound records.now.graph }
    requires dart { IsForward records.now.graph dart }
    ensures { result ≡ lies_above (edge_of span.now) (edge_in records.now.graph dart) }
{
    let lower = span.lower();
    let start = records.point(records.source(dart));
    if precedes(&start, &lower) {
        is_edge_under(records, dart, &lower)
    } else if precedes(&lower, &start) {
        is_over(span, &start)
    } else {
        is_edge_under(records, dart, &span.upper())
    }
}
