//! The edges above a point.
ghost use Rattle.std.specs.Prelude.{◌≡◌};
ghost use Rattle.dcel_records.specs.SoundMaps.{IsSoundMap};
ghost use Rattle.dcel_records.specs.RecordsView.{tables_of};
ghost use Rattle.locate_walk.specs.Finds.{IsFoundAtDart};
ghost use Rattle.locate_walk.specs.Passages.{IsPassage};
ghost use Rattle.locate_walk.specs.declared.found.Found.TheVariants.{Past};
ghost use Rattle.locate_landmarks.specs.Looks.{IsDrawnLook};
ghost use Rattle.locate_landmarks.specs.Lowest.{IsAbove, lower_edge};

use counted_looks::{Glance, Glimpse, NameCalls};
use edge_predicates::is_above;
use exact_plane::{Point, Span};
use locate_walk::Passage;
use slab_laws::DartId;

/// An edge that a point sees above it, with its dart from the lower to the upper end.
#[derive(Clone, Copy)]
pub struct EdgeAbove {
    pub dart: DartId,
    pub edge: Span,
}

/// The edge of a dart that was looked at, where the point sees it above.
pub fn edge_above(
    glance: &Glance,
    point: &Point,
    dart: DartId,
    looked: &Glimpse,
    passage: Passage,
) -> Option<EdgeAbove>
    requires map { IsSoundMap glance.now }
    requires drawn { IsDrawnLook glance.now.graph dart looked.now }
    requires passage { IsPassage looked.now.source point.now looked.now.target passage }
    requires past { IsFoundAtDart glance.now.graph (tables_of glance.now) point.now dart Past }
    ensures { IsAbove glance.now.graph point.now result }
{
    point.laws();
    match passage {
        Passage::Forward => Some(EdgeAbove {
            dart,
            edge: Span::between(looked.source(), looked.target(), looked.line()),
        }),
        Passage::Backward => Some(EdgeAbove {
            dart: glance.twin(dart),
            edge: Span::between(looked.target(), looked.source(), looked.line()),
        }),
        _ => None,
    }
}

/// The lower of the lowest edge so far and one more.
pub fn lower(lowest: Option<EdgeAbove>, edge: EdgeAbove) -> EdgeAbove
    ensures { result ≡ lower_edge lowest edge }
{
    match lowest {
        Some(other) => {
            if is_above(&other.edge, &edge.edge) {
                edge
            } else {
                other
            }
        }
        None => edge,
    }
}
