ghost use Rattle.std.specs.Prelude.{◌≡◌};
ghost use Rattle.exact_plane.specs.Span.{AreOnWay};
ghost use Rattle.slab_laws.specs.View.{HasDart};
ghost use Rattle.counted_looks.specs.Looks.{IsLookOf};
ghost use Rattle.counted_looks.specs.declared.boundary_part.BoundaryPart.TheVariants.{Dart};
ghost use Rattle.dcel_records.specs.RecordsView.{tables_of};
ghost use Rattle.dcel_records.specs.SoundMaps.{IsSoundMap};
ghost use Rattle.dcel_records.specs.declared.spot.Spot.TheVariants.{Edge};
ghost use Rattle.locate_walk.specs.Finds.{IsFound, IsFoundAtDart, IsSided, is_told_at_twin};
ghost use Rattle.locate_walk.specs.Passages.{IsPassage};

use crate::passage::{Passage, passage_of};
use counted_looks::{Glance, Glimpse, NameCalls};
use dcel_records::Spot;
use exact_plane::{Line, Point, Sign, Span, side};
use slab_laws::{DartId, FaceId};

/// An edge that a point sees below it, with its dart from the lower to the upper end.
#[derive(Clone, Copy)]
pub struct EdgeBelow {
    pub dart: DartId,
    pub edge: Span,
}

/// What one look at a part of a boundary finds for a point.
#[derive(Clone, Copy)]
pub enum Found {
    /// The point is there.
    At(Spot),
    /// The point sees the edge below it.
    Below(EdgeBelow),
    /// Neither.
    Past,
}

// Where a point is that an edge spans, by the ends and the line that were read: on it, over it, or under it. Only of an edge below the
// point a span is made.
fn side_of(dart: DartId, lower: Point, upper: Point, line: Line, point: &Point) -> Found
    requires { AreOnWay lower upper line }
    ensures { IsSided dart (record { lower = lower; upper = upper; line = line }) point.now result }
{
    // These tell that the ends and the line are those of a part of a line.
    lower.laws();
    upper.laws();
    line.laws();
    match side(&line, point) {
        Sign::Minus => Found::Past,
        Sign::Zero => Found::At(Spot::Edge(dart)),
        Sign::Plus => Found::Below(EdgeBelow {
            dart,
            edge: Span::between(lower, upper, line),
        }),
    }
}

/// Whether the edge of a dart is told at its other dart: that one is on the boundary of the face too, and has the lesser name.
// In a map of few faces nearly all edges border one face from both sides.
pub fn is_told_at_twin(glance: &Glance, face: FaceId, dart: DartId) -> bool
    requires { HasDart glance.now.graph dart }
    ensures { result ≡ is_told_at_twin glance.now.graph (tables_of glance.now) face dart }
{
    let twin = glance.twin(dart);
    twin.0 < dart.0 && glance.face(glance.cycle(twin)) == face
}

/// What a look at a dart finds, whichever way it goes. Its ends were compared first.
pub fn found_at_dart(
    glance: &Glance,
    dart: DartId,
    looked: &Glimpse,
    point: &Point,
    passage: Passage,
) -> Found
    requires map { IsSoundMap glance.now }
    requires dart { HasDart glance.now.graph dart }
    requires looked { IsLookOf glance.now.graph (Edge dart) looked.now }
    requires passage { IsPassage looked.now.source point.now looked.now.target passage }
    ensures { IsFoundAtDart glance.now.graph (tables_of glance.now) point.now dart result }
{
    point.laws();
    match passage {
        Passage::FromPoint => Found::At(Spot::Vertex(glance.source(dart))),
        Passage::ToPoint => Found::At(Spot::Vertex(glance.target(dart))),
        Passage::Forward => side_of(dart, looked.source(), looked.target(), looked.line(), point),
        Passage::Backward => side_of(
            glance.twin(dart),
            looked.target(),
            looked.source(),
            looked.line(),
            point,
        ),
        Passage::Apart => Found::Past,
    }
}

/// What one look at a dart on the boundary of a face finds for a point. An edge that spans it, of which both darts are there, is told
/// at one of them; at the other one nothing is found.
pub fn find(glance: &Glance, face: FaceId, dart: DartId, looked: &Glimpse, point: &Point) -> Found
    requires map { IsSoundMap glance.now }
    requires dart { HasDart glance.now.graph dart }
    requires looked { IsLookOf glance.now.graph (Edge dart) looked.now }
    ensures { IsFound glance.now.graph (tables_of glance.now) point.now face (Dart dart) result }
{
    let passage = passage_of(looked, point);
    // The names are asked of edges that span the point alone.
    if passage.spans() && is_told_at_twin(glance, face, dart) {
        return Found::Past;
    }
    found_at_dart(glance, dart, looked, point, passage)
}
