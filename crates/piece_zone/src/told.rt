ghost use Rattle.std.specs.Prelude.{◌≡◌, pos, ◌<ℤ◌, true};
ghost use Rattle.exact_plane.specs.Line.{side_of};
ghost use Rattle.exact_plane.specs.Meet.{IsOnlyCommon, IsCommonPart};
ghost use Rattle.exact_plane.specs.Segment.{AreEnds};
ghost use Rattle.exact_plane.specs.Span.{IsSpan, span_of_segment};
ghost use Rattle.plane_graphs.specs.Ascending.{Member};
ghost use Rattle.piece_location.specs.Layers.{IsPastOf};
ghost use Rattle.piece_zone.specs.Told.{span_of, AreAside, IsToldOf};

use curve_history::History;
use dcel_records::{Records, Spot};
use exact_plane::{Line, Meet, Point, Sign, Span, line_of, side, span_meeting};
use slab_laws::Piece;
use zone_walk::Meeting;

fn is_on_left(line: &Line, point: &Point) -> bool
    ensures { result ≡ true → pos 0 <ℤ side_of line.now point.now }
{
    match side(line, point) {
        Sign::Plus => true,
        Sign::Minus | Sign::Zero => false,
    }
}

fn is_on_right(line: &Line, point: &Point) -> bool
    ensures { result ≡ true → side_of line.now point.now <ℤ pos 0 }
{
    match side(line, point) {
        Sign::Minus => true,
        Sign::Zero | Sign::Plus => false,
    }
}

// Whether two points are both on the left of the line or both on its right.
fn are_aside(line: &Line, p: &Point, q: &Point) -> bool
    ensures { result ≡ true → AreAside line.now p.now q.now }
{
    match side(line, p) {
        Sign::Plus => is_on_left(line, q),
        Sign::Minus => is_on_right(line, q),
        Sign::Zero => false,
    }
}

// A piece as a span.
fn span_of(history: &History, piece: &Piece) -> Span
    requires past { (v : _) × IsPastOf v history.now }
    requires piece { (n : _) × Member (n, piece.now) history.now.rows }
    ensures value { result ≡ span_of piece.now }
    ensures span { IsSpan result }
{
    history.row_laws();
    let span = Span::between(piece.from, piece.to, line_of(&piece.segment));
    span.laws();
    span
}

// What is at the only point that a segment and a piece have in common: a vertex, or else an edge of the piece that has it inside, if there is one.
fn meeting_at(records: &Records, history: &History, piece: &Piece, point: Point) -> Option<Meeting>
    requires past { IsPastOf records.now.graph history.now }
    requires piece { (n : _) × Member (n, piece.now) history.now.rows }
    ensures { (s : _) → AreEnds s → IsSpan (span_of_segment s) → IsSpan (span_of piece.now) → IsOnlyCommon (span_of_segment s) (span_of piece.now) point → IsToldOf records.now.graph history.now s piece.now result }
{
    history.row_laws();
    if let Some(vertex) = records.vertex_at(&point) {
        return Some(Meeting {
            point,
            spot: Spot::Vertex(vertex),
        });
    }
    match history.edge_at(records, piece, &point) {
        Some(dart) => Some(Meeting {
            point,
            spot: Spot::Edge(dart),
        }),
        None => None,
    }
}

// The vertex at the first point of the part that a segment and a piece have in common, if one is there. An edge of the piece leads to each other
// point of the part.
fn meeting_from(
    records: &Records,
    history: &History,
    piece: &Piece,
    first: Point,
) -> Option<Meeting>
    requires past { IsPastOf records.now.graph history.now }
    requires piece { (n : _) × Member (n, piece.now) history.now.rows }
    ensures { (s : _) (last : _) → AreEnds s → IsSpan (span_of_segment s) → IsSpan (span_of piece.now) → IsCommonPart (span_of_segment s) (span_of piece.now) first last → IsToldOf records.now.graph history.now s piece.now result }
{
    history.row_laws();
    match records.vertex_at(&first) {
        Some(vertex) => Some(Meeting {
            point: first,
            spot: Spot::Vertex(vertex),
        }),
        None => None,
    }
}

/// The point at which a segment, given as a span, comes to an edge of a piece, with the vertex or edge there. Where it runs along the piece, that is the
/// first point of the part, if a vertex is there.
pub(crate) fn meeting_with(
    records: &Records,
    history: &History,
    whole: &Span,
    piece: &Piece,
) -> Option<Meeting>
    requires past { IsPastOf records.now.graph history.now }
    requires piece { (n : _) × Member (n, piece.now) history.now.rows }
    ensures { (s : _) → AreEnds s → whole.now ≡ span_of_segment s → IsToldOf records.now.graph history.now s piece.now result }
{
    history.row_laws();
    whole.laws();
    let span = span_of(history, piece);
    // Of most pieces near a long segment the sides on which their ends are tell that they don't meet it.
    if are_aside(&whole.line(), &piece.from, &piece.to) {
        return None;
    }
    match span_meeting(whole, &span) {
        Meet::Apart => None,
        Meet::At(point) => meeting_at(records, history, piece, point),
        Meet::Along(first, _) => meeting_from(records, history, piece, first),
    }
}
