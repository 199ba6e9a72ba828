ghost use Rattle.std.specs.Prelude.{◌≡◌, map, IfOk};
ghost use Rattle.exact_plane.specs.Span.{IsSpan};
ghost use Rattle.plane_graphs.specs.Fit.{IsFitPiece};
ghost use Rattle.slab_laws.specs.Pieces.{piece_of};
ghost use Rattle.present_graphs.specs.Spans.{span_of_piece, lies_on, AreFit, AreSpans};

use exact_plane::{Point, Span, line_of};
use no_memory::NoMemory;
use slab_laws::Piece;
use std::alloc::Global;

// The part of its line that a piece covers.
pub(crate) fn span_of(piece: &Piece) -> Span
    requires { IsFitPiece (piece_of piece.now) }
    ensures value { result ≡ span_of_piece (piece_of piece.now) }
    ensures span { IsSpan result }
{
    let span = Span::between(piece.from, piece.to, line_of(&piece.segment));
    span.laws();
    span
}

/// The spans of pieces, in their order: of each the part of its segment's line from its lower end to its upper end.
///
/// # Errors
///
/// There was no memory.
pub fn spans_of(alloc: Global, pieces: &[Piece]) -> Result<Vec<Span>, NoMemory>
    requires { AreFit (map piece_of pieces.now) }
    ensures items { IfOk result (λ spans. spans.items ≡ map span_of_piece (map piece_of pieces.now)) }
    ensures spans { IfOk result (λ spans. AreSpans spans.items) }
{
    let mut spans = Vec::with_capacity(alloc, pieces.len())?;
    for piece in pieces {
        spans.push(span_of(piece))?;
    }
    Ok(spans)
}

// Whether a point lies on a span.
pub(crate) fn holds(span: &Span, point: &Point) -> bool
    ensures { result ≡ lies_on span.now point.now }
{
    span.line().holds(point) && span.lower() <= *point && *point <= span.upper()
}
