ghost use Rattle.std.specs.Prelude.{◌≡◌, map, IfOk};
ghost use Rattle.plane_graphs.specs.Fit.{IsFit, IsFitPiece};
ghost use Rattle.plane_graphs.specs.Graph.{graph, mark_cmp, vertices};
ghost use Rattle.plane_graphs.specs.Ascending.{ascending};
ghost use Rattle.slab_laws.specs.Pieces.{piece_of, present_of};
ghost use Rattle.present_graphs.specs.Marks.{mark_of, marks_along, HaveCome};

use crate::pieces::{holds, span_of};
use exact_plane::Point;
use no_memory::NoMemory;
use slab_laws::{CurveId, Piece, Present};
use std::alloc::Global;

/// One curve along one edge.
#[derive(Clone, Copy, PartialEq, Eq, PartialOrd, Ord)]
pub struct Mark {
    /// The edge's lesser end.
    pub low: Point,
    /// The edge's greater end.
    pub high: Point,
    /// A curve that runs along it.
    pub curve: CurveId,
}

// The marks of one piece: each point on it, with the next one.
fn add_marks(marks: &mut Vec<Mark>, piece: &Piece, points: &[Point]) -> Result<(), NoMemory>
    requires { IsFitPiece (piece_of piece.now) }
    ensures { IfOk result (λ _. HaveCome (marks_along piece.now points.now) marks.old.items marks.new.items) }
{
    let span = span_of(piece);
    let mut last: Option<Point> = None;
    for point in points {
        if holds(&span, point) {
            if let Some(low) = last {
                let high = *point;
                let curve = piece.curve;
                marks.push(Mark { low, high, curve })?;
            }
            last = Some(*point);
        }
    }
    Ok(())
}

// Brings marks into their order, each once.
fn arrange(marks: &mut Vec<Mark>)
    ensures { map mark_of marks.new.items ≡ ascending mark_cmp (map mark_of marks.old.items) }
{
    marks.sort_unstable();
    marks.dedup();
}

/// The edges of a present with their curves, ascending: an edge with n curves is n marks (CGAL manual, arrangements with
/// history).
///
/// It takes the vertices of the present, and looks at each of them for each piece. Fails with `NoMemory` where there is
/// no memory for the marks.
pub fn marks_of(alloc: Global, present: &Present, points: &[Point]) -> Result<Vec<Mark>, NoMemory>
    requires fit { IsFit (present_of present.now) }
    requires points { points.now ≡ vertices (present_of present.now) }
    ensures { IfOk result (λ v. map mark_of v.items ≡ (graph (present_of present.now)).marks) }
{
    let mut marks = Vec::new(alloc);
    for piece in present.pieces.as_slice() {
        add_marks(&mut marks, piece, points)?;
    }
    arrange(&mut marks);
    Ok(marks)
}
