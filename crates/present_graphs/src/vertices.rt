ghost use Rattle.std.specs.Prelude.{◌≡◌, ◌↔◌, ◌++◌, map, flat_map, Some, IfOk};
ghost use Rattle.exact_plane.specs.Point.{Point};
ghost use Rattle.exact_plane.specs.PointOrder.{point_cmp};
ghost use Rattle.plane_graphs.specs.Ascending.{ascending};
ghost use Rattle.plane_graphs.specs.Fit.{IsFit};
ghost use Rattle.plane_graphs.specs.Graph.{ends, vertices};
ghost use Rattle.slab_laws.specs.Pieces.{piece_of, present_of};
ghost use Rattle.present_graphs.specs.Shared.{IsShared, IsSharedWith, IsSharedByTwo, IsGrownBy};

use crate::pieces::spans_of;
use exact_plane::{Meet, Point, Span, span_meeting};
use no_memory::NoMemory;
use slab_laws::{Piece, Present};
use std::alloc::Global;

// Both ends of each piece.
fn add_ends(points: &mut Vec<Point>, pieces: &[Piece]) -> Result<(), NoMemory>
    ensures { IfOk result (λ _. points.new.items ≡ points.old.items ++ flat_map ends (map piece_of pieces.now)) }
{
    for piece in pieces {
        points.push(piece.from)?;
        points.push(piece.to)?;
    }
    Ok(())
}

// The common point of two spans of different lines, where they have one.
fn crossing(first: &Span, second: &Span) -> Option<Point>
    ensures { (x : Point) → (IsShared first.now second.now x ↔ (result ≡ Some x)) }
{
    if first.line() == second.line() {
        return None;
    }
    match span_meeting(first, second) {
        Meet::At(point) => Some(point),
        Meet::Apart | Meet::Along(_, _) => None,
    }
}

// The crossings of a span with others.
fn add_crossings(points: &mut Vec<Point>, span: &Span, others: &[Span]) -> Result<(), NoMemory>
    ensures { IfOk result (λ _. IsGrownBy (IsSharedWith span.now others.now) points.old.items points.new.items) }
{
    for other in others {
        if let Some(point) = crossing(span, other) {
            points.push(point)?;
        }
    }
    Ok(())
}

// The crossings of each two spans.
fn add_all_crossings(points: &mut Vec<Point>, spans: &[Span]) -> Result<(), NoMemory>
    ensures { IfOk result (λ _. IsGrownBy (IsSharedByTwo spans.now) points.old.items points.new.items) }
{
    for (i, span) in spans.iter().enumerate() {
        let (before, _) = spans.split_at(i);
        add_crossings(points, span, before)?;
    }
    Ok(())
}

// Brings points into their order, each once.
pub(crate) fn arrange_points(points: &mut Vec<Point>)
    ensures { points.new.items ≡ ascending point_cmp points.old.items }
{
    points.sort_unstable();
    points.dedup();
}

/// The vertices of a present, ascending: the ends of its pieces, its pins, and the single common points of two pieces of
/// different lines (CGAL manual, `Arrangement_2`; pins are this project's).
///
/// It compares each two pieces. Fails with `NoMemory` where there is no memory for the points and the lines of the
/// pieces.
pub fn vertices_of(alloc: Global, present: &Present) -> Result<Vec<Point>, NoMemory>
    requires { IsFit (present_of present.now) }
    ensures { IfOk result (λ v. v.items ≡ vertices (present_of present.now)) }
{
    let spans = spans_of(alloc, present.pieces.as_slice())?;
    let mut points = Vec::new(alloc);
    add_ends(&mut points, present.pieces.as_slice())?;
    points.extend_from_slice(present.pins.as_slice())?;
    add_all_crossings(&mut points, &spans)?;
    arrange_points(&mut points);
    Ok(points)
}
