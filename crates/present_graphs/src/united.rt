ghost use Rattle.std.specs.Prelude.{◌≡◌, ◌++◌, length, map, IfOk};
ghost use Rattle.exact_plane.specs.PointOrder.{point_cmp};
ghost use Rattle.plane_graphs.specs.Ascending.{ascending};
ghost use Rattle.slab_laws.specs.Pieces.{piece_of, present_of};
ghost use Rattle.overlay_laws.specs.United.{numbered_from, united};

use crate::vertices::arrange_points;
use exact_plane::Point;
use no_memory::NoMemory;
use slab_laws::{CurveId, Piece, Present, Sequence};
use std::alloc::Global;

// The number of the piece at a place. There is no memory for more pieces than there are numbers.
fn number_at(place: usize) -> Result<CurveId, NoMemory>
    ensures { IfOk result (λ n. n.0 ≡ place) }
{
    match u32::try_from(place) {
        Ok(number) => Ok(CurveId(number)),
        Err(_) => Err(NoMemory),
    }
}

// Adds pieces, each under the number of its place among all.
fn add_pieces(all: &mut Sequence<Piece>, pieces: &[Piece]) -> Result<(), NoMemory>
    ensures { IfOk result (λ _. map piece_of all.new
        ≡ map piece_of all.old ++ numbered_from (length all.old) (map piece_of pieces.now)) }
{
    for piece in pieces {
        let curve = number_at(all.as_slice().len())?;
        all.push(Piece {
            curve,
            side: piece.side,
            segment: piece.segment,
            from: piece.from,
            to: piece.to,
        })?;
    }
    Ok(())
}

// The points of both lists, ascending.
fn merged(alloc: Global, red: &[Point], blue: &[Point]) -> Result<Vec<Point>, NoMemory>
    ensures { IfOk result (λ v. v.items ≡ ascending point_cmp (red.now ++ blue.now)) }
{
    let mut points = Vec::new(alloc);
    points.extend_from_slice(red)?;
    points.extend_from_slice(blue)?;
    arrange_points(&mut points);
    Ok(points)
}

fn sequence_of(alloc: Global, points: &[Point]) -> Result<Sequence<Point>, NoMemory>
    ensures { IfOk result (λ s. s ≡ points.now) }
{
    let mut sequence = Sequence::new(alloc);
    for point in points {
        sequence.push(*point)?;
    }
    Ok(sequence)
}

/// Both layers as one present, each piece a curve of its own: its number is the place of the piece, first those of red, then those
/// of blue. So the vertices and edges are those of the overlay, and fit layers are fit together (CGAL manual, `overlay`).
///
/// # Errors
///
/// There was no memory for the lists; for more than 2^32 pieces there is none.
pub fn unite(alloc: Global, red: &Present, blue: &Present) -> Result<Present, NoMemory>
    ensures { IfOk result (λ p. present_of p ≡ united (present_of red.now) (present_of blue.now)) }
{
    let mut pieces = Sequence::new(alloc);
    add_pieces(&mut pieces, red.pieces.as_slice())?;
    add_pieces(&mut pieces, blue.pieces.as_slice())?;
    let points = merged(alloc, red.pins.as_slice(), blue.pins.as_slice())?;
    let pins = sequence_of(alloc, &points)?;
    Ok(Present { pieces, pins })
}
