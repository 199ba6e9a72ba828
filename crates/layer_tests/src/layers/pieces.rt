use crate::layers::edits::at;
use arrangement::Arrangement;
use slab_laws::Piece;
use std::test::Fail;

/// A piece, by its curve's number and the whole coordinates of its ends.
#[derive(Clone, Copy)]
pub struct Part(pub u32, pub (i128, i128), pub (i128, i128));

// Whether the piece is this one.
fn is_part(piece: &Piece, part: &Part) -> Result<bool, Fail> {
    let Part(curve, (x1, y1), (x2, y2)) = *part;
    let (from, to) = (at(x1, y1)?, at(x2, y2)?);
    Ok(piece.curve.0 == curve && piece.from == from && piece.to == to)
}

/// Whether these are the layer's pieces, in their order.
pub fn has_pieces(layer: &Arrangement, wanted: &[Part]) -> Result<bool, Fail> {
    if layer.history().pieces() as usize != wanted.len() {
        return Ok(false);
    }
    for (piece, part) in layer.history().pieces_in_order().zip(wanted) {
        if !is_part(piece, part)? {
            return Ok(false);
        }
    }
    Ok(true)
}
