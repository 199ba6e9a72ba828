ghost use Rattle.std.specs.Iterator.{item_count, YieldsFirstRef};

use crate::row::Row;
use slab::Slab;
use slab_laws::Piece;
use std::marker::Model;

/// The pieces that are still to come, in their order.
#[derive(Drop)]
pub struct Iter<'a> {
    pub(crate) rows: &'a Slab<Row>,
    pub(crate) at: Option<usize>,
}

impl<'a> Model for Iter<'a> {
    ghost use Rattle.std.specs.Prelude.{List, map};
    ghost use Rattle.slab_laws.specs.declared.present.Piece.{Piece as PieceInMemory};
    ghost use Rattle.curve_pieces.specs.PiecesInMemory.{rows_from, IsRest};

    ghost Value = { List PieceInMemory };

    ghost view = { λ i. map (λ r. r.1) (rows_from i.rows.now i.at) };

    ghost invariant = { λ i. IsRest i.rows.now i.at };
}

impl<'a> Iterator for Iter<'a> {
    type Item = &'a Piece;

    ghost next_gives = { YieldsFirstRef (λ rest. rest) };

    ghost remaining = { item_count (λ rest. rest) };

    fn next(&mut self) -> Option<&'a Piece> {
        let Some(name) = self.at else {
            return None;
        };
        let row = &self.rows[name];
        self.at = row.order.after;
        Some(&row.piece)
    }
}
