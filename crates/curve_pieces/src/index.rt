ghost use Rattle.std.specs.Prelude.{◌≡◌, ◌∷◌, ℕ, true, List, []};
ghost use Rattle.std.specs.List.Sorted.{IsPermutation};
ghost use Rattle.slab_laws.specs.declared.present.Piece.{Piece as PieceInMemory};
ghost use Rattle.curve_pieces.specs.PieceRows.{entries_of, entry_of};
ghost use Rattle.curve_pieces.specs.PiecesInMemory.{IsIndexOf};

use box_tree::{BoxTree, Entry};
use exact_plane::BoundingBox;
use slab_laws::Piece;
use std::alloc::Global;

/// The names of pieces, found by the boxes of their parts.
///
/// The index is whole as long as each piece has its entry, and none other has one. Once no memory is given for an entry, it is
/// kept up no more, until `clear`.
#[derive(Drop)]
pub(crate) struct PieceIndex {
    pub(crate) boxes: BoxTree,
    pub(crate) whole: bool,
    alloc: Global,
}

// The entry of a piece.
fn entry_of(name: usize, piece: &Piece) -> Entry
    ensures { result ≡ entry_of (name, piece.now) }
{
    Entry {
        name,
        bounds: BoundingBox::between(&piece.from, &piece.to),
    }
}

impl PieceIndex {
    /// No pieces.
    pub(crate) fn new(alloc: Global) -> PieceIndex
        ensures rows { IsIndexOf result [] }
        ensures whole { result.whole ≡ true }
    {
        PieceIndex {
            boxes: BoxTree::new(alloc),
            whole: true,
            alloc,
        }
    }

    /// Makes room for so many pieces more, where there is memory.
    pub(crate) fn reserve(&mut self, additional: usize)
        ensures { (rows : List (ℕ × PieceInMemory)) → IsIndexOf self.old rows → IsIndexOf self.new rows }
    {
        if !self.whole {
            return;
        }
        let Ok(()) = self.boxes.reserve(self.alloc, additional) else {
            self.give_up();
            return;
        };
    }

    // Its memory serves others better than an index that lacks a piece.
    fn give_up(&mut self)
        ensures { (rows : List (ℕ × PieceInMemory)) → IsIndexOf self.new rows }
    {
        self.boxes.clear();
        self.whole = false;
    }

    /// One piece more. Where a piece has room and the index has none, as after a cut in which pieces went, it asks for memory.
    pub(crate) fn put(&mut self, name: usize, piece: &Piece)
        ensures { (rows more : List (ℕ × PieceInMemory)) → IsIndexOf self.old rows → IsPermutation ((name, piece.now) ∷ rows) more → IsIndexOf self.new more }
    {
        if !self.whole {
            return;
        }
        let Ok(()) = self.boxes.reserve(self.alloc, 1) else {
            self.give_up();
            return;
        };
        self.boxes.insert(entry_of(name, piece));
    }

    /// One piece fewer.
    pub(crate) fn take(&mut self, name: usize, piece: &Piece)
        ensures rows { (rows less : List (ℕ × PieceInMemory)) → IsIndexOf self.old rows → IsPermutation rows ((name, piece.now) ∷ less) → IsIndexOf self.new less }
        ensures whole { self.new.whole ≡ self.old.whole }
    {
        if !self.whole {
            return;
        }
        self.boxes.remove(&entry_of(name, piece));
    }

    /// Another piece under a name.
    pub(crate) fn exchange(&mut self, name: usize, old: &Piece, new: &Piece)
        ensures rows { (rows others now : List (ℕ × PieceInMemory)) → IsIndexOf self.old rows → IsPermutation rows ((name, old.now) ∷ others) → IsPermutation ((name, new.now) ∷ others) now → IsIndexOf self.new now }
        ensures whole { self.new.whole ≡ self.old.whole }
    {
        if !self.whole {
            return;
        }
        self.boxes
            .replace(&entry_of(name, old), entry_of(name, new));
    }

    /// All pieces go; room that was made stays.
    pub(crate) fn clear(&mut self)
        ensures rows { IsIndexOf self.new [] }
        ensures whole { self.new.whole ≡ true }
    {
        self.boxes.clear();
        self.whole = true;
    }
}
