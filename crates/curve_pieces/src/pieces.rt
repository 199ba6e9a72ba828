ghost use Rattle.std.specs.Prelude.{◌≡◌, ◌==◌, ◌+◌, ◌≤◌, ◌<◌, ◌≤ℤ◌, ◌^◌, ◌∷◌, ◌++◌, [], negsuc, true, length, min, Some, IsOk, OnOk};
ghost use Rattle.std.specs.List.{IsDistinct};
ghost use Rattle.plane_graphs.specs.Ascending.{Member};
ghost use Rattle.chain_laws.specs.Links.{first_or};
ghost use Rattle.slab_laws.specs.Tables.{names};
ghost use Rattle.slab_laws.specs.FaceLists.{first_of};
ghost use Rattle.box_tree.specs.Entries.{AllAbove, AreKnown, AreSeen};
ghost use Rattle.exact_plane.specs.Boxes.{ray_below};
ghost use Rattle.curve_pieces.specs.PieceRows.{entries_of, items, HasPiece, LosesCurve, LosesRow, PutsAfter, SetsPiece};

use crate::index::PieceIndex;
use crate::iter::Iter;
use crate::row::{Ends, Row};
use crate::rows::{put_row, take_curve, take_row};
use box_tree::Visitor;
use exact_plane::{BoundingBox, WholeParts};
use indexmap::IndexMap;
use linked_chains::set_head;
use no_memory::NoMemory;
use slab::Slab;
use slab_laws::{CurveId, Piece};
use std::alloc::Global;
use std::marker::Model;

/// Pieces in the order in which they came, each with a name.
///
/// A row of a slab has a piece, and is in two doubly linked lists: that of all pieces, in their order, and that of its curve,
/// whose first row is kept by the curve's number (Knuth, The Art of Computer Programming, multilinked structures). An index
/// over the boxes of the parts finds their names (de Berg and others: windowing queries).
#[derive(Drop)]
pub struct Pieces {
    rows: Slab<Row>,
    ends: Ends,
    // The first row of each curve that has or had pieces since it was drawn.
    heads: IndexMap<usize, Option<usize>>,
    index: PieceIndex,
}

impl Model for Pieces {
    ghost use Rattle.curve_pieces.specs.PieceRows.{Rowed};

    ghost Value = { Rowed };

    ghost use Rattle.curve_pieces.specs.PiecesInMemory.{pieces_seen, AreIndexedPieces};

    ghost view = { λ p. pieces_seen p.rows p.ends p.heads p.index.whole };

    ghost invariant = { λ p. AreIndexedPieces p.rows p.ends p.heads p.index };
}

// The first row of a curve, as its entry has it.
fn first_in(entry: Option<Option<usize>>) -> Option<usize>
    ensures { result ≡ first_or entry }
{
    match entry {
        Some(first) => first,
        None => None,
    }
}

impl Pieces {
    /// No pieces, without room.
    pub fn new(alloc: Global) -> Pieces
        ensures rows { result.rows ≡ [] }
        ensures indexed { result.indexed ≡ true }
    {
        Pieces {
            rows: Slab::new(alloc),
            ends: Ends {
                first: None,
                last: None,
            },
            heads: IndexMap::new(alloc),
            index: PieceIndex::new(alloc),
        }
    }

    /// What is true of all pieces: no name stands twice, and a `usize` counts them and the room for them.
    pub fn laws(&self)
        ensures once { IsDistinct ◌==◌ (names self.now.rows) }
        ensures within { length self.now.rows + self.now.spare ≤ self.now.capacity }
        ensures few { self.now.capacity < 2 ^ 64 }
    {
        let _capacity = self.rows.capacity();
    }

    /// What is true of the boxes of pieces with an index: their numbers are of 32 bits. It costs nothing.
    pub fn box_laws(&self)
        ensures { self.now.indexed ≡ true → AllAbove (negsuc 2147483647) (entries_of self.now.rows) }
    {
        self.index.boxes.laws();
    }

    /// Makes room for so many pieces more; the pieces stay, whatever comes. Where there is memory for them, but not for the index over them, they do
    /// without it until `clear`.
    ///
    /// # Errors
    ///
    /// There was no memory for them.
    pub fn reserve(&mut self, pieces: usize) -> Result<(), NoMemory>
        ensures room { OnOk result (pieces ≤ self.new.spare) }
        ensures succeeds { pieces ≤ self.old.spare → IsOk result }
        ensures rows { self.new.rows ≡ self.old.rows }
        ensures keeps { self.old.spare ≤ self.new.spare }
    {
        let _capacity = self.rows.capacity();
        self.heads.reserve(pieces)?;
        self.rows.reserve(pieces)?;
        self.index.reserve(pieces);
        Ok(())
    }

    /// How many pieces there are.
    pub fn len(&self) -> usize
        ensures { result ≡ length self.now.rows }
    {
        self.rows.len()
    }

    /// One more piece, after all others, in room that is there; its name.
    pub fn add(&mut self, piece: Piece) -> usize
        requires room { 1 ≤ self.old.spare }
        ensures rows { self.new.rows ≡ self.old.rows ++ (result, piece) ∷ [] }
        ensures spare { self.old.spare ≤ self.new.spare + 1 }
    {
        let name = self.rows.vacant_key();
        let entry = self
            .heads
            .insert(piece.curve.0 as usize, Some(name))
            .unwrap();
        let last = self.ends.last;
        let name = put_row(&mut self.rows, &mut self.ends, last, piece, first_in(entry));
        self.index.put(name, &piece);
        name
    }

    /// One more piece of the same curve, directly after that of a name, in room that is there; its name.
    pub fn put_after(&mut self, place: usize, piece: Piece) -> usize
        requires has { HasPiece self.old place }
        requires curve { (k : _) → Member (place, k) self.old.rows → k.curve ≡ piece.curve }
        requires room { length self.old.rows + 1 ≤ self.old.capacity }
        ensures rows { PutsAfter self.old self.new place result piece }
        ensures capacity { self.new.capacity ≡ self.old.capacity }
    {
        let head = self.heads.get_mut(&(piece.curve.0 as usize)).unwrap();
        let first = *head;
        let name = put_row(&mut self.rows, &mut self.ends, Some(place), piece, first);
        *head = Some(name);
        self.index.put(name, &piece);
        name
    }

    /// Another piece of the same curve under a name, in its place.
    pub fn set(&mut self, name: usize, piece: Piece)
        requires has { HasPiece self.old name }
        requires curve { (k : _) → Member (name, k) self.old.rows → k.curve ≡ piece.curve }
        ensures rows { SetsPiece self.old self.new name piece }
        ensures capacity { self.new.capacity ≡ self.old.capacity }
        ensures indexed { self.new.indexed ≡ self.old.indexed }
    {
        self.index.exchange(name, &self.rows[name].piece, &piece);
        self.rows[name].piece = piece;
    }

    /// A piece fewer.
    pub fn remove(&mut self, name: usize)
        requires { HasPiece self.old name }
        ensures rows { LosesRow self.old self.new name }
        ensures capacity { self.new.capacity ≡ self.old.capacity }
        ensures indexed { self.new.indexed ≡ self.old.indexed }
    {
        let gone = take_row(&mut self.rows, &mut self.ends, name);
        self.index.take(name, &gone.piece);
        set_head(
            &mut self.heads,
            gone.piece.curve.0 as usize,
            gone.curve.before,
            gone.curve.after,
        );
    }

    /// The pieces of a curve go, at the cost of their number alone.
    pub fn remove_curve(&mut self, curve: CurveId)
        ensures rows { LosesCurve self.old self.new curve.0 }
        ensures keeps { self.old.spare ≤ self.new.spare }
        ensures capacity { self.new.capacity ≡ self.old.capacity }
        ensures indexed { self.new.indexed ≡ self.old.indexed }
    {
        let curve = curve.0 as usize;
        let first = first_in(self.heads.swap_remove(&curve));
        take_curve(
            &mut self.rows,
            &mut self.ends,
            &mut self.index,
            curve,
            first,
        );
    }

    /// The name of the first piece; `None` where there is none.
    pub fn first(&self) -> Option<usize>
        ensures { result ≡ first_of (names self.now.rows) }
    {
        self.ends.first
    }

    /// The name of the piece after that of a name; `None` after the last.
    pub fn after(&self, name: usize) -> Option<usize>
        requires { HasPiece self.now name }
        ensures { (before after : _) (k : _) → self.now.rows ≡ before ++ (name, k) ∷ after → result ≡ first_of (names after) }
    {
        self.rows[name].order.after
    }

    /// The piece of a name.
    pub fn piece(&self, name: usize) -> &Piece
        requires { HasPiece self.now name }
        ensures { Member (name, result.now) self.now.rows }
    {
        &self.rows[name].piece
    }

    /// All pieces, in their order.
    pub fn iter(&self) -> Iter<'_>
        ensures { result ≡ items self.now }
    {
        Iter {
            rows: &self.rows,
            at: self.ends.first,
        }
    }

    /// Whether the pieces have an index over their boxes. They lack it once there was no memory for it, until `clear`.
    pub fn is_indexed(&self) -> bool
        ensures { result ≡ self.now.indexed }
    {
        self.index.whole
    }

    /// Shows a visitor the entries of pieces whose box meets `area`, and none but those. Once it ends, each of them was shown that isn't wholly below
    /// the floor on which the visitor stands then. It takes no memory (de Berg and others: windowing query).
    pub fn visit<V: Visitor>(&self, area: &BoundingBox, visitor: &mut V)
        requires indexed { self.now.indexed ≡ true }
        requires ready { V.may_visit visitor.old visitor.old }
        requires known { AreKnown (V.knows visitor.old) area.now (entries_of self.now.rows) }
        ensures ready { V.may_visit visitor.old visitor.new }
        ensures seen { AreSeen (V.has_seen visitor.new) area.now (V.floor_of visitor.new) (entries_of self.now.rows) }
        ensures still { (e : _) → V.has_seen visitor.old e → V.has_seen visitor.new e }
        ensures rises { V.floor_of visitor.old ≤ℤ V.floor_of visitor.new }
    {
        self.index.boxes.visit(area, visitor);
    }

    /// The same for the ray from a place downwards (de Berg and others: the segment directly below a point).
    pub fn visit_below<V: Visitor>(&self, place: WholeParts, visitor: &mut V)
        requires indexed { self.now.indexed ≡ true }
        requires ready { V.may_visit visitor.old visitor.old }
        requires known { AreKnown (V.knows visitor.old) (ray_below place) (entries_of self.now.rows) }
        ensures ready { V.may_visit visitor.old visitor.new }
        ensures seen { AreSeen (V.has_seen visitor.new) (ray_below place) (V.floor_of visitor.new) (entries_of self.now.rows) }
        ensures still { (e : _) → V.has_seen visitor.old e → V.has_seen visitor.new e }
        ensures rises { V.floor_of visitor.old ≤ℤ V.floor_of visitor.new }
    {
        self.index.boxes.visit_below(place, visitor);
    }

    /// All pieces go; their room stays, and they have an index.
    pub fn clear(&mut self)
        ensures rows { self.new.rows ≡ [] }
        ensures keeps { self.old.spare ≤ self.new.spare }
        ensures capacity { self.new.capacity ≡ self.old.capacity }
        ensures indexed { self.new.indexed ≡ true }
    {
        self.rows.clear();
        self.ends = Ends {
            first: None,
            last: None,
        };
        self.heads.clear();
        self.index.clear();
    }
}
