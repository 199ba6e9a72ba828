//! The index over the pieces: which of them meet a box.
ghost use Rattle.std.specs.Prelude.{◌≡◌, ◌==◌, ◌≤ℤ◌, negsuc, true};
ghost use Rattle.std.specs.List.{IsDistinct};
ghost use Rattle.exact_plane.specs.Boxes.{ray_below};
ghost use Rattle.box_tree.specs.Entries.{AllAbove, AreKnown, AreSeen};
ghost use Rattle.plane_graphs.specs.Ascending.{Member};
ghost use Rattle.slab_laws.specs.Tables.{names};
ghost use Rattle.curve_pieces.specs.PieceRows.{entries_of};
ghost use Rattle.curve_history.specs.Cuts.{modelled};

use crate::history::History;
use box_tree::Visitor;
use exact_plane::{BoundingBox, WholeParts};
use slab_laws::Piece;

impl History {
    /// What is true of pieces by name: they are the history's pieces, no name stands twice, and the numbers of their boxes are of 32 bits.
    pub fn row_laws(&self)
        ensures pieces { self.now.pieces ≡ modelled self.now.rows }
        ensures once { IsDistinct ◌==◌ (names self.now.rows) }
        ensures low { self.now.indexed ≡ true → AllAbove (negsuc 2147483647) (entries_of self.now.rows) }
    {
        self.pieces.laws();
        self.pieces.box_laws();
    }

    /// The piece of a name.
    pub fn piece(&self, name: usize) -> &Piece
        requires { Member name (names self.now.rows) }
        ensures { Member (name, result.now) self.now.rows }
    {
        self.pieces.piece(name)
    }

    /// Whether the pieces have an index over their boxes. They lack it once there was no memory for it, until `clear`.
    pub fn is_indexed(&self) -> bool
        ensures { result ≡ self.now.indexed }
    {
        self.pieces.is_indexed()
    }

    /// Shows a visitor the entries of pieces whose box meets `area`, and none but those. Once it ends, each of them was shown that isn't wholly below
    /// the floor on which the visitor stands then. It takes no memory (de Berg and others: windowing query).
    pub fn visit<V: Visitor>(&self, area: &BoundingBox, visitor: &mut V)
        requires indexed { self.now.indexed ≡ true }
        requires ready { V.may_visit visitor.old visitor.old }
        requires known { AreKnown (V.knows visitor.old) area.now (entries_of self.now.rows) }
        ensures ready { V.may_visit visitor.old visitor.new }
        ensures seen { AreSeen (V.has_seen visitor.new) area.now (V.floor_of visitor.new) (entries_of self.now.rows) }
        ensures still { (e : _) → V.has_seen visitor.old e → V.has_seen visitor.new e }
        ensures rises { V.floor_of visitor.old ≤ℤ V.floor_of visitor.new }
    {
        self.pieces.visit(area, visitor);
    }

    /// The same for the ray from a place downwards (de Berg and others: the segment directly below a point).
    pub fn visit_below<V: Visitor>(&self, place: WholeParts, visitor: &mut V)
        requires indexed { self.now.indexed ≡ true }
        requires ready { V.may_visit visitor.old visitor.old }
        requires known { AreKnown (V.knows visitor.old) (ray_below place) (entries_of self.now.rows) }
        ensures ready { V.may_visit visitor.old visitor.new }
        ensures seen { AreSeen (V.has_seen visitor.new) (ray_below place) (V.floor_of visitor.new) (entries_of self.now.rows) }
        ensures still { (e : _) → V.has_seen visitor.old e → V.has_seen visitor.new e }
        ensures rises { V.floor_of visitor.old ≤ℤ V.floor_of visitor.new }
    {
        self.pieces.visit_below(place, visitor);
    }
}
