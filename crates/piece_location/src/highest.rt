ghost use Rattle.std.specs.Prelude.{◌≡◌, ◌==◌, pos, ◌<ℤ◌, ◌≤ℤ◌, Some, IfSome};
ghost use Rattle.std.specs.List.{IsDistinct};
ghost use Rattle.exact_plane.specs.Point.{IsPoint};
ghost use Rattle.plane_graphs.specs.Ascending.{Member};
ghost use Rattle.slab_laws.specs.Pieces.{piece_of};
ghost use Rattle.slab_laws.specs.Tables.{names};
ghost use Rattle.curve_pieces.specs.PieceRows.{entries_of};
ghost use Rattle.piece_location.specs.Heights.{line_of, IsPieceSeen};
ghost use Rattle.piece_location.specs.Lies.{IsLie};
ghost use Rattle.piece_location.specs.Looks.{higher_piece, taken, AreFitRows, IsLooked, IsReady};

use crate::heights::is_higher;
use crate::lies::{Lie, lie_of};
use box_tree::{Entry, Visitor};
use curve_history::History;
use exact_plane::{Line, Point, line_of as line_along};
use slab_laws::Piece;

/// A piece that a point sees below it, by its name, and its line.
#[derive(Clone, Copy)]
pub(crate) struct PieceBelow {
    pub(crate) name: usize,
    pub(crate) line: Line,
}

/// What looks at pieces find for a point: one that goes through it, once it was met, and until then the highest one that the point sees below it.
#[derive(Drop)]
pub(crate) struct Highest<'a> {
    pub(crate) history: &'a History,
    pub(crate) point: Point,
    pub(crate) through: Option<usize>,
    pub(crate) best: Option<PieceBelow>,
    /// A piece whose box is wholly below it can't change what was found.
    pub(crate) floor: i32,
}

// The highest piece so far gives way to one that is higher.
fn raise(point: &Point, best: &mut Option<PieceBelow>, below: PieceBelow)
    requires ready { IfSome best.old (λ b. pos 0 <ℤ b.line.b) }
    requires below { pos 0 <ℤ below.line.b }
    ensures { best.new ≡ Some (higher_piece point.now best.old below) }
{
    if let Some(other) = &*best {
        if !is_higher(point, &below.line, &other.line) {
            return;
        }
    }
    *best = Some(below);
}

impl<'a> Highest<'a> {
    // Keeps how the piece of an entry lies. What is wholly below the box of a piece that the point sees isn't higher than this one.
    fn take(&mut self, entry: &Entry, piece: &Piece, lie: Lie)
        requires ready { IsReady self.old }
        requires lie { IsLie self.old.point (piece_of piece.now) lie }
        requires slanted { IsPieceSeen self.old.point (piece_of piece.now) → pos 0 <ℤ (line_of (piece_of piece.now)).b }
        ensures taken { self.new ≡ taken self.old entry.now (piece_of piece.now) lie }
        ensures rises { self.old.floor ≤ℤ self.new.floor }
    {
        match lie {
            Lie::Below => {
                raise(
                    &self.point,
                    &mut self.best,
                    PieceBelow {
                        name: entry.name,
                        line: line_along(&piece.segment),
                    },
                );
                self.floor = self.floor.max(entry.bounds.least.y);
            }
            Lie::Through => {
                self.through = Some(entry.name);
                // A number of 32 bits: it doesn't fall.
                let _before = self.floor;
                self.floor = i32::MAX;
            }
            Lie::Apart => {}
        }
    }

    // A look at the piece of an entry. Once a piece goes through the point, nothing more is looked at.
    fn look_at(&mut self, entry: &Entry)
        requires ready { IsReady self.old }
        requires fit { AreFitRows self.old.history.now }
        requires once { IsDistinct ◌==◌ (names self.old.history.now.rows) }
        requires place { IsPoint self.old.point }
        requires entry { Member entry.now (entries_of self.old.history.now.rows) }
        ensures { IsLooked self.old entry.now self.new }
    {
        if self.through.is_some() {
            return;
        }
        let piece = *self.history.piece(entry.name);
        let lie = lie_of(&piece, &self.point);
        self.take(entry, &piece, lie);
    }
}

impl<'a> Visitor for Highest<'a> {
    ghost use Rattle.piece_location.specs.Looks.{MayVisit, Knows, HasSeen};

    ghost may_visit = { MayVisit };

    ghost knows = { Knows };

    ghost has_seen = { HasSeen };

    ghost floor_of = { λ l. l.floor };

    fn floor(&self) -> i32 {
        self.floor
    }

    fn visit(&mut self, entry: &Entry) {
        self.look_at(entry);
    }
}
