use box_tree::{Entry, Visitor};
use curve_history::History;

/// The names of pieces of a history that were shown.
#[derive(Drop)]
pub(crate) struct Shown<'a> {
    pub(crate) history: &'a History,
    pub(crate) names: Vec<usize>,
    /// Whether there was no memory for one.
    pub(crate) failed: bool,
}

impl<'a> Visitor for Shown<'a> {
    ghost use Rattle.std.specs.Prelude.{negsuc};
    ghost use Rattle.piece_zone.specs.Windows.{MayShow, IsOfPiece, HasShown};

    ghost may_visit = { MayShow };

    ghost knows = { IsOfPiece };

    ghost has_seen = { HasShown };

    ghost floor_of = { λ l. negsuc 2147483647 };

    // No floor: each piece whose box meets the segment's is shown.
    fn floor(&self) -> i32 {
        i32::MIN
    }

    fn visit(&mut self, entry: &Entry) {
        match self.names.push(entry.name) {
            Ok(()) => {}
            Err(_) => self.failed = true,
        }
    }
}
