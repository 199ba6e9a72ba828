ghost use Rattle.std.specs.Prelude.{◌≡◌, ◌≤ℤ◌};

use crate::entry::Entry;

/// One who is shown entries, one at a time, from the top of a box downwards as far as the tree knows, and who may raise the floor below
/// which there is nothing more to show (CGAL manual, the visitor of a zone; de Berg and others: the segment directly below a point).
///
/// To be shown an entry has no answer for want of memory. A visitor that may find none remembers that it failed: its `has_seen` says
/// "failed, or else ..".
pub trait Visitor {
    ghost use Rattle.std.specs.Prelude.{ℤ};
    ghost use Rattle.box_tree.specs.declared.entry.Entry.{Entry};

    /// What holds of the visitor as it was at first, and of the visitor after some visits.
    ghost may_visit: { Self → Self → Type 0 };

    /// What the visitor as it was at first has to know of an entry that it is shown.
    ghost knows: { Self → Entry → Type 0 };

    /// What is known of an entry once it was shown.
    ghost has_seen: { Self → Entry → Type 0 };

    /// The floor, a whole ordinate.
    ghost floor_of: { Self → ℤ };

    /// Entries whose box is wholly below it aren't asked for any more.
    fn floor(&self) -> i32
        ensures { result ≡ floor_of self.now };

    /// Is shown an entry. What was seen before stays seen, and the floor doesn't fall.
    fn visit(&mut self, entry: &Entry)
        requires ready { (k : _) × may_visit k self.old × knows k entry.now }
        ensures ready { (k : _) → may_visit k self.old → may_visit k self.new }
        ensures seen { has_seen self.new entry.now }
        ensures still { (e : Entry) → has_seen self.old e → has_seen self.new e }
        ensures rises { floor_of self.old ≤ℤ floor_of self.new };
}
