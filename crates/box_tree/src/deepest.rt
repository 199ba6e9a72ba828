// Entries in a list, for which the tree has no place above its deepest level.
ghost use Rattle.std.specs.Prelude.{◌≡◌, true, false, ◌+◌, ◌≤◌, ◌<◌, ◌≤ℤ◌, ◌++◌, negsuc, vec_len, vec_capacity, length};
ghost use Rattle.box_tree.specs.Entries.{names_meeting, AllAbove, AreKnown, AreSeen, IsRemoved};

use crate::entry::Entry;
use crate::single::{note, show};
use crate::visitor::Visitor;
use exact_plane::BoundingBox;

// Takes the entry out, and says whether it was there.
pub fn take_out(entries: &mut Vec<Entry>, entry: &Entry) -> bool
    ensures entries { IsRemoved entry.now entries.old.items entries.new.items result }
    ensures len { result ≡ true → vec_len entries.old ≡ vec_len entries.new + 1 }
    ensures len_other { result ≡ false → vec_len entries.new ≡ vec_len entries.old }
    ensures capacity { vec_capacity entries.new ≡ vec_capacity entries.old }
{
    let mut place = 0;
    'places: while place < entries.len() {
        if entries[place].is(entry) {
            entries.swap_remove(place);
            return true;
        }
        place += 1;
    }
    false
}

// The least ordinate of its box.
fn lowest(entry: &Entry) -> i32
    ensures { result ≡ entry.now.bounds.least.y }
{
    entry.bounds.least.y
}

// No box goes below the least ordinate of 32 bits.
pub fn laws(entries: &[Entry])
    ensures { AllAbove (negsuc 2147483647) entries.now }
{
    for entry in entries {
        lowest(entry);
    }
}

// Adds the names of all entries whose box meets `area`, each once.
pub fn note_all(entries: &[Entry], area: &BoundingBox, found: &mut Vec<usize>)
    requires { vec_len found.old + length entries.now ≤ vec_capacity found.old }
    ensures items { found.new.items ≡ found.old.items ++ names_meeting area.now entries.now }
    ensures len { vec_len found.new ≤ vec_len found.old + length entries.now }
    ensures capacity { vec_capacity found.new ≡ vec_capacity found.old }
{
    for entry in entries {
        note(entry, area, found);
    }
}

// Shows the entries whose box meets `area` and isn't wholly below the visitor's floor.
pub fn show_all<V: Visitor>(entries: &[Entry], area: &BoundingBox, visitor: &mut V)
    requires { (k : _) × V.may_visit k visitor.old × AreKnown (V.knows k) area.now entries.now }
    ensures ready { (k : _) → V.may_visit k visitor.old → V.may_visit k visitor.new }
    ensures seen { AreSeen (V.has_seen visitor.new) area.now (V.floor_of visitor.new) entries.now }
    ensures still { (e : _) → V.has_seen visitor.old e → V.has_seen visitor.new e }
    ensures rises { V.floor_of visitor.old ≤ℤ V.floor_of visitor.new }
{
    for entry in entries {
        show(entry, area, visitor);
    }
}
