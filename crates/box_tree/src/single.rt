// What a question does at one entry.
ghost use Rattle.std.specs.Prelude.{◌≡◌, ◌+◌, ◌≤◌, ◌<◌, ◌≤ℤ◌, ◌<ℤ◌, true, [], ◌∷◌, ◌++◌, vec_len, vec_capacity};
ghost use Rattle.box_tree.specs.Entries.{names_meeting, AreKnown, AreSeen};

use crate::entry::Entry;
use crate::visitor::Visitor;
use exact_plane::BoundingBox;

// Adds the entry's name, if its box meets the area.
pub fn note(entry: &Entry, area: &BoundingBox, found: &mut Vec<usize>)
    requires { vec_len found.old < vec_capacity found.old }
    ensures items { found.new.items ≡ found.old.items ++ names_meeting area.now (entry.now ∷ []) }
    ensures len { vec_len found.new ≤ vec_len found.old + 1 }
    ensures capacity { vec_capacity found.new ≡ vec_capacity found.old }
{
    if !area.is_apart(&entry.bounds) {
        found.push_reserved(entry.name);
    }
}

// Whether the box is wholly below the visitor's floor.
pub fn is_below_floor<V: Visitor>(bounds: &BoundingBox, visitor: &V) -> bool
    ensures { result ≡ true → bounds.now.greatest.y <ℤ V.floor_of visitor.now }
{
    bounds.greatest.y < visitor.floor()
}

// Shows the entry, if its box meets the area and isn't wholly below the visitor's floor.
pub fn show<V: Visitor>(entry: &Entry, area: &BoundingBox, visitor: &mut V)
    requires { (k : _) × V.may_visit k visitor.old × AreKnown (V.knows k) area.now (entry.now ∷ []) }
    ensures ready { (k : _) → V.may_visit k visitor.old → V.may_visit k visitor.new }
    ensures seen { AreSeen (V.has_seen visitor.new) area.now (V.floor_of visitor.new) (entry.now ∷ []) }
    ensures still { (e : _) → V.has_seen visitor.old e → V.has_seen visitor.new e }
    ensures rises { V.floor_of visitor.old ≤ℤ V.floor_of visitor.new }
{
    if is_below_floor(&entry.bounds, visitor) {
        return;
    }
    if area.is_apart(&entry.bounds) {
        return;
    }
    visitor.visit(entry);
}
