ghost use Rattle.std.specs.Prelude.{◌≡◌, ◌+◌, ◌≤◌, ◌<◌, ◌≤ℤ◌, [], ◌∷◌, ◌++◌, negsuc, length, vec_len, vec_capacity, IsOk, OnOk};
ghost use Rattle.std.specs.List.Sorted.{IsPermutation};
ghost use Rattle.exact_plane.specs.Boxes.{ray_below};
ghost use Rattle.box_tree.specs.Entries.{names_meeting, AllAbove, AreKnown, AreSeen, IsRemoved, IsReplaced};

use crate::deepest::{laws, note_all, show_all, take_out};
use crate::entry::Entry;
use crate::tree::{Node, Tree};
use crate::visitor::Visitor;
use exact_plane::{BoundingBox, WholeParts};
use no_memory::NoMemory;
use std::alloc::Global;
use std::marker::Model;

/// Entries by their boxes, and memory in reserve for entries to come: it is seen as its entries, in some order, and as the number of those for
/// which there is memory. An entry may be in it several times.
///
/// At each node of its tree stands one entry, and the tree is at most 96 nodes high. Where names below 2^43 differ, the coordinates are below 2^24 in
/// absolute value and nothing was replaced, each entry finds a place there; what would have to go deeper, such as one entry many times, stands in
/// a list beside the tree, at which each question looks whole.
#[derive(Drop)]
pub struct BoxTree {
    root: Tree,
    // What found no place in the tree.
    deepest: Vec<Entry>,
    spare: Vec<Box<Node>>,
}

impl Model for BoxTree {
    ghost use Rattle.std.specs.Prelude.{◌++◌, length, vec_capacity};
    ghost use Rattle.box_tree.specs.Indexed.{Indexed, IsRoomy};

    ghost Value = { Indexed };

    ghost view = { λ a. record { entries = a.deepest.items ++ a.root.entries; room = length a.spare.items } };

    ghost invariant = { λ a. IsRoomy a.root.height (length a.deepest.items) (length a.spare.items) (vec_capacity a.deepest) };
}

impl BoxTree {
    /// No entries, and memory for none.
    pub fn new(alloc: Global) -> BoxTree
        ensures entries { result.entries ≡ [] }
        ensures room { result.room ≡ 0 }
    {
        BoxTree {
            root: Tree::new(),
            deepest: Vec::new(alloc),
            spare: Vec::new(alloc),
        }
    }

    /// What is true of all entries: their numbers are of 32 bits, so that no box goes below the least of these.
    pub fn laws(&self)
        ensures { AllAbove (negsuc 2147483647) self.now.entries }
    {
        laws(&self.deepest);
        self.root.laws();
    }

    /// Takes memory for `count` entries more, in all with that which there is, and none where there is enough. An error changes no entry, and
    /// takes no memory away.
    pub fn reserve(&mut self, alloc: Global, count: usize) -> Result<(), NoMemory>
        ensures entries { self.new.entries ≡ self.old.entries }
        ensures not_less { self.old.room ≤ self.new.room }
        ensures ok { OnOk result (count ≤ self.new.room) }
        ensures succeeds { count ≤ self.old.room → IsOk result }
    {
        if count <= self.spare.len() {
            return Ok(());
        }
        self.deepest.reserve(count)?;
        'nodes: while self.spare.len() < count {
            self.spare.push(Box::new(alloc, Node::spare())?)?;
        }
        Ok(())
    }

    /// Takes an entry in. It takes no memory but what was reserved.
    pub fn insert(&mut self, entry: Entry)
        requires { 0 < self.old.room }
        ensures entries { IsPermutation (entry ∷ self.old.entries) self.new.entries }
        ensures room { self.old.room ≡ self.new.room + 1 }
    {
        let Some(node) = self.spare.pop() else {
            unreachable!()
        };
        if let Some(left) = self.root.place(node, entry, 0) {
            self.deepest.push_reserved(left);
        }
    }

    /// Takes an entry out, once, and says whether it was there. Its memory is given back, not kept in reserve.
    pub fn remove(&mut self, entry: &Entry) -> bool
        ensures entries { IsRemoved entry.now self.old.entries self.new.entries result }
        ensures room { self.new.room ≡ self.old.room }
    {
        if self.root.remove(entry) {
            return true;
        }
        take_out(&mut self.deepest, entry)
    }

    /// Another entry stands for an entry, once, and it says whether that was there. It takes no memory, and nothing of what was reserved.
    pub fn replace(&mut self, old: &Entry, new: Entry) -> bool
        ensures entries { IsReplaced old.now new self.old.entries self.new.entries result }
        ensures room { self.new.room ≡ self.old.room }
    {
        if self.root.replace(old, new) {
            return true;
        }
        if !take_out(&mut self.deepest, old) {
            return false;
        }
        self.deepest.push_reserved(new);
        true
    }

    /// Takes all entries out.
    pub fn clear(&mut self)
        ensures entries { self.new.entries ≡ [] }
        ensures room { self.new.room ≡ self.old.room }
    {
        self.root = Tree::new();
        self.deepest.clear();
    }

    /// Adds the names of all entries whose box meets `area`, each entry's once, in some order. Boxes that touch meet. It takes no memory:
    /// `found` has room for all entries (de Berg and others: windowing query).
    pub fn find(&self, area: &BoundingBox, found: &mut Vec<usize>)
        requires { vec_len found.old + length self.now.entries ≤ vec_capacity found.old }
        ensures names { found.new.items ≡ found.old.items ++ names_meeting area.now self.now.entries }
        ensures capacity { vec_capacity found.new ≡ vec_capacity found.old }
    {
        note_all(&self.deepest, area, found);
        self.root.find(area, found);
    }

    /// The same for the ray from a place downwards: the entries whose box reaches the place's abscissa, and isn't wholly above the place
    /// (de Berg and others: stabbing query).
    pub fn find_below(&self, place: WholeParts, found: &mut Vec<usize>)
        requires { vec_len found.old + length self.now.entries ≤ vec_capacity found.old }
        ensures names { found.new.items ≡ found.old.items ++ names_meeting (ray_below place) self.now.entries }
        ensures capacity { vec_capacity found.new ≡ vec_capacity found.old }
    {
        self.find(&ray_below(place), found);
    }

    /// Shows a visitor entries whose box meets `area`, and none but those. Once it ends, each of them was shown that isn't wholly below the floor on
    /// which the visitor stands then. It begins where boxes reach highest, as far as the tree knows, so that a floor that rises saves most
    /// of what is below it. It takes no memory.
    pub fn visit<V: Visitor>(&self, area: &BoundingBox, visitor: &mut V)
        requires ready { V.may_visit visitor.old visitor.old }
        requires known { AreKnown (V.knows visitor.old) area.now self.now.entries }
        ensures ready { V.may_visit visitor.old visitor.new }
        ensures seen { AreSeen (V.has_seen visitor.new) area.now (V.floor_of visitor.new) self.now.entries }
        ensures still { (e : _) → V.has_seen visitor.old e → V.has_seen visitor.new e }
        ensures rises { V.floor_of visitor.old ≤ℤ V.floor_of visitor.new }
    {
        show_all(&self.deepest, area, visitor);
        self.root.visit(area, visitor);
    }

    /// The same for the ray from a place downwards: what is looked for is the highest thing below the place, and the visitor's floor is the
    /// height of the highest one that it has met (de Berg and others: the segment directly below a point).
    pub fn visit_below<V: Visitor>(&self, place: WholeParts, visitor: &mut V)
        requires ready { V.may_visit visitor.old visitor.old }
        requires known { AreKnown (V.knows visitor.old) (ray_below place) self.now.entries }
        ensures ready { V.may_visit visitor.old visitor.new }
        ensures seen { AreSeen (V.has_seen visitor.new) (ray_below place) (V.floor_of visitor.new) self.now.entries }
        ensures still { (e : _) → V.has_seen visitor.old e → V.has_seen visitor.new e }
        ensures rises { V.floor_of visitor.old ≤ℤ V.floor_of visitor.new }
    {
        self.visit(&ray_below(place), visitor);
    }
}

// The ray from a place downwards, as a box.
fn ray_below(place: WholeParts) -> BoundingBox
    ensures { result ≡ ray_below place }
{
    BoundingBox {
        least: WholeParts {
            x: place.x,
            y: i32::MIN,
        },
        greatest: place,
    }
}
