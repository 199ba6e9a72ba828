// A tree of entries, one at each node, each node with a box that covers the boxes of all entries in it. A node's two sides are told apart at
// one level, its fork; levels at which all that is in it goes one way are passed over (Morrison: PATRICIA), and an entry that would go another way
// at one of these gets a fork above the node. Of two entries that meet at a node the larger one stays, so that deep boxes are mostly small. Only
// that a node's box covers its entries is relied on: a question passes over a node whose box it does not meet. Where an entry goes down tells
// of time alone, and a removal that does not find it there looks at the other side.
ghost use Rattle.std.specs.Prelude.{◌≡◌, ◌+◌, ◌≤◌, ◌<◌, ◌≤ℤ◌, max, true, false, [], ◌∷◌, ◌++◌, negsuc, vec_len, vec_capacity, length};
ghost use Rattle.std.specs.List.Sorted.{IsPermutation};
ghost use Rattle.exact_plane.specs.Boxes.{IsWithin};
ghost use Rattle.box_tree.specs.Nodes.{left_over};
ghost use Rattle.box_tree.specs.Entries.{names_meeting, is_met, AllAbove, AllWithin, AreKnown, AreSeen, IsPlaced, IsPopped, IsRemoved, IsReplaced, IsEither, is_empty_list};

use crate::entry::Entry;
use crate::single::{is_below_floor, note, show};
use crate::visitor::Visitor;
use exact_plane::{BoundingBox, WholeParts};
use std::marker::Model;
use std::mem::{replace, swap};

// The nodes on the longest way down, at most: each fork is at a later level than those above it. Where names differ, no entry goes down further than
// by the bits of its middle and its name.
const LEVELS: u32 = 96;

#[cycle(tree)]
#[derive(Drop)]
pub struct Tree {
    link: Link,
}

#[cycle(tree)]
#[derive(Drop)]
enum Link {
    Empty,
    Node(Box<Node>),
}

#[cycle(tree)]
#[derive(Drop)]
pub struct Node {
    entry: Entry,
    cover: BoundingBox,
    // The level at which its sides are told apart. It says nothing where both are empty.
    fork: u32,
    low: Tree,
    high: Tree,
}

impl Model for Tree {
    ghost use Rattle.box_tree.specs.Grown.{Grown};

    ghost Value = { Grown };

    ghost use Rattle.box_tree.specs.Nodes.{grown, IsCovered, IsLow};

    ghost view = { λ a. grown a.link };

    ghost invariant = { λ a. IsCovered a.link × IsLow a.link };

    ghost size = { λ g. g.height };

    ghost use Rattle.box_tree.specs.NodesFall.{depth_le-height};

    ghost size_decreases = { λ a h. depth_le-height a.link };
}

impl Node {
    // A node for a later entry.
    pub fn spare() -> Node {
        let place = WholeParts { x: 0, y: 0 };
        let bounds = BoundingBox {
            least: place,
            greatest: place,
        };
        Node {
            entry: Entry { name: 0, bounds },
            cover: bounds,
            fork: 0,
            low: Tree::new(),
            high: Tree::new(),
        }
    }

    fn is_leaf(&self) -> bool
        ensures { result ≡ true → max self.now.low.height self.now.high.height ≡ 0 }
    {
        self.low.is_empty() && self.high.is_empty()
    }

    // The level of its fork once an entry that parts from its own at `parting` has come down from `level`.
    fn forked(&self, parting: u32, level: u32) -> u32
        requires fork { max self.now.low.height self.now.high.height + self.now.fork < 96 }
        requires level { max self.now.low.height self.now.high.height + level < 96 }
        ensures from { level ≤ result }
        ensures room { max self.now.low.height self.now.high.height + result < 96 }
    {
        if self.is_leaf() {
            parting.max(level).min(LEVELS - 1)
        } else {
            self.fork.max(level)
        }
    }
}

impl Tree {
    pub fn new() -> Tree
        ensures entries { result.entries ≡ [] }
        ensures height { result.height ≡ 0 }
    {
        Tree { link: Link::Empty }
    }

    // The least box that covers `bounds` and all boxes here.
    fn widened(&self, bounds: &BoundingBox) -> BoundingBox
        ensures first { IsWithin bounds.now result }
        ensures all { AllWithin result self.now.entries }
    {
        match &self.link {
            Link::Empty => *bounds,
            Link::Node(node) => node.cover.covering(bounds),
        }
    }

    // The size of the root's entry, 0 where there is none.
    fn top_size(&self) -> u32
        ensures { self.now.entries ≡ [] → result ≡ 0 }
    {
        match &self.link {
            Link::Empty => 0,
            Link::Node(node) => node.entry.size(),
        }
    }

    // The greatest ordinate that is covered.
    fn top(&self) -> i32 {
        match &self.link {
            Link::Empty => i32::MIN,
            Link::Node(node) => node.cover.greatest.y,
        }
    }

    // No box goes below the least ordinate of 32 bits.
    pub fn laws(&self)
        ensures { AllAbove (negsuc 2147483647) self.now.entries }
    {
        if let Link::Node(node) = &self.link {
            let _lowest = node.cover.least.y;
        }
    }

    fn is_empty(&self) -> bool
        ensures entries { result ≡ is_empty_list self.now.entries }
        ensures height { result ≡ true → self.now.height ≡ 0 }
    {
        match &self.link {
            Link::Empty => true,
            Link::Node(_) => false,
        }
    }

    // Takes the entry in, with a node for it. Where it would make the tree too high, the entry that finds no place is handed back.
    pub fn place(&mut self, spare: Box<Node>, entry: Entry, level: u32) -> Option<Entry>
        requires { self.old.height + level ≤ 96 }
        ensures entries { IsPlaced entry self.old.entries self.new.entries result }
        ensures height { self.new.height + level ≤ 96 }
    {
        let mut lower = entry;
        if self.sink(spare, &mut lower, level) {
            return None;
        }
        Some(lower)
    }

    // The same, and whether it found a place for all; else the entry that finds none is left in `entry`, which a level where the one that comes is
    // the smaller one doesn't touch.
    fn sink(&mut self, mut spare: Box<Node>, entry: &mut Entry, level: u32) -> bool
        requires { self.old.height + level ≤ 96 }
        ensures entries { IsPlaced entry.old self.old.entries self.new.entries (left_over result entry.new) }
        ensures height { self.new.height + level ≤ 96 }
    {
        if level >= LEVELS {
            return false;
        }
        match &mut self.link {
            Link::Empty => {
                *spare = Node {
                    entry: *entry,
                    cover: entry.bounds,
                    fork: LEVELS - 1,
                    low: Tree::new(),
                    high: Tree::new(),
                };
                self.link = Link::Node(spare);
                true
            }
            Link::Node(node) => {
                let node: &mut Node = node;
                let parting = node.entry.parting(entry);
                if level <= parting && parting < node.fork && !node.is_leaf() {
                    let is_high = node.entry.is_high(parting);
                    self.lift(spare, *entry, parting, is_high);
                    return true;
                }
                node.fork = node.forked(parting, level);
                node.cover = node.cover.covering(&entry.bounds);
                keep_larger(&mut node.entry, entry);
                if entry.is_high(node.fork) {
                    return node.high.sink(spare, entry, node.fork + 1);
                }
                node.low.sink(spare, entry, node.fork + 1)
            }
        }
    }

    // A fork above all that is here, with the entry at it, and what is here on one of its sides.
    fn lift(&mut self, mut spare: Box<Node>, entry: Entry, fork: u32, is_high: bool)
        requires { self.old.height + fork < 96 }
        ensures entries { IsPermutation (entry ∷ self.old.entries) self.new.entries }
        ensures height { self.new.height ≡ self.old.height + 1 }
    {
        let below = replace(self, Tree::new());
        let cover = below.widened(&entry.bounds);
        let (low, high) = if is_high {
            (Tree::new(), below)
        } else {
            (below, Tree::new())
        };
        *spare = Node {
            entry,
            cover,
            fork,
            low,
            high,
        };
        self.link = Link::Node(spare);
    }

    // Takes the root's entry out.
    fn pop(&mut self) -> Option<Entry>
        ensures entries { IsPopped self.old.entries self.new.entries result }
        ensures height { self.new.height ≤ self.old.height }
    {
        match &mut self.link {
            Link::Empty => return None,
            Link::Node(node) => {
                let node: &mut Node = node;
                let top = node.entry;
                if is_high_larger(&node.low, &node.high) {
                    if let Some(next) = node.high.pop() {
                        node.entry = next;
                        node.cover = cover_of(&next, &node.low, &node.high);
                        return Some(top);
                    }
                } else if let Some(next) = node.low.pop() {
                    node.entry = next;
                    node.cover = cover_of(&next, &node.low, &node.high);
                    return Some(top);
                }
                self.link = Link::Empty;
                return Some(top);
            }
        }
    }

    // Takes the entry out, and says whether it was there.
    pub fn remove(&mut self, entry: &Entry) -> bool
        ensures entries { IsRemoved entry.now self.old.entries self.new.entries result }
        ensures height { self.new.height ≤ self.old.height }
    {
        match &mut self.link {
            Link::Empty => return false,
            Link::Node(node) => {
                let node: &mut Node = node;
                if !node.entry.is(entry) {
                    if node.cover.is_exceeded(&entry.bounds) {
                        return false;
                    }
                    if entry.is_high(node.fork) {
                        if node.high.remove(entry) {
                            node.cover = cover_of(&node.entry, &node.low, &node.high);
                            return true;
                        }
                        if node.low.remove(entry) {
                            node.cover = cover_of(&node.entry, &node.low, &node.high);
                            return true;
                        }
                        return false;
                    }
                    if node.low.remove(entry) {
                        node.cover = cover_of(&node.entry, &node.low, &node.high);
                        return true;
                    }
                    if node.high.remove(entry) {
                        node.cover = cover_of(&node.entry, &node.low, &node.high);
                        return true;
                    }
                    return false;
                }
            }
        }
        self.pop();
        true
    }

    // Another entry stands at the node of an entry, and it says whether that was there. Where the new one would have gone down to tells of
    // time alone: what is looked for on one side is looked for on the other one too.
    pub fn replace(&mut self, old: &Entry, new: Entry) -> bool
        ensures entries { IsReplaced old.now new self.old.entries self.new.entries result }
        ensures height { self.new.height ≡ self.old.height }
    {
        match &mut self.link {
            Link::Empty => return false,
            Link::Node(node) => {
                let node: &mut Node = node;
                if !node.entry.is(old) {
                    if node.cover.is_exceeded(&old.bounds) {
                        return false;
                    }
                    if old.is_high(node.fork) {
                        if node.high.replace(old, new) {
                            node.cover = cover_of(&node.entry, &node.low, &node.high);
                            return true;
                        }
                        if node.low.replace(old, new) {
                            node.cover = cover_of(&node.entry, &node.low, &node.high);
                            return true;
                        }
                        return false;
                    }
                    if node.low.replace(old, new) {
                        node.cover = cover_of(&node.entry, &node.low, &node.high);
                        return true;
                    }
                    if node.high.replace(old, new) {
                        node.cover = cover_of(&node.entry, &node.low, &node.high);
                        return true;
                    }
                    return false;
                }
                node.entry = new;
                node.cover = cover_of(&new, &node.low, &node.high);
                return true;
            }
        }
    }

    // Adds the names of all entries whose box meets `area`, each once.
    pub fn find(&self, area: &BoundingBox, found: &mut Vec<usize>)
        requires { vec_len found.old + length self.now.entries ≤ vec_capacity found.old }
        ensures items { found.new.items ≡ found.old.items ++ names_meeting area.now self.now.entries }
        ensures len { vec_len found.new ≤ vec_len found.old + length self.now.entries }
        ensures capacity { vec_capacity found.new ≡ vec_capacity found.old }
    {
        if let Link::Node(node) = &self.link {
            let node: &Node = node;
            if !area.is_apart(&node.cover) {
                note(&node.entry, area, found);
                node.low.find(area, found);
                node.high.find(area, found);
            }
        }
    }

    // Shows the entries whose box meets `area` and isn't wholly below the visitor's floor, those of the side that reaches higher first.
    pub fn visit<V: Visitor>(&self, area: &BoundingBox, visitor: &mut V)
        requires ready { (k : _) × V.may_visit k visitor.old × AreKnown (V.knows k) area.now self.now.entries }
        ensures ready { (k : _) → V.may_visit k visitor.old → V.may_visit k visitor.new }
        ensures seen { AreSeen (V.has_seen visitor.new) area.now (V.floor_of visitor.new) self.now.entries }
        ensures still { (e : _) → V.has_seen visitor.old e → V.has_seen visitor.new e }
        ensures rises { V.floor_of visitor.old ≤ℤ V.floor_of visitor.new }
    {
        if let Link::Node(node) = &self.link {
            let node: &Node = node;
            if is_below_floor(&node.cover, visitor) {
                return;
            }
            if area.is_apart(&node.cover) {
                return;
            }
            show(&node.entry, area, visitor);
            if node.low.top() < node.high.top() {
                node.high.visit(area, visitor);
                node.low.visit(area, visitor);
            } else {
                node.low.visit(area, visitor);
                node.high.visit(area, visitor);
            }
        }
    }
}

// Whether the root's entry of the higher side is the larger one of the two.
fn is_high_larger(low: &Tree, high: &Tree) -> bool
    ensures low { result ≡ false → is_empty_list low.now.entries ≡ false }
    ensures high { result ≡ true → high.now.entries ≡ [] → low.now.entries ≡ [] }
{
    low.is_empty() || low.top_size() < high.top_size()
}

// A box that covers the entry and all of both sides.
fn cover_of(entry: &Entry, low: &Tree, high: &Tree) -> BoundingBox
    ensures { AllWithin result (entry.now ∷ low.now.entries ++ high.now.entries) }
{
    high.widened(&low.widened(&entry.bounds))
}

// The larger one of the two comes to the top.
fn keep_larger(top: &mut Entry, lower: &mut Entry)
    ensures { IsEither top.old lower.old (top.new, lower.new) }
{
    if top.size() < lower.size() {
        swap(top, lower);
    }
}
