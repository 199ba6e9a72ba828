ghost use Rattle.std.specs.Prelude.{◌≡◌, ◌≢◌, ◌↔◌, ◌==◌, ◌<◌, ◌≤◌, ◌⊎◌, suc, ◌+◌, ◌^◌, [], ◌∷◌, ◌++◌, length, not, Some, None, is_some, IsOk, OnOk};
ghost use Rattle.std.specs.List.{filter, IsDistinct};
ghost use Rattle.slab_laws.specs.Tables.{row_at, names, NamesAscend};
ghost use Rattle.slab_laws.specs.FaceLists.{first_of};
ghost use Rattle.chain_laws.specs.Links.{comes_after};
ghost use Rattle.linked_chains.specs.Chains.{chain, entry_at, HasNode, HasKey, IsWhole, SetsEntry, SetsBeside, SetsTwin, SameChains, IsSpare, put_after};

use crate::links::{set_after, set_before, set_head};
use crate::neighbour::Neighbour;
use crate::node::{Entry, Node};
use indexmap::IndexMap;
use no_memory::NoMemory;
use slab::Slab;
use std::alloc::Global;
use std::marker::Model;

/// Chains of nodes by key: doubly linked lists whose links are the names of nodes (Knuth, The Art of Computer Programming,
/// linear lists).
#[derive(Drop)]
pub struct Chains {
    heads: IndexMap<usize, Neighbour>,
    nodes: Slab<Node>,
}

impl Model for Chains {
    ghost use Rattle.linked_chains.specs.Chains.{Chained};

    ghost Value = { Chained };

    ghost use Rattle.linked_chains.specs.ChainsInMemory.{chained, AreSoundChains};

    ghost view = { λ c. chained c.heads c.nodes };

    ghost invariant = { λ c. AreSoundChains c.heads c.nodes };
}

impl Chains {
    /// No chains, without room.
    pub fn new(alloc: Global) -> Chains
        ensures heads { result.heads ≡ [] }
        ensures nodes { result.nodes ≡ [] }
        ensures keys { (k : _) → ¬ HasKey result k }
    {
        Chains {
            heads: IndexMap::new(alloc),
            nodes: Slab::new(alloc),
        }
    }

    /// What is true of all chains: each has the nodes with its key, each once, each node's key has a chain, neither keys nor
    /// names stand twice, and a `usize` counts the nodes of a chain and the room for more.
    pub fn laws(&self)
        ensures whole { (k : _) → IsWhole self.now k }
        ensures keys { (n : _) (e : _) → entry_at self.now n ≡ Some e → HasKey self.now e.key }
        ensures once { IsDistinct ◌==◌ (names self.now.heads) }
        ensures ascend { NamesAscend (names self.now.nodes) }
        ensures few { (k : _) → length (chain self.now k) < 2 ^ 64 }
        ensures spare { self.now.spare_nodes < 2 ^ 64 }
    {
        // Any use of a field tells what is kept; that keys stand once, the map tells with its length.
        let _keys = self.heads.len();
        let _capacity = self.nodes.capacity();
    }

    /// Makes room for so many keys and nodes more; the chains stay, whatever comes.
    pub fn reserve(&mut self, keys: usize, nodes: usize) -> Result<(), NoMemory>
        ensures keys { OnOk result (keys ≤ self.new.spare_keys) }
        ensures nodes { OnOk result (nodes ≤ self.new.spare_nodes) }
        ensures succeeds { keys ≤ self.old.spare_keys → nodes ≤ self.old.spare_nodes → IsOk result }
        ensures heads_stay { self.new.heads ≡ self.old.heads }
        ensures nodes_stay { self.new.nodes ≡ self.old.nodes }
        ensures keeps_keys { self.old.spare_keys ≤ self.new.spare_keys }
        ensures keeps_nodes { self.old.spare_nodes ≤ self.new.spare_nodes }
    {
        // There is never less room than the nodes take.
        let _capacity = self.nodes.capacity();
        self.heads.reserve(keys)?;
        self.nodes.reserve(nodes)?;
        Ok(())
    }

    /// How many keys have a chain.
    pub fn count_keys(&self) -> usize
        ensures { result ≡ length self.now.heads }
    {
        self.heads.len()
    }

    /// Whether the key has a chain, which may be empty.
    pub fn has_key(&self, key: usize) -> bool
        ensures { result ≡ is_some (row_at self.now.heads key) }
    {
        self.heads.contains_key(&key)
    }

    /// An empty chain for a new key, in room that is there.
    pub fn add_key(&mut self, key: usize)
        requires new { ¬ HasKey self.old key }
        requires room { 1 ≤ self.old.spare_keys }
        ensures heads { self.new.heads ≡ self.old.heads ++ (key, None) ∷ [] }
        ensures keys { (k : _) → HasKey self.new k ↔ (HasKey self.old k ⊎ (k ≡ key)) }
        ensures empty { chain self.new key ≡ [] }
        ensures others { (k : _) → chain self.new k ≡ chain self.old k }
        ensures nodes { self.new.nodes ≡ self.old.nodes }
        ensures spare_keys { self.old.spare_keys ≤ self.new.spare_keys + 1 }
        ensures spare_nodes { self.new.spare_nodes ≡ self.old.spare_nodes }
        ensures capacity { self.new.capacity_of_nodes ≡ self.old.capacity_of_nodes }
    {
        self.heads.insert(key, Neighbour::none()).unwrap();
    }

    /// An empty chain goes. The map may keep its place taken, so this promises no more room than before.
    pub fn remove_key(&mut self, key: usize)
        requires has { HasKey self.old key }
        requires empty { chain self.old key ≡ [] }
        ensures keys { (k : _) → HasKey self.new k ↔ (HasKey self.old k × (k ≢ key)) }
        ensures count { length self.old.heads ≡ suc (length self.new.heads) }
        ensures chains { (k : _) → chain self.new k ≡ chain self.old k }
        ensures nodes { self.new.nodes ≡ self.old.nodes }
        ensures spare { IsSpare self.old self.new 0 0 }
    {
        self.heads.swap_remove(&key);
    }

    /// A chain for a new key, with its first node, in room that is there.
    pub fn start(&mut self, key: usize, item: usize, twin: usize) -> usize
        requires new { ¬ HasKey self.old key }
        requires room_for_key { 1 ≤ self.old.spare_keys }
        requires room { 1 ≤ self.old.spare_nodes }
        ensures name { ¬ HasNode self.old result }
        ensures entries { SetsEntry self.old self.new result (Some (record { key = key; item = item; twin = twin })) }
        ensures here { chain self.new key ≡ result ∷ chain self.old key }
        ensures others { (k : _) → k ≢ key → chain self.new k ≡ chain self.old k }
        ensures keys { (k : _) → HasKey self.new k → HasKey self.old k ⊎ (k ≡ key) }
        ensures keeps { (k : _) → HasKey self.old k → HasKey self.new k }
        ensures spare_keys { self.old.spare_keys ≤ self.new.spare_keys + 1 }
        ensures spare_nodes { self.old.spare_nodes ≡ self.new.spare_nodes + 1 }
        ensures capacity { self.new.capacity_of_nodes ≡ self.old.capacity_of_nodes }
    {
        // A name is below what fits, which is a number.
        let _capacity = self.nodes.capacity();
        let nobody = Neighbour::none();
        let node = self.nodes.insert_reserved(Node {
            entry: Entry { key, item, twin },
            before: nobody,
            after: nobody,
        });
        self.heads.insert(key, Neighbour::some(node)).unwrap();
        node
    }

    /// A node more, the first in the chain of the key, in room that is there.
    pub fn push(&mut self, key: usize, item: usize, twin: usize) -> usize
        requires has { HasKey self.old key }
        requires room { 1 ≤ self.old.spare_nodes }
        ensures name { ¬ HasNode self.old result }
        ensures entries { SetsEntry self.old self.new result (Some (record { key = key; item = item; twin = twin })) }
        ensures here { chain self.new key ≡ result ∷ chain self.old key }
        ensures others { (k : _) → k ≢ key → chain self.new k ≡ chain self.old k }
        ensures keys { (k : _) → HasKey self.old k ↔ HasKey self.new k }
        ensures count { length self.new.heads ≡ length self.old.heads }
        ensures spare { IsSpare self.new self.old 0 1 }
        ensures keeps_keys { self.old.spare_keys ≤ self.new.spare_keys }
    {
        // A name is below what fits, which is a number.
        let _capacity = self.nodes.capacity();
        // One question for the head serves both to read it and to write it.
        let head = self.heads.get_mut(&key).unwrap();
        let first = *head;
        let node = self.nodes.insert_reserved(Node {
            entry: Entry { key, item, twin },
            before: Neighbour::none(),
            after: first,
        });
        let here = Neighbour::some(node);
        set_before(&mut self.nodes, first, here);
        *head = here;
        node
    }

    /// A node more, directly after another one in its chain, in room that is there.
    pub fn push_after(&mut self, node: usize, item: usize, twin: usize) -> usize
        requires has { HasNode self.old node }
        requires room { 1 ≤ self.old.spare_nodes }
        ensures name { ¬ HasNode self.old result }
        ensures entries { SetsBeside self.old self.new node result item twin }
        ensures chains { (k : _) → chain self.new k ≡ put_after node result (chain self.old k) }
        ensures keys { (k : _) → HasKey self.old k ↔ HasKey self.new k }
        ensures count { length self.new.heads ≡ length self.old.heads }
        ensures spare { IsSpare self.new self.old 0 1 }
        ensures keeps_keys { self.old.spare_keys ≤ self.new.spare_keys }
    {
        // A name is below what fits, which is a number.
        let _capacity = self.nodes.capacity();
        let place = self.nodes[node];
        let before = Neighbour::some(node);
        let added = self.nodes.insert_reserved(Node {
            entry: Entry {
                key: place.entry.key,
                item,
                twin,
            },
            before,
            after: place.after,
        });
        let here = Neighbour::some(added);
        set_before(&mut self.nodes, place.after, here);
        set_after(&mut self.nodes, before, here);
        added
    }

    /// A node fewer.
    pub fn remove(&mut self, node: usize)
        requires { HasNode self.old node }
        ensures entries { SetsEntry self.old self.new node None }
        ensures chains { (k : _) → chain self.new k ≡ filter (λ n. not (n == node)) (chain self.old k) }
        ensures keys { (k : _) → HasKey self.old k ↔ HasKey self.new k }
        ensures count { length self.new.heads ≡ length self.old.heads }
        ensures spare { IsSpare self.old self.new 0 1 }
    {
        let gone = self.nodes.remove(node);
        set_after(&mut self.nodes, gone.before, gone.after);
        set_before(&mut self.nodes, gone.after, gone.before);
        set_head(
            &mut self.heads,
            gone.entry.key,
            gone.before.name(),
            gone.after,
        );
    }

    /// The node has another twin.
    pub fn set_twin(&mut self, node: usize, twin: usize)
        requires { HasNode self.old node }
        ensures entries { SetsTwin self.old self.new node twin }
        ensures chains { SameChains self.old self.new }
        ensures count { length self.new.heads ≡ length self.old.heads }
        ensures spare { IsSpare self.old self.new 0 0 }
    {
        self.nodes[node].entry.twin = twin;
    }

    /// What the node says.
    pub fn entry(&self, node: usize) -> Entry
        requires { HasNode self.now node }
        ensures { entry_at self.now node ≡ Some result }
    {
        self.nodes[node].entry
    }

    /// The first node in the chain of the key; `None` also for a key without one.
    pub fn first(&self, key: usize) -> Option<usize>
        ensures { result ≡ first_of (chain self.now key) }
    {
        match self.heads.get(&key) {
            Some(first) => first.name(),
            None => None,
        }
    }

    /// The node after this one in its chain.
    pub fn after(&self, node: usize) -> Option<usize>
        requires { HasNode self.now node }
        ensures { (e : _) → entry_at self.now node ≡ Some e → result ≡ comes_after (chain self.now e.key) node }
    {
        self.nodes[node].after.name()
    }

    /// All chains go; their room stays.
    pub fn clear(&mut self)
        ensures nodes { self.new.nodes ≡ [] }
        ensures heads { self.new.heads ≡ [] }
        ensures keys { self.old.spare_keys ≤ self.new.spare_keys }
        ensures room { self.old.spare_nodes ≤ self.new.spare_nodes }
        ensures capacity { self.new.capacity_of_nodes ≡ self.old.capacity_of_nodes }
    {
        self.heads.clear();
        self.nodes.clear();
    }
}
