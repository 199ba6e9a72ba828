//! Writes of single links: a node's neighbours, and the first node of a chain.
ghost use Rattle.std.specs.Prelude.{◌≡◌, Some, IsSome};
ghost use Rattle.slab.specs.Slab.{ContainsKey};
ghost use Rattle.slab_laws.specs.Tables.{row_at};
ghost use Rattle.chain_laws.specs.Rows.{IsChanged};
ghost use Rattle.linked_chains.specs.Writes.{row_followed, row_led, IsHeaded};

use crate::neighbour::Neighbour;
use crate::node::Node;
use indexmap::IndexMap;
use slab::Slab;

// The node, if there is one, has this one after it.
pub(crate) fn set_after(nodes: &mut Slab<Node>, node: Neighbour, after: Neighbour)
    requires { (n : _) → node ≡ Some n → ContainsKey nodes.old n }
    ensures { IsChanged (row_followed after) node nodes.old nodes.new }
{
    if let Some(node) = node.name() {
        nodes[node].after = after;
    }
}

// The node, if there is one, has this one before it.
pub(crate) fn set_before(nodes: &mut Slab<Node>, node: Neighbour, before: Neighbour)
    requires { (n : _) → node ≡ Some n → ContainsKey nodes.old n }
    ensures { IsChanged (row_led before) node nodes.old nodes.new }
{
    if let Some(node) = node.name() {
        nodes[node].before = before;
    }
}

/// The chain of the key has this first node, unless a node is before it.
pub fn set_head<V: Copy>(
    heads: &mut IndexMap<usize, V>,
    key: usize,
    before: Option<usize>,
    first: V,
)
    requires { IsSome (row_at heads.old.entries key) }
    ensures { IsHeaded key before first heads.old heads.new }
{
    if before.is_none() {
        *heads.get_mut(&key).unwrap() = first;
    }
}
