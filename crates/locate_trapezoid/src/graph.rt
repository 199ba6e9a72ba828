ghost use Rattle.std.specs.Prelude.{◌≡◌, ◌<◌, ◌++◌, ◌∷◌, [], length, IfOk, OnOk};
ghost use Rattle.locate_trapezoid.specs.declared.node.Slot.TheVariants.{Child};
ghost use Rattle.locate_trapezoid.specs.Graphs.{arena_of};
ghost use Rattle.locate_trapezoid.specs.Nodes.{child_at, linked, node_at, IsDepth, IsGrown, IsLeaf, IsTree};

use crate::node::{Node, Slot, Test};
use no_memory::NoMemory;

/// A search graph, and how many nodes are on its longest way.
#[derive(Drop)]
pub struct SearchGraph {
    pub nodes: Vec<Node>,
    pub depth: usize,
}

impl SearchGraph {
    /// Its nodes, by number.
    pub fn nodes(&self) -> &[Node]
        ensures { result.now ≡ self.now.nodes.items }
    {
        &self.nodes
    }
}

/// A place where nothing hangs, so many nodes below the root.
#[derive(Clone, Copy)]
pub struct Leaf {
    pub slot: Slot,
    pub level: usize,
}

/// The node of a number.
pub fn node(nodes: &[Node], number: usize) -> Node
    requires { number < length nodes.now }
    ensures { result ≡ node_at nodes.now number }
{
    nodes[number]
}

/// What hangs at a place.
pub fn child(nodes: &[Node], slot: Slot) -> Option<usize>
    ensures { result ≡ child_at nodes.now slot }
{
    match slot {
        Slot::Root => { if nodes.is_empty() { None } else { Some(0) } }
        Slot::Child(number, is_more) => {
            if number < nodes.len() {
                node(nodes, number).child(is_more)
            } else {
                None
            }
        }
    }
}

// Has a place tell which node hangs there; at the root the first one does.
fn link(nodes: &mut Vec<Node>, slot: Slot, number: usize)
    requires { (i : _) (b : _) → slot ≡ Child i b → i < length nodes.old.items }
    ensures { nodes.new.items ≡ linked nodes.old.items slot number }
{
    if let Slot::Child(parent, is_more) = slot {
        nodes[parent] = node(nodes, parent).with_child(is_more, number);
    }
}

/// One more node, where nothing hung before, and the place at it on one side.
///
/// # Errors
///
/// There was no memory. Nothing has changed.
pub fn hang(
    graph: &mut SearchGraph,
    leaf: Leaf,
    test: Test,
    is_more: bool,
) -> Result<Leaf, NoMemory>
    requires tree { IsTree (arena_of graph.old) }
    requires depth { IsDepth (arena_of graph.old) graph.old.depth }
    requires leaf { IsLeaf (arena_of graph.old) leaf }
    ensures grown { OnOk result (IsGrown (arena_of graph.old) leaf.slot test (arena_of graph.new)) }
    ensures tree { OnOk result (IsTree (arena_of graph.new)) }
    ensures depth { OnOk result (IsDepth (arena_of graph.new) graph.new.depth) }
    ensures slot { IfOk result (λ l. l.slot ≡ Child (length graph.old.nodes.items) is_more) }
    ensures leaf { IfOk result (IsLeaf (arena_of graph.new)) }
{
    let number = graph.nodes.len();
    graph.nodes.push(Node::new(test))?;
    link(&mut graph.nodes, leaf.slot, number);
    let level = leaf.level + 1;
    graph.depth = graph.depth.max(level);
    Ok(Leaf {
        slot: Slot::Child(number, is_more),
        level,
    })
}
