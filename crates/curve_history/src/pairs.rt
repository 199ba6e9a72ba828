ghost use Rattle.std.specs.Prelude.{◌≡◌, ◌≢◌, ◌⊎◌, ◌≤◌, ◌+◌, ◌∷◌, [], Some, None};
ghost use Rattle.linked_chains.specs.Chains.{chain, put_at, HasKey, HasNode, SetsEntry};
ghost use Rattle.curve_history.specs.Changed.{AreSameKeys, IsOfCurve, IsOfEdge, IsPairMore, IsPutAt, LosesPairOf};
ghost use Rattle.curve_history.specs.HistoryInMemory.{entry, pair_room, AreOrdered, ArePairs, AreFilled, Says};
ghost use Rattle.edit_steps.specs.EditLaws.{curve_of as curve_number};

use crate::strands::curve_of;
use linked_chains::Chains;

// A node more, the first in the chain of an edge, which may have none yet, in room that is there.
fn push_first(edges: &mut Chains, edge: usize, strand: usize) -> usize
    requires room_for_key { 1 ≤ edges.old.spare_keys }
    requires room { 1 ≤ edges.old.spare_nodes }
    ensures name { ¬ HasNode edges.old result }
    ensures entries { SetsEntry edges.old edges.new result (Some (entry edge strand 0)) }
    ensures here { chain edges.new edge ≡ result ∷ chain edges.old edge }
    ensures others { (k : _) → k ≢ edge → chain edges.new k ≡ chain edges.old k }
    ensures keys { (k : _) → HasKey edges.new k → HasKey edges.old k ⊎ (k ≡ edge) }
    ensures spare_keys { edges.old.spare_keys ≤ edges.new.spare_keys + 1 }
    ensures spare_nodes { edges.old.spare_nodes ≡ edges.new.spare_nodes + 1 }
{
    if edges.has_key(edge) {
        edges.push(edge, strand, 0)
    } else {
        edges.start(edge, strand, 0)
    }
}

// A node more in the chain of an edge, directly after another one, or the first of an edge that has no chain, in room that is
// there.
fn push_next(edges: &mut Chains, edge: usize, strand: usize, last: Option<usize>) -> usize
    requires place { IsOfEdge edges.old edge last }
    requires first { last ≡ None → ¬ HasKey edges.old edge }
    requires room_for_key { 1 ≤ edges.old.spare_keys }
    requires room { 1 ≤ edges.old.spare_nodes }
    ensures name { ¬ HasNode edges.old result }
    ensures entries { SetsEntry edges.old edges.new result (Some (entry edge strand 0)) }
    ensures here { chain edges.new edge ≡ put_at last result (chain edges.old edge) }
    ensures others { (k : _) → k ≢ edge → chain edges.new k ≡ chain edges.old k }
    ensures keys { (k : _) → HasKey edges.new k → HasKey edges.old k ⊎ (k ≡ edge) }
    ensures spare_keys { edges.old.spare_keys ≤ edges.new.spare_keys + 1 }
    ensures spare_nodes { edges.old.spare_nodes ≡ edges.new.spare_nodes + 1 }
{
    // The nodes of the edge's chain have its key.
    edges.laws();
    match last {
        Some(last) => edges.push_after(last, strand, 0),
        None => edges.start(edge, strand, 0),
    }
}

// A node more in the chain of an edge, first or directly after another one, in room that is there.
fn push_at(edges: &mut Chains, edge: usize, strand: usize, last: Option<usize>) -> usize
    requires place { IsOfEdge edges.old edge last }
    requires room_for_key { 1 ≤ edges.old.spare_keys }
    requires room { 1 ≤ edges.old.spare_nodes }
    ensures name { ¬ HasNode edges.old result }
    ensures entries { SetsEntry edges.old edges.new result (Some (entry edge strand 0)) }
    ensures here { chain edges.new edge ≡ put_at last result (chain edges.old edge) }
    ensures others { (k : _) → k ≢ edge → chain edges.new k ≡ chain edges.old k }
    ensures keys { (k : _) → HasKey edges.new k → HasKey edges.old k ⊎ (k ≡ edge) }
    ensures spare_keys { edges.old.spare_keys ≤ edges.new.spare_keys + 1 }
    ensures spare_nodes { edges.old.spare_nodes ≡ edges.new.spare_nodes + 1 }
{
    match last {
        Some(_) => push_next(edges, edge, strand, last),
        None => push_first(edges, edge, strand),
    }
}

/// A pair more, in room that is there; its node is the first in the chain of the edge, or comes directly after another one.
pub(crate) fn hold_after(
    edges: &mut Chains,
    curves: &mut Chains,
    edge: usize,
    strand: usize,
    last: Option<usize>,
) -> usize
    requires pairs { ArePairs edges.old curves.old }
    requires named { HasKey curves.old (curve_number strand) }
    requires new { ¬ Says edges.old edge strand }
    requires place { IsOfEdge edges.old edge last }
    requires room { 1 ≤ pair_room edges.old curves.old }
    ensures pairs { ArePairs edges.new curves.new }
    ensures more { IsPairMore edges.old edges.new edge strand }
    ensures put { IsPutAt edges.old edges.new edge strand last result }
    ensures named { AreSameKeys curves.old curves.new }
    ensures room { pair_room edges.old curves.old ≤ pair_room edges.new curves.new + 1 }
{
    // The nodes of the edge's chain are old ones.
    edges.laws();
    let node = push_at(edges, edge, strand, last);
    let twin = curves.push(curve_of(strand), edge, node);
    edges.set_twin(node, twin);
    node
}

/// A pair more, in room that is there; its node comes directly after another one in the chain of its edge, or is the first of an
/// edge that has no chain, and its twin comes directly after a node of its curve. So no curve is looked for, and an edge once.
pub(crate) fn hold_beside(
    edges: &mut Chains,
    curves: &mut Chains,
    edge: usize,
    strand: usize,
    last: Option<usize>,
    near: usize,
) -> usize
    requires pairs { ArePairs edges.old curves.old }
    requires near { IsOfCurve curves.old (curve_number strand) near }
    requires new { ¬ Says edges.old edge strand }
    requires place { IsOfEdge edges.old edge last }
    requires first { last ≡ None → ¬ HasKey edges.old edge }
    requires room { 1 ≤ pair_room edges.old curves.old }
    ensures pairs { ArePairs edges.new curves.new }
    ensures more { IsPairMore edges.old edges.new edge strand }
    ensures put { IsPutAt edges.old edges.new edge strand last result }
    ensures named { AreSameKeys curves.old curves.new }
    ensures room { pair_room edges.old curves.old ≤ pair_room edges.new curves.new + 1 }
{
    // The nodes of the edge's chain are old ones.
    edges.laws();
    let node = push_next(edges, edge, strand, last);
    let twin = curves.push_after(near, edge, node);
    edges.set_twin(node, twin);
    node
}

/// A pair fewer, that of a node.
pub(crate) fn release_pair(edges: &mut Chains, curves: &mut Chains, node: usize)
    requires has { HasNode edges.old node }
    requires pairs { ArePairs edges.old curves.old }
    requires ordered { AreOrdered edges.old }
    ensures pairs { ArePairs edges.new curves.new }
    ensures ordered { AreOrdered edges.new }
    ensures less { LosesPairOf edges.old edges.new node }
    ensures named { AreSameKeys curves.old curves.new }
    ensures capacity { edges.new.capacity_of_nodes ≡ edges.old.capacity_of_nodes }
    ensures room { pair_room edges.old curves.old ≤ pair_room edges.new curves.new }
{
    let twin = edges.entry(node).twin;
    edges.remove(node);
    curves.remove(twin);
}

// An edge without nodes has no chain then.
fn drop_key(edges: &mut Chains, edge: usize)
    requires { chain edges.old edge ≡ [] }
    ensures keys { (k : _) → HasKey edges.new k → HasKey edges.old k × (k ≢ edge) }
    ensures nodes { edges.new.nodes ≡ edges.old.nodes }
    ensures chains { (k : _) → chain edges.new k ≡ chain edges.old k }
    ensures spare_keys { edges.old.spare_keys ≤ edges.new.spare_keys }
    ensures spare_nodes { edges.new.spare_nodes ≡ edges.old.spare_nodes }
    ensures capacity { edges.new.capacity_of_nodes ≡ edges.old.capacity_of_nodes }
{
    if edges.has_key(edge) {
        edges.remove_key(edge);
    }
}

/// An edge that may have lost its last curve has no chain then.
pub(crate) fn tidy(edges: &mut Chains, edge: usize)
    requires { (k : _) → k ≢ edge → HasKey edges.old k → (i : _) × Says edges.old k i }
    ensures filled { AreFilled edges.new }
    ensures nodes { edges.new.nodes ≡ edges.old.nodes }
    ensures chains { (k : _) → chain edges.new k ≡ chain edges.old k }
    ensures spare_keys { edges.old.spare_keys ≤ edges.new.spare_keys }
    ensures spare_nodes { edges.new.spare_nodes ≡ edges.old.spare_nodes }
    ensures capacity { edges.new.capacity_of_nodes ≡ edges.old.capacity_of_nodes }
{
    edges.laws();
    if edges.first(edge).is_none() {
        drop_key(edges, edge);
    }
}
