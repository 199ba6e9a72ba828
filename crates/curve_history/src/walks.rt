ghost use Rattle.std.specs.Prelude.{◌≡◌, ◌≢◌, ◌<◌, ◌≤◌, ◌+◌, ◌^◌, true, false, Some, IfOk, IfSome, IfNone, length, map};
ghost use Rattle.linked_chains.specs.Chains.{chain, entry_at, HasKey};
ghost use Rattle.curve_history.specs.Changed.{AreSameKeys, IsCopied, IsEmptied, IsLastAbove, IsOneLess, IsPairMore, AreSidesLess};
ghost use Rattle.curve_history.specs.HistoryInMemory.{entry, items_along, pair_room, AreOrdered, ArePairs, Says};
ghost use Rattle.edit_steps.specs.EditLaws.{curve_of as curve_number};

use crate::pairs::{hold_after, hold_beside, release_pair};
use crate::strands::curve_of;
use linked_chains::Chains;
use no_memory::NoMemory;
use slab_laws::{CurveId, DartId};
use std::alloc::Global;

// A node that says an edge and a side of a curve. The chain of the edge and that of the curve are walked side by side, until one
// of them has it or ends: many curves run along an edge, or a curve along many edges, but both are rare together.
fn find(edges: &Chains, curves: &Chains, edge: usize, curve: usize) -> Option<usize>
    requires pairs { ArePairs edges.now curves.now }
    ensures some { IfSome result (λ n. (i : _) × (t : _) × (curve_number i ≡ curve) × (entry_at edges.now n ≡ Some (entry edge i t))) }
    ensures none { IfNone result ((i : _) → Says edges.now edge i → curve_number i ≢ curve) }
{
    edges.laws();
    curves.laws();
    let mut at = edges.first(edge);
    let mut beside = curves.first(curve);
    'walk: while let Some(node) = at {
        if curve_of(edges.entry(node).item) == curve {
            return Some(node);
        }
        let Some(near) = beside else {
            return None;
        };
        let said = curves.entry(near);
        if said.item == edge {
            return Some(said.twin);
        }
        at = edges.after(node);
        beside = curves.after(near);
    }
    None
}

/// The node that says an edge and a side.
pub(crate) fn find_strand(edges: &Chains, edge: usize, strand: usize) -> Option<usize>
    ensures some { IfSome result (λ n. (t : _) × (entry_at edges.now n ≡ Some (entry edge strand t))) }
    ensures none { IfNone result (¬ Says edges.now edge strand) }
{
    edges.laws();
    let mut at = edges.first(edge);
    'walk: while let Some(node) = at {
        if edges.entry(node).item == strand {
            return Some(node);
        }
        at = edges.after(node);
    }
    None
}

// The last node of an edge that says a greater side than this one; mostly there is none, and the first node tells it.
fn last_above(edges: &Chains, edge: usize, strand: usize) -> Option<usize>
    ensures { IsLastAbove edges.now edge strand result }
{
    edges.laws();
    let mut last = None;
    let mut at = edges.first(edge);
    'walk: while let Some(node) = at {
        if edges.entry(node).item <= strand {
            return last;
        }
        last = Some(node);
        at = edges.after(node);
    }
    last
}

/// Whether the chains of two edges say the same sides of curves, walked side by side.
pub(crate) fn says_same(edges: &Chains, edge: usize, other: usize) -> bool
    ensures same { result ≡ true → items_along edges.now edge ≡ items_along edges.now other }
    ensures differ { result ≡ false → items_along edges.now edge ≢ items_along edges.now other }
{
    edges.laws();
    let mut at = edges.first(edge);
    let mut beside = edges.first(other);
    'walk: while let Some(node) = at {
        let Some(near) = beside else {
            return false;
        };
        let strand = edges.entry(node).item;
        if edges.entry(near).item != strand {
            return false;
        }
        at = edges.after(node);
        beside = edges.after(near);
    }
    beside.is_none()
}

/// How many sides of curves run along an edge.
pub(crate) fn count_along(edges: &Chains, edge: usize) -> usize
    ensures { result ≡ length (chain edges.now edge) }
{
    // A `usize` counts the nodes of a chain.
    edges.laws();
    let mut count = 0;
    let mut at = edges.first(edge);
    'walk: while let Some(node) = at {
        count += 1;
        at = edges.after(node);
    }
    count
}

/// A pair more, in room that is there. Its node gets its place in the order of the edge's chain.
pub(crate) fn hold_pair(edges: &mut Chains, curves: &mut Chains, edge: usize, strand: usize)
    requires pairs { ArePairs edges.old curves.old }
    requires ordered { AreOrdered edges.old }
    requires named { HasKey curves.old (curve_number strand) }
    requires new { ¬ Says edges.old edge strand }
    requires room { 1 ≤ pair_room edges.old curves.old }
    ensures pairs { ArePairs edges.new curves.new }
    ensures ordered { AreOrdered edges.new }
    ensures more { IsPairMore edges.old edges.new edge strand }
    ensures named { AreSameKeys curves.old curves.new }
    ensures room { pair_room edges.old curves.old ≤ pair_room edges.new curves.new + 1 }
{
    edges.laws();
    let last = last_above(edges, edge, strand);
    hold_after(edges, curves, edge, strand, last);
}

/// One pair fewer.
pub(crate) fn release_one(edges: &mut Chains, curves: &mut Chains, edge: usize, strand: usize)
    requires pairs { ArePairs edges.old curves.old }
    requires ordered { AreOrdered edges.old }
    ensures pairs { ArePairs edges.new curves.new }
    ensures ordered { AreOrdered edges.new }
    ensures less { IsOneLess edges.old edges.new edge strand }
    ensures named { AreSameKeys curves.old curves.new }
    ensures capacity { edges.new.capacity_of_nodes ≡ edges.old.capacity_of_nodes }
    ensures room { pair_room edges.old curves.old ≤ pair_room edges.new curves.new }
{
    if let Some(node) = find_strand(edges, edge, strand) {
        release_pair(edges, curves, node);
    }
}

/// No pair is left of an edge and a side of a curve.
pub(crate) fn release_curve(edges: &mut Chains, curves: &mut Chains, edge: usize, curve: usize)
    requires pairs { ArePairs edges.old curves.old }
    requires ordered { AreOrdered edges.old }
    ensures pairs { ArePairs edges.new curves.new }
    ensures ordered { AreOrdered edges.new }
    ensures less { AreSidesLess edges.old edges.new edge curve }
    ensures gone { (i : _) → Says edges.new edge i → curve_number i ≢ curve }
    ensures named { AreSameKeys curves.old curves.new }
    ensures capacity { edges.new.capacity_of_nodes ≡ edges.old.capacity_of_nodes }
    ensures room { pair_room edges.old curves.old ≤ pair_room edges.new curves.new }
{
    'each: while let Some(node) = find(edges, curves, edge, curve) {
        edges.laws();
        release_pair(edges, curves, node);
    }
}

/// No pair is left of an edge.
pub(crate) fn release_each(edges: &mut Chains, curves: &mut Chains, edge: usize)
    requires pairs { ArePairs edges.old curves.old }
    requires ordered { AreOrdered edges.old }
    ensures pairs { ArePairs edges.new curves.new }
    ensures ordered { AreOrdered edges.new }
    ensures none { (i : _) → ¬ Says edges.new edge i }
    ensures less { IsEmptied edges.old edges.new edge }
    ensures named { AreSameKeys curves.old curves.new }
    ensures capacity { edges.new.capacity_of_nodes ≡ edges.old.capacity_of_nodes }
    ensures room { pair_room edges.old curves.old ≤ pair_room edges.new curves.new }
{
    'each: while let Some(node) = edges.first(edge) {
        edges.laws();
        release_pair(edges, curves, node);
    }
    edges.laws();
}

/// Another edge, which has no curves, gets those of an edge, in their order and in room that is there.
pub(crate) fn copy_pairs(edges: &mut Chains, curves: &mut Chains, edge: usize, part: usize)
    requires pairs { ArePairs edges.old curves.old }
    requires ordered { AreOrdered edges.old }
    requires two { edge ≢ part }
    requires new { (i : _) → ¬ Says edges.old part i }
    requires bare { ¬ HasKey edges.old part }
    requires room { length (chain edges.old edge) ≤ pair_room edges.old curves.old }
    ensures pairs { ArePairs edges.new curves.new }
    ensures ordered { AreOrdered edges.new }
    ensures copied { IsCopied edges.old edges.new edge part }
    ensures named { AreSameKeys curves.old curves.new }
    ensures room { pair_room edges.old curves.old ≤ pair_room edges.new curves.new + length (chain edges.old edge) }
{
    edges.laws();
    // The last node that was put: the copies stand as the nodes do, and their twins beside those of the nodes.
    let mut last = None;
    let mut at = edges.first(edge);
    'walk: while let Some(node) = at {
        let said = edges.entry(node);
        last = Some(hold_beside(edges, curves, part, said.item, last, said.twin));
        at = edges.after(node);
    }
}

/// The curves of the sides along an edge, in the order of its chain.
pub(crate) fn curves_along(
    edges: &Chains,
    alloc: Global,
    edge: usize,
) -> Result<Vec<CurveId>, NoMemory>
    requires { (i : _) → Says edges.now edge i → curve_number i < 2 ^ 32 }
    ensures { IfOk result (λ v. map (λ c. c.0) v.items ≡ map curve_number (items_along edges.now edge)) }
{
    edges.laws();
    let mut curves = Vec::new(alloc);
    let mut at = edges.first(edge);
    'walk: while let Some(node) = at {
        curves.push(CurveId(curve_of(edges.entry(node).item) as u32))?;
        at = edges.after(node);
    }
    Ok(curves)
}

/// The edges along which the sides of a curve run, in the order of its chain.
pub(crate) fn edges_along(
    curves: &Chains,
    alloc: Global,
    curve: usize,
) -> Result<Vec<DartId>, NoMemory>
    ensures { IfOk result (λ v. map (λ d. d.0) v.items ≡ items_along curves.now curve) }
{
    curves.laws();
    let mut edges = Vec::new(alloc);
    let mut at = curves.first(curve);
    'walk: while let Some(node) = at {
        edges.push(DartId(curves.entry(node).item))?;
        at = curves.after(node);
    }
    Ok(edges)
}
