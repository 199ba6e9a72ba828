ghost use Rattle.std.specs.Prelude.{◌≡◌, ◌<◌, ◌+◌, ◌||◌, not, length, Some};
ghost use Rattle.slab_laws.specs.Skeleton.{precedes as comes_before};
ghost use Rattle.slab_laws.specs.Sound.{IsGraphSound};
ghost use Rattle.slab_laws.specs.SpansDrawn.{edge_of};
ghost use Rattle.slab_laws.specs.View.{View, point_in};
ghost use Rattle.locate_trapezoid.specs.declared.node.Slot.TheVariants.{Child};
ghost use Rattle.locate_trapezoid.specs.declared.node.Test.TheVariants.{Vertex};
ghost use Rattle.locate_trapezoid.specs.Counted.{IsTest};
ghost use Rattle.locate_trapezoid.specs.Descents.{bound_of, rest_of, IsDescent, IsStepDown};
ghost use Rattle.locate_trapezoid.specs.Graphs.{AreNamed};
ghost use Rattle.locate_trapezoid.specs.Nodes.{arena, IsLeaf, IsTree};

use crate::above::is_above_edge;
use crate::graph::{Leaf, child, node};
use crate::node::{Node, Slot, Test};
use dcel_records::Records;
use edge_predicates::precedes;
use exact_plane::{Point, Span};
use slab_laws::Darts;

/// Where an edge's way down has come.
#[derive(Clone, Copy)]
pub struct Descent {
    pub leaf: Leaf,
    /// Whether the edge's lower end, or a later point, was passed.
    pub is_lowered: bool,
    /// The least vertex before which the way turned off, up to the edge's upper end.
    pub bound: Option<Point>,
}

// Whether a point is beyond what bounds the edge's way.
fn is_beyond(span: &Span, bound: Option<Point>, point: &Point) -> bool
    ensures { result ≡ comes_before (bound_of (edge_of span.now) bound) point.now }
{
    match bound {
        Some(last) => precedes(&last, point),
        None => precedes(&span.upper(), point),
    }
}

// Whether the edge's lower end was passed, also at this point.
fn is_lowered(span: &Span, before: bool, point: &Point) -> bool
    ensures { result ≡ (before || not (comes_before point.now (edge_of span.now).low)) }
{
    before || !precedes(point, &span.lower())
}

// On at a node that asks for a vertex.
fn pass_vertex(
    span: &Span,
    from: &Point,
    point: Point,
    number: usize,
    last: Descent,
    level: usize,
) -> Descent
    ensures child { (b : _) × (result.leaf.slot ≡ Child number b) }
    ensures level { result.leaf.level ≡ level }
    ensures descent { (v : View) (w : _) → point_in v w ≡ point →
        IsStepDown v (edge_of span.now) from.now number (Vertex w) last result }
{
    if !precedes(from, &point) {
        let slot = Slot::Child(number, true);
        return Descent {
            leaf: Leaf { slot, level },
            is_lowered: is_lowered(span, last.is_lowered, &point),
            ..last
        };
    }
    let slot = Slot::Child(number, false);
    let leaf = Leaf { slot, level };
    if is_beyond(span, last.bound, &point) {
        return Descent { leaf, ..last };
    }
    Descent {
        leaf,
        bound: Some(point),
        ..last
    }
}

// On at a node, which asks this.
fn pass(
    records: &Records,
    span: &Span,
    from: &Point,
    test: Test,
    number: usize,
    last: Descent,
    level: usize,
) -> Descent
    requires sound { IsGraphSound records.now.graph }
    requires test { IsTest records.now.graph test }
    ensures child { (b : _) × (result.leaf.slot ≡ Child number b) }
    ensures level { result.leaf.level ≡ level }
    ensures descent { IsStepDown records.now.graph (edge_of span.now) from.now number test last result }
{
    match test {
        Test::Vertex(vertex) => pass_vertex(span, from, records.point(vertex), number, last, level),
        Test::Edge(dart) => {
            let slot = Slot::Child(number, is_above_edge(records, span, dart));
            Descent {
                leaf: Leaf { slot, level },
                ..last
            }
        }
    }
}

/// From the root down to the leaf in which the edge's part directly after the point lies.
pub fn descend(nodes: &[Node], records: &Records, span: &Span, from: &Point) -> Descent
    requires sound { IsGraphSound records.now.graph }
    requires tree { IsTree (arena nodes.now) }
    requires named { AreNamed records.now.graph (arena nodes.now) }
    ensures descent { IsDescent records.now.graph (arena nodes.now) (edge_of span.now) from.now result }
    ensures leaf { IsLeaf (arena nodes.now) result.leaf }
{
    let slot = Slot::Root;
    let mut last = Descent {
        leaf: Leaf { slot, level: 0 },
        is_lowered: false,
        bound: None,
    };
    'down: while let Some(number) = child(nodes, last.leaf.slot) {
        let test = node(nodes, number).test;
        last = pass(records, span, from, test, number, last, last.leaf.level + 1);
    }
    last
}

/// Where what is left of an edge begins, once its part up to the bound is in.
pub fn rest(bound: Option<Point>, upper: &Point) -> Option<Point>
    ensures { result ≡ rest_of bound upper.now }
{
    let point = bound?;
    if precedes(&point, upper) {
        Some(point)
    } else {
        None
    }
}
