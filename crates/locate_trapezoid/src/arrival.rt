ghost use Rattle.std.specs.Prelude.{◌≡◌, ◌+◌, ◌≤◌, pos, Some};
ghost use Rattle.std.specs.Ordering.{int_cmp};
ghost use Rattle.exact_plane.specs.Span.{AreOnWay};
ghost use Rattle.slab_laws.specs.Skeleton.{side as side_number};
ghost use Rattle.slab_laws.specs.Sound.{IsGraphSound};
ghost use Rattle.locate_trapezoid.specs.Arrivals.{IsArrival};
ghost use Rattle.locate_trapezoid.specs.Counted.{IsTest};
ghost use Rattle.locate_trapezoid.specs.Graphs.{AreNamed};
ghost use Rattle.locate_trapezoid.specs.Nodes.{arena, IsDepth, IsTree};
ghost use Rattle.locate_trapezoid.specs.Ways.{label as label_after, outcome};

use crate::graph::{Leaf, child, node};
use crate::node::{Node, Slot, Test};
use counted_looks::{Glance, Looked};
use dcel_records::Spot;
use exact_plane::{Point, Sign, side};
use slab_laws::DartId;
use std::cmp::Ordering;
use std::sync::ledger::Ledger;
use work_steps::Steps;

/// Where a point's way down from the root ends.
#[derive(Clone, Copy)]
pub enum Arrival {
    /// At a node that asks for what is at the point.
    Met(Test),
    /// At a leaf, with the last edge that it was above, by its dart from the lower to the upper end.
    Open(Leaf, Option<DartId>),
}

// Whether a point is below an edge, on its line, or above it, by a look at the dart from the lower to the upper end.
fn compare_side(point: &Point, looked: &Looked) -> Ordering
    requires { (l : _) × (looked.now.line ≡ Some l) × AreOnWay looked.now.source looked.now.target l }
    ensures { result ≡ int_cmp (side_number (record { low = looked.now.source; high = looked.now.target }) point.now) (pos 0) }
{
    let line = looked.line.unwrap();
    // These tell that the ends and the line are those of a part of a line.
    looked.source.laws();
    looked.target.laws();
    line.laws();
    match side(&line, point) {
        Sign::Minus => Ordering::Less,
        Sign::Zero => Ordering::Equal,
        Sign::Plus => Ordering::Greater,
    }
}

// Where a node sends the point, by one look.
fn ask<L: Ledger>(glance: &Glance, test: Test, point: &Point, steps: &mut Steps<L>) -> Ordering
    requires sound { IsGraphSound glance.now.graph }
    requires test { IsTest glance.now.graph test }
    ensures outcome { result ≡ outcome glance.now.graph test point.now }
    ensures one { steps.new ≡ steps.old + 1 }
{
    match test {
        Test::Vertex(vertex) => point.cmp(&glance.look(Spot::Vertex(vertex), steps).source),
        Test::Edge(dart) => {
            let looked = glance.look(Spot::Edge(dart), steps);
            compare_side(point, &looked)
        }
    }
}

// The last edge that the point was above, once it goes on from a node.
fn label(test: Test, is_more: bool, below: Option<DartId>) -> Option<DartId>
    ensures { result ≡ label_after test is_more below }
{
    match test {
        Test::Edge(dart) if is_more => Some(dart),
        _ => below,
    }
}

/// Where a point comes, from the root down, by one look at each node.
pub fn arrive<L: Ledger>(
    nodes: &[Node],
    glance: &Glance,
    point: &Point,
    steps: &mut Steps<L>,
) -> Arrival
    requires sound { IsGraphSound glance.now.graph }
    requires tree { IsTree (arena nodes.now) }
    requires named { AreNamed glance.now.graph (arena nodes.now) }
    ensures arrival { IsArrival glance.now.graph (arena nodes.now) point.now result }
    ensures looks { (d : _) → IsDepth (arena nodes.now) d → steps.new ≤ steps.old + d }
{
    let slot = Slot::Root;
    let mut leaf = Leaf { slot, level: 0 };
    let mut below = None;
    'down: while let Some(number) = child(nodes, leaf.slot) {
        let test = node(nodes, number).test;
        let order = ask(glance, test, point, steps);
        if order.is_eq() {
            return Arrival::Met(test);
        }
        let is_more = order.is_gt();
        leaf = Leaf {
            slot: Slot::Child(number, is_more),
            level: leaf.level + 1,
        };
        below = label(test, is_more, below);
    }
    Arrival::Open(leaf, below)
}
