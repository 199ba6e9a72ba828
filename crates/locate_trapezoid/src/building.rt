ghost use Rattle.std.specs.Prelude.{◌≡◌, true, None, IfOk, IfSome, IsSome};
ghost use Rattle.slab_laws.specs.Sound.{IsGraphSound};
ghost use Rattle.locate_trapezoid.specs.Bounds.{is_within as lies_within};
ghost use Rattle.locate_trapezoid.specs.Graphs.{AreEdgesIn, AreTests, AreVerticesIn, IsSearchGraphOf};

use crate::bound::{Bound, is_within};
use crate::graph::SearchGraph;
use crate::insertion::put;
use crate::node::Test;
use crate::order::tests_of;
use crate::scatter::scattered;
use crate::seed::seed_of;
use dcel_records::Records;
use no_memory::NoMemory;
use std::alloc::Global;

// How many orders are tried within a bound, before the one that stands whatever comes of it.
const TRIES: usize = 4;

// The search graph of all edges and vertices, put in by an order that is drawn from a seed. `None` once it passes the bound: what it had is
// let go then.
fn graph_within(
    alloc: Global,
    records: &Records,
    tests: &[Test],
    seed: u64,
    bound: Option<Bound>,
) -> Result<Option<SearchGraph>, NoMemory>
    requires sound { IsGraphSound records.now.graph }
    requires tests { AreTests records.now.graph tests.now }
    requires edges { AreEdgesIn records.now.graph tests.now }
    requires vertices { AreVerticesIn records.now.graph tests.now }
    ensures graph { IfOk result (λ o. IfSome o (IsSearchGraphOf records.now.graph)) }
    ensures within { IfOk result (λ o. IfSome o (λ g. lies_within g bound ≡ true)) }
    ensures unbounded { IfOk result (λ o. bound ≡ None → IsSome o) }
{
    let order = scattered(alloc, tests, seed)?;
    let mut graph = SearchGraph {
        nodes: Vec::new(alloc),
        depth: 0,
    };
    'tests: for test in &order {
        put(&mut graph, records, *test)?;
        if !is_within(&graph, bound) {
            return Ok(None);
        }
    }
    Ok(Some(graph))
}

// Their search graph, in the first order within the bound, or else in the last.
fn graph_by_tries(alloc: Global, records: &Records, tests: &[Test]) -> Result<SearchGraph, NoMemory>
    requires sound { IsGraphSound records.now.graph }
    requires tests { AreTests records.now.graph tests.now }
    requires edges { AreEdgesIn records.now.graph tests.now }
    requires vertices { AreVerticesIn records.now.graph tests.now }
    ensures { IfOk result (IsSearchGraphOf records.now.graph) }
{
    let bound = Bound::of(tests.len());
    let mut seed = seed_of(records, tests, 0);
    'tries: for _count in 0..TRIES {
        if let Some(graph) = graph_within(alloc, records, tests, seed, Some(bound))? {
            return Ok(graph);
        }
        seed = seed_of(records, tests, seed);
    }
    let graph = graph_within(alloc, records, tests, seed, None)?;
    Ok(graph.unwrap())
}

/// The search graph of all edges and vertices.
///
/// # Errors
///
/// There was no memory.
pub fn graph_of(alloc: Global, records: &Records) -> Result<SearchGraph, NoMemory>
    requires { IsGraphSound records.now.graph }
    ensures { IfOk result (IsSearchGraphOf records.now.graph) }
{
    let tests = tests_of(alloc, records)?;
    graph_by_tries(alloc, records, &tests)
}
