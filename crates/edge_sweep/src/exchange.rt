ghost use Rattle.std.specs.Prelude.{◌≡◌, [], ◌∷◌, ◌++◌, ◌+◌, ◌≤◌, length, drop, IfOk};
ghost use Rattle.std.specs.List.{Contains, prefix_len};
ghost use Rattle.edge_sweep.specs.Swept.{ends_at};
ghost use Rattle.slab_laws.specs.Skeleton.{Skeleton};
ghost use Rattle.edge_sweep.specs.Fronts.{IsFrontOf, IsCutAt};
ghost use Rattle.edge_sweep.specs.Exchanges.{fronted, exchanged};

use crate::edges::{SweptEdge, count_below, count_ending, count_starting, fill_between};
use exact_plane::Point;
use no_memory::NoMemory;

// What a vertex makes of the front: the edges that end there, which stand from `low` up to `high`, go, and those of a run come, with
// which so many have begun.
#[derive(Clone, Copy)]
pub(crate) struct Exchange {
    pub(crate) low: usize,
    pub(crate) high: usize,
    pub(crate) begun: usize,
}

// The sum of two numbers that isn't above a third one.
fn sum_within(first: usize, second: usize, whole: usize) -> usize
    requires { first + second ≤ whole }
    ensures { result ≡ first + second }
{
    first + second
}

// Where those of a front stop that end at a vertex, of which the first stands at a place.
pub(crate) fn ended_upto(edges: &[SweptEdge], status: &[usize], low: usize, vertex: &Point) -> usize
    requires { low ≤ length status.now }
    ensures { result ≡ low + prefix_len (ends_at edges.now vertex.now) (drop low status.now) }
{
    let (_, rest) = status.split_at(low);
    sum_within(low, count_ending(edges, rest, vertex), status.len())
}

// What the next vertex makes of a front of which so many edges have begun. The run is written over what a list had.
pub(crate) fn exchange_at(
    run: &mut Vec<usize>,
    edges: &[SweptEdge],
    status: &[usize],
    begun: usize,
    vertex: &Point,
) -> Result<Exchange, NoMemory>
    requires { begun ≤ length edges.now }
    ensures in_turn { IfOk result (λ t. t.low ≤ t.high) }
    ensures in_bounds { IfOk result (λ t. t.high ≤ length status.now) }
    ensures begun { IfOk result (λ t. t.begun ≤ length edges.now) }
    ensures exchange { IfOk result (λ t. (g : Skeleton) (passed : _) → IsFrontOf g passed (fronted edges.now begun status.now) → Contains g.vertices vertex.now → IsCutAt g passed vertex.now → IsFrontOf g (passed ++ vertex.now ∷ []) (exchanged edges.now status.now t run.new.items)) }
{
    let low = count_below(edges, status, vertex);
    let (_, rest) = status.split_at(low);
    let ended = count_ending(edges, rest, vertex);
    let (_, others) = edges.split_at(begun);
    let started = count_starting(others, vertex);
    let high = sum_within(low, ended, status.len());
    let upto = sum_within(begun, started, edges.len());
    fill_between(run, begun, upto)?;
    Ok(Exchange {
        low,
        high,
        begun: upto,
    })
}
