ghost use Rattle.std.specs.Prelude.{◌≡◌};
ghost use Rattle.slab_laws.specs.Sound.{IsGraphSound};
ghost use Rattle.locate_trapezoid.specs.Counted.{IsTest};
ghost use Rattle.locate_trapezoid.specs.Graphs.{AreTests};
ghost use Rattle.locate_trapezoid.specs.Seeds.{hashed, seed_in};

use crate::node::Test;
use dcel_records::Records;
use slab_laws::Darts;
use std::hash::{DefaultHasher, Hash, Hasher};

// Takes in where a vertex is, or where the ends of an edge are.
fn hash_place(records: &Records, test: Test, state: &mut DefaultHasher)
    requires sound { IsGraphSound records.now.graph }
    requires test { IsTest records.now.graph test }
    ensures { state.new ≡ hashed records.now.graph state.old test }
{
    match test {
        Test::Vertex(vertex) => records.point(vertex).hash(state),
        Test::Edge(dart) => {
            records.point(records.source(dart)).hash(state);
            records.point(records.target(dart)).hash(state);
        }
    }
}

/// A number to draw an order by, from where all edges and vertices are and from the number before it.
///
/// Without it the order would be known before there are points, and edges could be laid so that those that come last in it cross the walls
/// of all that come first. With it they have to be such that this very order comes of their points. Who knows the hash can try for that,
/// point by point; but each number after the first one comes of all these points again, so that it takes a layer that is ill for all of
/// them at once.
pub fn seed_of(records: &Records, tests: &[Test], last: u64) -> u64
    requires sound { IsGraphSound records.now.graph }
    requires tests { AreTests records.now.graph tests.now }
    ensures { result ≡ seed_in records.now.graph tests.now last }
{
    let mut state = DefaultHasher::new();
    last.hash(&mut state);
    'tests: for test in tests {
        hash_place(records, *test, &mut state);
    }
    state.finish()
}
