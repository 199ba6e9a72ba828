ghost use Rattle.std.specs.Prelude.{◌≡◌, ◌++◌, ◌∷◌, [], cond, OnOk, IfOk};
ghost use Rattle.std.specs.List.{Contains};
ghost use Rattle.slab_laws.specs.Sound.{IsGraphSound};
ghost use Rattle.locate_trapezoid.specs.Graphs.{AreEdgesIn, AreTests, AreVerticesIn};

use crate::node::Test;
use no_memory::NoMemory;
use record_orders::{darts_in_order, is_forward, vertices_in_order};
use slab_laws::Darts;
use std::alloc::Global;

// Adds one, where it is to be there.
fn add(tests: &mut Vec<Test>, is_there: bool, test: Test) -> Result<(), NoMemory>
    ensures { OnOk result (tests.new.items ≡ tests.old.items ++ cond is_there (test ∷ []) []) }
{
    if is_there {
        tests.push(test)?;
    }
    Ok(())
}

// Adds all edges, by their darts from the lower to the upper end, in the order of edges.
fn add_edges<R: Darts>(alloc: Global, records: &R, tests: &mut Vec<Test>) -> Result<(), NoMemory>
    requires sound { IsGraphSound (R.graph records.now) }
    requires tests { AreTests (R.graph records.now) tests.old.items }
    ensures tests { OnOk result (AreTests (R.graph records.now) tests.new.items) }
    ensures edges { OnOk result (AreEdgesIn (R.graph records.now) tests.new.items) }
{
    let keys = darts_in_order(alloc, records)?;
    'keys: for key in &keys {
        add(tests, is_forward(key), Test::Edge(key.name))?;
    }
    Ok(())
}

// Adds all vertices without edges, in point order.
fn add_isolated<R: Darts>(alloc: Global, records: &R, tests: &mut Vec<Test>) -> Result<(), NoMemory>
    requires sound { IsGraphSound (R.graph records.now) }
    requires tests { AreTests (R.graph records.now) tests.old.items }
    ensures tests { OnOk result (AreTests (R.graph records.now) tests.new.items) }
    ensures kept { OnOk result ((t : _) → Contains tests.old.items t → Contains tests.new.items t) }
    ensures vertices { OnOk result (AreVerticesIn (R.graph records.now) tests.new.items) }
{
    let keys = vertices_in_order(alloc, records)?;
    'keys: for key in &keys {
        let is_isolated = records.out_of(key.name).is_none();
        add(tests, is_isolated, Test::Vertex(key.name))?;
    }
    Ok(())
}

/// All edges in their order, and then all vertices that have none.
///
/// # Errors
///
/// There was no memory.
pub fn tests_of<R: Darts>(alloc: Global, records: &R) -> Result<Vec<Test>, NoMemory>
    requires { IsGraphSound (R.graph records.now) }
    ensures tests { IfOk result (λ v. AreTests (R.graph records.now) v.items) }
    ensures edges { IfOk result (λ v. AreEdgesIn (R.graph records.now) v.items) }
    ensures vertices { IfOk result (λ v. AreVerticesIn (R.graph records.now) v.items) }
{
    let mut tests = Vec::new(alloc);
    add_edges(alloc, records, &mut tests)?;
    add_isolated(alloc, records, &mut tests)?;
    Ok(tests)
}
