ghost use Rattle.std.specs.Prelude.{◌≡◌, IfOk};
ghost use Rattle.std.specs.Iterator.{item_count, YieldsFirst};
ghost use Rattle.std.specs.List.{AllByRecursion};
ghost use Rattle.slab_laws.specs.Sound.{IsGraphSound};
ghost use Rattle.slab_laws.specs.View.{HasDart, HasVertex};
ghost use Rattle.dart_walks.specs.DartWalks.{AreRound};

use crate::onward::onward;
use no_memory::NoMemory;
use slab_laws::{DartId, Darts, VertexId};
use std::alloc::Global;
use std::iter::FusedIterator;
use std::marker::Model;

/// The darts out of a vertex that are still to come, clockwise (CGAL manual, `Halfedge_around_vertex_circulator`).
#[derive(Drop)]
pub struct Round<'a, R: Darts> {
    graph: &'a R,
    first: DartId,
    at: Option<DartId>,
}

impl<'a, R: Darts> Model for Round<'a, R> {
    ghost use Rattle.std.specs.Prelude.{List};
    ghost use Rattle.slab_laws.specs.declared.names.DartId.{DartId};
    ghost use Rattle.arr_notes.specs.AfterAround.{after_in};
    ghost use Rattle.dart_walks.specs.Turns.{to_come, IsOnItsWay};

    ghost Value = { List DartId };

    ghost view = { λ a. to_come (R.graph a.graph.now) (after_in (R.graph a.graph.now)) a.first a.at };

    ghost invariant = { λ a. IsOnItsWay (R.graph a.graph.now) (after_in (R.graph a.graph.now)) a.first a.at };
}

impl<'a, R: Darts> Round<'a, R> {
    /// Once round a vertex clockwise: the darts out of it, none where it is isolated. It takes no memory.
    pub fn new(graph: &'a R, vertex: VertexId) -> Round<'a, R>
        requires sound { IsGraphSound (R.graph graph.now) }
        requires vertex { HasVertex (R.graph graph.now) vertex }
        ensures round { AreRound (R.graph graph.now) vertex result }
        ensures have { AllByRecursion (HasDart (R.graph graph.now)) result }
    {
        let at = graph.out_of(vertex);
        // Where none is to come, there is none to come back to.
        let first = at.unwrap_or(DartId(0));
        Round { graph, first, at }
    }
}

impl<'a, R: Darts> Round<'a, R> {
    /// The darts that are still to come, in a list.
    ///
    /// # Errors
    ///
    /// There was no memory for the list.
    pub fn list(self, alloc: Global) -> Result<Vec<DartId>, NoMemory>
        ensures { IfOk result (λ v. v.items ≡ self.entry) }
    {
        Ok(self.collect(alloc)?)
    }
}

impl<'a, R: Darts> Iterator for Round<'a, R> {
    type Item = DartId;

    ghost next_gives = { YieldsFirst (λ rest. rest) };

    ghost remaining = { item_count (λ rest. rest) };

    fn next(&mut self) -> Option<DartId> {
        let Some(dart) = self.at else {
            return None;
        };
        let graph = self.graph;
        self.at = onward(graph.next(graph.twin(dart)), self.first);
        Some(dart)
    }
}

impl<'a, R: Darts> FusedIterator for Round<'a, R> {}
