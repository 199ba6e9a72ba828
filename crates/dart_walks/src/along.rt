ghost use Rattle.std.specs.Prelude.{◌≡◌, IfOk};
ghost use Rattle.std.specs.Iterator.{item_count, YieldsFirst};
ghost use Rattle.std.specs.List.{AllByRecursion};
ghost use Rattle.slab_laws.specs.FacesSound.{IsSound};
ghost use Rattle.slab_laws.specs.View.{HasDart};
ghost use Rattle.dart_walks.specs.DartWalks.{AreAlong};

use crate::onward::onward;
use no_memory::NoMemory;
use slab_laws::{DartId, Darts, Faced};
use std::alloc::Global;
use std::iter::FusedIterator;
use std::marker::Model;

/// The darts of a boundary that are still to come, each followed by the next one (CGAL manual, `Ccb_halfedge_circulator`).
#[derive(Drop)]
pub struct Along<'a, R: Darts> {
    graph: &'a R,
    first: DartId,
    at: Option<DartId>,
}

impl<'a, R: Darts> Model for Along<'a, R> {
    ghost use Rattle.std.specs.Prelude.{List};
    ghost use Rattle.slab_laws.specs.declared.names.DartId.{DartId};
    ghost use Rattle.slab_laws.specs.View.{next_in};
    ghost use Rattle.dart_walks.specs.Turns.{to_come, IsOnItsWay};

    ghost Value = { List DartId };

    ghost view = { λ a. to_come (R.graph a.graph.now) (next_in (R.graph a.graph.now)) a.first a.at };

    ghost invariant = { λ a. IsOnItsWay (R.graph a.graph.now) (next_in (R.graph a.graph.now)) a.first a.at };
}

impl<'a, R: Faced> Along<'a, R> {
    /// Once along the boundary that a dart lies on, from this one on; the face lies on the left of all. It takes no memory.
    ///
    /// That all have records is a clause of its own, since what is left of them keeps that: it is what a loop over them needs.
    pub fn new(graph: &'a R, dart: DartId) -> Along<'a, R>
        requires sound { IsSound (R.graph graph.now) (R.faces graph.now) }
        requires dart { HasDart (R.graph graph.now) dart }
        ensures along { AreAlong (R.graph graph.now) (R.faces graph.now) dart result }
        ensures have { AllByRecursion (HasDart (R.graph graph.now)) result }
    {
        Along {
            graph,
            first: dart,
            at: Some(dart),
        }
    }
}

impl<'a, R: Darts> Along<'a, R> {
    /// The darts that are still to come, in a list.
    ///
    /// # Errors
    ///
    /// There was no memory for the list.
    pub fn list(self, alloc: Global) -> Result<Vec<DartId>, NoMemory>
        ensures { IfOk result (λ v. v.items ≡ self.entry) }
    {
        Ok(self.collect(alloc)?)
    }
}

impl<'a, R: Darts> Iterator for Along<'a, R> {
    type Item = DartId;

    ghost next_gives = { YieldsFirst (λ rest. rest) };

    ghost remaining = { item_count (λ rest. rest) };

    fn next(&mut self) -> Option<DartId> {
        let Some(dart) = self.at else {
            return None;
        };
        self.at = onward(self.graph.next(dart), self.first);
        Some(dart)
    }
}

impl<'a, R: Darts> FusedIterator for Along<'a, R> {}
