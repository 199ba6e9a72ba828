ghost use Rattle.std.specs.Prelude.{◌≡◌, ◌+◌, true};
ghost use Rattle.slab_laws.specs.FaceLists.{AreDartsOn};
ghost use Rattle.slab_laws.specs.FacesSound.{IsSound};
ghost use Rattle.slab_laws.specs.View.{HasDart, HasCycle, cycle_in};
ghost use Rattle.counted_looks.specs.Boundaries.{HasPart};
ghost use Rattle.counted_looks.specs.declared.boundary_part.BoundaryPart.TheVariants.{Dart};

use crate::boundary_part::BoundaryPart;
use crate::name_calls::NameCalls;
use slab_laws::CycleId;
use std::sync::ledger::Ledger;
use work_steps::Steps;

/// One who looks at the parts of a boundary, one at a time: each look is one step (CGAL manual, the visitor of a zone).
///
/// A look has no answer for want of memory. A looker that may find none remembers that it failed: its `has_seen` says
/// "failed, or else ..", and after a failure its looks only tick. So steps are counted whatever memory there is, and the
/// walks don't stop halfway.
pub trait Looker<S: NameCalls> {
    ghost use Rattle.slab_laws.specs.View.{View};
    ghost use Rattle.counted_looks.specs.declared.boundary_part.BoundaryPart.{BoundaryPart};

    /// What holds of the graph, of the looker as it was at first, and of the looker after some looks.
    ghost may_look: { View → Self → Self → Type 0 };

    /// What is known of a part of the boundary once it was looked at.
    ghost has_seen: { View → Self → BoundaryPart → Type 0 };

    /// One look at a part that has a record. What was seen before stays seen.
    fn look<L: Ledger>(&mut self, sight: &S, at: BoundaryPart, steps: &mut Steps<L>)
        requires ready { (k : _) × may_look (S.graph sight.now) k self.old }
        requires at { HasPart (S.graph sight.now) at }
        ensures ready { (k : _) → may_look (S.graph sight.now) k self.old → may_look (S.graph sight.now) k self.new }
        ensures seen { has_seen (S.graph sight.now) self.new at }
        ensures still { (t : BoundaryPart) → has_seen (S.graph sight.now) self.old t → has_seen (S.graph sight.now) self.new t }
        ensures one { steps.new ≡ steps.old + 1 };

    /// One look at a cycle, by the dart that is kept for it, and whether that is enough. It is where the look tells as much of each dart
    /// on the cycle as a look at that dart would: so a box of the whole cycle may tell that none of them is what is looked for.
    fn look_at_cycle<L: Ledger>(&mut self, sight: &S, cycle: CycleId, steps: &mut Steps<L>) -> bool
        requires sound { IsSound (S.graph sight.now) (S.faces sight.now) }
        requires darts { AreDartsOn (S.graph sight.now) (S.faces sight.now) (S.lists sight.now) }
        requires ready { (k : _) × may_look (S.graph sight.now) k self.old }
        requires cycle { HasCycle (S.faces sight.now) cycle }
        ensures ready { (k : _) → may_look (S.graph sight.now) k self.old → may_look (S.graph sight.now) k self.new }
        ensures first { has_seen (S.graph sight.now) self.new (Dart ((S.lists sight.now).dart_on cycle)) }
        ensures whole { result ≡ true → (d : _) → HasDart (S.graph sight.now) d → cycle_in (S.faces sight.now) d ≡ cycle → has_seen (S.graph sight.now) self.new (Dart d) }
        ensures still { (t : BoundaryPart) → has_seen (S.graph sight.now) self.old t → has_seen (S.graph sight.now) self.new t }
        ensures one { steps.new ≡ steps.old + 1 }
    {
        self.look(sight, BoundaryPart::Dart(sight.dart_on(cycle)), steps);
        false
    }
}
