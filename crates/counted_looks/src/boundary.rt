ghost use Rattle.std.specs.Prelude.{◌≡◌, ◌+◌, ◌≤◌};
ghost use Rattle.slab_laws.specs.FaceLists.{AreDartsOn, AreLists};
ghost use Rattle.slab_laws.specs.FacesSound.{IsSound, lead_in};
ghost use Rattle.slab_laws.specs.Sound.{IsGraphSound};
ghost use Rattle.slab_laws.specs.View.{HasDart, HasCycle, HasFace, cycle_in};
ghost use Rattle.boundary_cycles.specs.Counted.{cycle_length};
ghost use Rattle.counted_looks.specs.Boundaries.{IsOnBoundary, boundary_size, cycle_size, dart_size, isolated_size};
ghost use Rattle.counted_looks.specs.declared.boundary_part.BoundaryPart.TheVariants.{Dart, Isolated};

use crate::boundary_part::BoundaryPart;
use crate::looker::Looker;
use crate::name_calls::NameCalls;
use slab_laws::{CycleId, DartId, FaceId};
use std::sync::ledger::Ledger;
use work_steps::Steps;

// Looks at each dart of a cycle once, but for the first, which was looked at.
fn look_round<S: NameCalls, K: Looker<S>, L: Ledger>(
    looker: &mut K,
    sight: &S,
    first: DartId,
    steps: &mut Steps<L>,
)
    requires sound { IsGraphSound (S.graph sight.now) }
    requires first { HasDart (S.graph sight.now) first }
    requires ready { (k : _) × K.may_look (S.graph sight.now) k looker.old }
    requires seen { K.has_seen (S.graph sight.now) looker.old (Dart first) }
    ensures ready { (k : _) → K.may_look (S.graph sight.now) k looker.old → K.may_look (S.graph sight.now) k looker.new }
    ensures seen { (d : _) → HasDart (S.graph sight.now) d → lead_in (S.graph sight.now) d ≡ lead_in (S.graph sight.now) first → K.has_seen (S.graph sight.now) looker.new (Dart d) }
    ensures still { (t : _) → K.has_seen (S.graph sight.now) looker.old t → K.has_seen (S.graph sight.now) looker.new t }
    ensures count { steps.new + 1 ≡ steps.old + cycle_length (S.graph sight.now) first }
{
    let mut dart = sight.next(first);
    'round: while dart != first {
        // What a look and a name read of one record is read together.
        let next = sight.next(dart);
        looker.look(sight, BoundaryPart::Dart(dart), steps);
        dart = next;
    }
}

// Looks at a cycle, and at each of its other darts once, where the first look isn't enough.
fn look_on_cycle<S: NameCalls, K: Looker<S>, L: Ledger>(
    looker: &mut K,
    sight: &S,
    cycle: CycleId,
    steps: &mut Steps<L>,
)
    requires sound { IsSound (S.graph sight.now) (S.faces sight.now) }
    requires darts { AreDartsOn (S.graph sight.now) (S.faces sight.now) (S.lists sight.now) }
    requires ready { (k : _) × K.may_look (S.graph sight.now) k looker.old }
    requires cycle { HasCycle (S.faces sight.now) cycle }
    ensures ready { (k : _) → K.may_look (S.graph sight.now) k looker.old → K.may_look (S.graph sight.now) k looker.new }
    ensures seen { (d : _) → HasDart (S.graph sight.now) d → cycle_in (S.faces sight.now) d ≡ cycle → K.has_seen (S.graph sight.now) looker.new (Dart d) }
    ensures still { (t : _) → K.has_seen (S.graph sight.now) looker.old t → K.has_seen (S.graph sight.now) looker.new t }
    ensures count { steps.new ≤ steps.old + cycle_size (S.graph sight.now) (S.faces sight.now) cycle }
{
    if looker.look_at_cycle(sight, cycle, steps) {
        return;
    }
    look_round(looker, sight, sight.dart_on(cycle), steps);
}

/// Looks at each dart that has the face on its left once, and at no isolated vertex: enough for a point at which no vertex is. Of a
/// cycle of which one look is enough, it looks at no other dart. What was seen before stays seen. It goes round the face's own cycles, and
/// takes no memory (de Berg and others, doubly-connected edge
/// list: traversing the boundary of a face).
pub fn look_at_cycles<S: NameCalls, K: Looker<S>, L: Ledger>(
    looker: &mut K,
    sight: &S,
    face: FaceId,
    steps: &mut Steps<L>,
)
    requires sound { IsSound (S.graph sight.now) (S.faces sight.now) }
    requires lists { AreLists (S.graph sight.now) (S.faces sight.now) (S.lists sight.now) }
    requires face { HasFace (S.faces sight.now) face }
    requires ready { (k : _) × K.may_look (S.graph sight.now) k looker.old }
    ensures ready { (k : _) → K.may_look (S.graph sight.now) k looker.old → K.may_look (S.graph sight.now) k looker.new }
    ensures seen { (d : _) → IsOnBoundary (S.graph sight.now) (S.faces sight.now) face (Dart d) → K.has_seen (S.graph sight.now) looker.new (Dart d) }
    ensures still { (t : _) → K.has_seen (S.graph sight.now) looker.old t → K.has_seen (S.graph sight.now) looker.new t }
    ensures count { steps.new ≤ steps.old + dart_size (S.graph sight.now) (S.faces sight.now) face }
{
    let mut at = sight.first_cycle_of(face);
    'cycles: while let Some(cycle) = at {
        look_on_cycle(looker, sight, cycle, steps);
        at = sight.cycle_after_in_face(cycle);
    }
}

/// Looks at each isolated vertex in the face once, and at no dart. What was seen before stays seen. It goes round the face's own list, and
/// takes no memory.
pub fn look_at_isolated<S: NameCalls, K: Looker<S>, L: Ledger>(
    looker: &mut K,
    sight: &S,
    face: FaceId,
    steps: &mut Steps<L>,
)
    requires sound { IsSound (S.graph sight.now) (S.faces sight.now) }
    requires lists { AreLists (S.graph sight.now) (S.faces sight.now) (S.lists sight.now) }
    requires face { HasFace (S.faces sight.now) face }
    requires ready { (k : _) × K.may_look (S.graph sight.now) k looker.old }
    ensures ready { (k : _) → K.may_look (S.graph sight.now) k looker.old → K.may_look (S.graph sight.now) k looker.new }
    ensures seen { (w : _) → IsOnBoundary (S.graph sight.now) (S.faces sight.now) face (Isolated w) → K.has_seen (S.graph sight.now) looker.new (Isolated w) }
    ensures still { (t : _) → K.has_seen (S.graph sight.now) looker.old t → K.has_seen (S.graph sight.now) looker.new t }
    ensures count { steps.new ≤ steps.old + isolated_size (S.faces sight.now) face }
{
    let mut at = sight.first_isolated_in(face);
    'vertices: while let Some(vertex) = at {
        let after = sight.isolated_after_in_face(vertex);
        looker.look(sight, BoundaryPart::Isolated(vertex), steps);
        at = after;
    }
}

/// Looks at all that is on the boundary of a face: each dart of its cycles, as `look_at_cycles` does, and each isolated vertex in it,
/// with at most as many steps as there are. What was seen before stays seen. It goes round the face's own lists, and takes no memory
/// (de Berg and others, doubly-connected edge list: traversing the boundary of a face).
pub fn look_at_boundary<S: NameCalls, K: Looker<S>, L: Ledger>(
    looker: &mut K,
    sight: &S,
    face: FaceId,
    steps: &mut Steps<L>,
)
    requires sound { IsSound (S.graph sight.now) (S.faces sight.now) }
    requires lists { AreLists (S.graph sight.now) (S.faces sight.now) (S.lists sight.now) }
    requires face { HasFace (S.faces sight.now) face }
    requires ready { (k : _) × K.may_look (S.graph sight.now) k looker.old }
    ensures ready { (k : _) → K.may_look (S.graph sight.now) k looker.old → K.may_look (S.graph sight.now) k looker.new }
    ensures seen { (t : _) → IsOnBoundary (S.graph sight.now) (S.faces sight.now) face t → K.has_seen (S.graph sight.now) looker.new t }
    ensures still { (t : _) → K.has_seen (S.graph sight.now) looker.old t → K.has_seen (S.graph sight.now) looker.new t }
    ensures count { steps.new ≤ steps.old + boundary_size (S.graph sight.now) (S.faces sight.now) face }
{
    look_at_cycles(looker, sight, face, steps);
    look_at_isolated(looker, sight, face, steps);
}
