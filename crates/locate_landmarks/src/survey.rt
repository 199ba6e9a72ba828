//! The look at a face's boundary for a query.
ghost use Rattle.std.specs.Prelude.{◌≡◌};
ghost use Rattle.slab_laws.specs.View.{HasDart};
ghost use Rattle.counted_looks.specs.Looks.{IsLookOf};
ghost use Rattle.counted_looks.specs.declared.boundary_part.BoundaryPart.TheVariants.{Dart};
ghost use Rattle.dcel_records.specs.RecordsView.{tables_of};
ghost use Rattle.dcel_records.specs.SoundMaps.{IsSoundMap};
ghost use Rattle.dcel_records.specs.declared.spot.Spot.TheVariants.{Edge};
ghost use Rattle.locate_walk.specs.Finds.{IsFound};
ghost use Rattle.locate_walk.specs.Looks.{IsBelowOrNone};
ghost use Rattle.locate_landmarks.specs.Lowest.{IsAbove, IsEntry, IsLowered};
ghost use Rattle.locate_landmarks.specs.Surveys.{HasSurveyedPart};

use crate::descent::Descent;
use crate::faces::is_dart;
use counted_looks::{BoundaryPart, Glance, Glimpse, Looker};
use exact_plane::Point;
use locate_walk::{Found, Highest, found_at_dart, is_told_at_twin, passage_of};
use slab_laws::{CycleId, DartId, FaceId};
use std::sync::ledger::Ledger;
use work_steps::Steps;

/// What looks at the darts on the boundary of a face find for a query: where the point is, once it was met, and until then the highest
/// edge below it, and the lowest one above it.
#[derive(Drop)]
pub struct Survey<'a, 'r> {
    pub highest: Highest<'a, 'r>,
    pub descent: Descent,
}

// What a dart tells that whole parts don't rule out. An edge that spans the point, of which both darts are there, is told at one of them.
// The lowest edge above the point is kept.
fn find_at_dart(
    glance: &Glance,
    face: FaceId,
    dart: DartId,
    looked: &Glimpse,
    point: &Point,
    descent: &mut Descent,
) -> Found
    requires map { IsSoundMap glance.now }
    requires dart { HasDart glance.now.graph dart }
    requires looked { IsLookOf glance.now.graph (Edge dart) looked.now }
    requires lowest { IsAbove glance.now.graph point.now descent.old.lowest }
    ensures found { IsFound glance.now.graph (tables_of glance.now) point.now face (Dart dart) result }
    ensures lowest { IsAbove glance.now.graph point.now descent.new.lowest }
    ensures lowered { IsLowered glance.now.graph point.now descent.old.downward descent.old.lowest descent.new.lowest }
    ensures entry { descent.new.entry ≡ descent.old.entry }
    ensures downward { descent.new.downward ≡ descent.old.downward }
{
    let passage = passage_of(looked, point);
    if !passage.spans() {
        return found_at_dart(glance, dart, looked, point, passage);
    }
    if is_told_at_twin(glance, face, dart) {
        return Found::Past;
    }
    let found = found_at_dart(glance, dart, looked, point, passage);
    if matches!(found, Found::Past) {
        descent.pass(glance, point, dart, looked, passage);
    }
    found
}

impl<'a, 'r> Survey<'a, 'r> {
    // What a dart tells that whole parts don't rule out.
    #[inline(never)]
    fn look_closely(&mut self, dart: DartId, looked: &Glimpse)
        requires map { IsSoundMap self.old.highest.glance.now }
        requires dart { HasDart self.old.highest.glance.now.graph dart }
        requires looked { IsLookOf self.old.highest.glance.now.graph (Edge dart) looked.now }
        requires best { IsBelowOrNone self.old.highest.glance.now.graph self.old.highest.point self.old.highest.best }
        requires lowest { IsAbove self.old.highest.glance.now.graph self.old.highest.point self.old.descent.lowest }
        requires entry { IsEntry self.old.highest.glance.now.graph self.old.highest.point self.old.descent.entry }
        ensures { HasSurveyedPart self.old (Dart dart) self.new }
    {
        self.highest.point.laws();
        if self.highest.is_settled(dart) {
            return;
        }
        // Its edge is above the point, and no lower than the lowest one so far.
        if is_dart(self.descent.entry, dart) {
            return;
        }
        let found = find_at_dart(
            self.highest.glance,
            self.highest.face,
            dart,
            looked,
            &self.highest.point,
            &mut self.descent,
        );
        self.highest.take(found);
    }
}

impl<'a, 'r> Looker<Glance<'r>> for Survey<'a, 'r> {
    ghost use Rattle.locate_landmarks.specs.Surveys.{MaySurvey, HasSurveyed};

    ghost may_look = { MaySurvey };

    ghost has_seen = { HasSurveyed };

    // The whole parts of its ends rule out nearly each dart. An isolated vertex isn't looked at: the point isn't there.
    #[inline(always)]
    fn look<L: Ledger>(&mut self, sight: &Glance<'r>, at: BoundaryPart, steps: &mut Steps<L>) {
        match at {
            BoundaryPart::Dart(dart) => {
                let looked = sight.glimpse(dart, steps);
                if looked.is_left_or_right_of(self.highest.point.whole_parts()) {
                    return;
                }
                self.look_closely(dart, &looked);
            }
            BoundaryPart::Isolated(_) => steps.tick(),
        }
    }

    // A cycle whose box is to the left or right of the point has no dart that the point is on, or sees above or below it.
    #[inline(always)]
    fn look_at_cycle<L: Ledger>(
        &mut self,
        sight: &Glance<'r>,
        cycle: CycleId,
        steps: &mut Steps<L>,
    ) -> bool {
        let looked = sight.glimpse_cycle(cycle, steps);
        let at = self.highest.point.whole_parts();
        if looked.is_left_or_right_of(at) {
            return true;
        }
        if !looked.first.is_left_or_right_of(at) {
            self.look_closely(looked.dart, &looked.first);
        }
        false
    }
}
