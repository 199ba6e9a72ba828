//! The way along the horizontal of a landmark, from face to face.
ghost use Rattle.std.specs.Prelude.{◌≡◌, ◌+◌, ◌≤◌};
ghost use Rattle.slab_laws.specs.View.{HasFace};
ghost use Rattle.dcel_records.specs.RecordsView.{tables_of};
ghost use Rattle.dcel_records.specs.SoundMaps.{IsSoundMap};
ghost use Rattle.locate_landmarks.specs.Horizontals.{dart_of_crossing, IsCrossing, IsLaterOrSame};
ghost use Rattle.locate_landmarks.specs.Looks.{IsDrawnLook};
ghost use Rattle.locate_landmarks.specs.Ways.{face_after, size_along, LeadsAlong};

use crate::course::Course;
use crate::crossing::{Crossing, later_crossing};
use crate::faces::{dart_across, face_beside, is_dart};
use counted_looks::{BoundaryPart, Glance, Glimpse, Looker, look_at_cycles};
use slab_laws::{CycleId, DartId, FaceId};
use std::sync::ledger::Ledger;
use work_steps::Steps;

// More edges than a way crosses, so that no way ends by it: curves have names of 32 bits, and the raised horizontal crosses each once at
// most. It is what tells that the loop ends, since the order of crossings has no law here.
const MOST_CROSSINGS: usize = 1 << 32;

/// What looks at the darts on the boundary of a face find along the horizontal: the last crossing with it before the vertical of the point, which
/// leads out of the face or back into it.
#[derive(Drop)]
pub struct Ahead<'a> {
    pub course: &'a Course,
    pub last: Option<Crossing>,
    /// The dart by which the way came into the face. It isn't looked at again, since the way goes on from there.
    pub entry: Option<DartId>,
}

impl<'a> Ahead<'a> {
    // A dart of which whole parts don't tell that both ends are on one side of the horizontal. A function of its own, so that the look,
    // which is inlined, stays short.
    #[inline(never)]
    fn look_closely(&mut self, sight: &Glance, dart: DartId, looked: &Glimpse)
        requires drawn { IsDrawnLook sight.now.graph dart looked.now }
        requires last { IsCrossing sight.now.graph self.old.course.now self.old.last }
        ensures course { self.new.course.now ≡ self.old.course.now }
        ensures last { IsCrossing sight.now.graph self.new.course.now self.new.last }
        ensures later { IsLaterOrSame sight.now.graph self.new.course.now self.old.last self.new.last }
    {
        if is_dart(self.entry, dart) {
            return;
        }
        let course = self.course;
        let rises = course.is_above(&looked.target());
        if course.is_above(&looked.source()) == rises {
            return;
        }
        if let Some(crossing) = later_crossing(sight, course, dart, looked, rises, &self.last) {
            self.last = Some(crossing);
        }
    }

    // What a look at a dart told. Nearly no edge crosses the horizontal, as whole parts tell.
    #[inline(always)]
    fn see(&mut self, sight: &Glance, dart: DartId, looked: &Glimpse)
        requires drawn { IsDrawnLook sight.now.graph dart looked.now }
        requires last { IsCrossing sight.now.graph self.old.course.now self.old.last }
        ensures course { self.new.course.now ≡ self.old.course.now }
        ensures last { IsCrossing sight.now.graph self.new.course.now self.new.last }
        ensures later { IsLaterOrSame sight.now.graph self.new.course.now self.old.last self.new.last }
    {
        if looked.is_above_or_below(self.course.landmark.whole_parts()) {
            return;
        }
        self.look_closely(sight, dart, looked);
    }
}

impl<'a, 'r> Looker<Glance<'r>> for Ahead<'a> {
    ghost use Rattle.locate_landmarks.specs.Horizontals.{MayPass, HasPassed};

    ghost may_look = { MayPass };

    ghost has_seen = { HasPassed };

    #[inline(always)]
    fn look<L: Ledger>(&mut self, sight: &Glance<'r>, at: BoundaryPart, steps: &mut Steps<L>) {
        match at {
            BoundaryPart::Dart(dart) => {
                let looked = sight.glimpse(dart, steps);
                self.see(sight, dart, &looked);
            }
            BoundaryPart::Isolated(_) => steps.tick(),
        }
    }

    // Nor does an edge of a cycle whose box is above the horizontal or below it.
    #[inline(always)]
    fn look_at_cycle<L: Ledger>(
        &mut self,
        sight: &Glance<'r>,
        cycle: CycleId,
        steps: &mut Steps<L>,
    ) -> bool {
        let looked = sight.glimpse_cycle(cycle, steps);
        if looked.is_above_or_below(self.course.landmark.whole_parts()) {
            return true;
        }
        self.see(sight, looked.dart, &looked.first);
        false
    }
}

fn dart_ahead(last: &Option<Crossing>) -> Option<DartId>
    ensures { result ≡ dart_of_crossing last.now }
{
    match last {
        Some(crossing) => Some(crossing.dart),
        None => None,
    }
}

/// The face in which the way along the horizontal ends, from any face. It leaves each face at the last of its crossings with the
/// horizontal before the vertical of the point, and ends where that leads into no other face.
// A function of its own, so that its loop and the one along the vertical don't share the registers.
#[inline(never)]
pub fn go_along<L: Ledger>(
    glance: &Glance,
    first: FaceId,
    course: &Course,
    steps: &mut Steps<L>,
) -> FaceId
    requires map { IsSoundMap glance.now }
    requires first { HasFace (tables_of glance.now) first }
    ensures has { HasFace (tables_of glance.now) result }
    ensures looks { (ds : _) × LeadsAlong glance.now course.now first ds × (result ≡ face_after glance.now first ds) × (steps.new ≤ steps.old + size_along glance.now first ds) }
{
    // This tells that each face lists what is on its boundary.
    glance.laws();
    let mut face = first;
    let mut ahead = Ahead {
        course,
        last: None,
        entry: None,
    };
    'faces: for _ in 0..MOST_CROSSINGS {
        look_at_cycles(&mut ahead, glance, face, steps);
        let dart = dart_ahead(&ahead.last);
        let beyond = face_beside(glance, face, dart);
        if beyond == face {
            break;
        }
        face = beyond;
        ahead.entry = dart_across(glance, dart);
    }
    face
}
