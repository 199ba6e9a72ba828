//! One round of a face's boundary for a query.
ghost use Rattle.std.specs.Prelude.{◌≤◌, ◌+◌, None};
ghost use Rattle.slab_laws.specs.View.{HasFace};
ghost use Rattle.counted_looks.specs.Boundaries.{boundary_size};
ghost use Rattle.dcel_records.specs.RecordsView.{tables_of};
ghost use Rattle.dcel_records.specs.SoundMaps.{IsSoundMap};
ghost use Rattle.dcel_records.specs.Spots.{IsVertexAt};
ghost use Rattle.locate_landmarks.specs.Lowest.{IsAbove, IsEntry};
ghost use Rattle.locate_landmarks.specs.Rounds.{IsRound};

use crate::above::EdgeAbove;
use crate::descent::Descent;
use crate::survey::Survey;
use counted_looks::{Glance, look_at_cycles};
use dcel_records::Spot;
use exact_plane::Point;
use locate_walk::{EdgeBelow, Highest, face_over};
use slab_laws::FaceId;
use std::sync::ledger::Ledger;
use work_steps::Steps;

/// What one round of a face's boundary finds for a query.
#[derive(Clone, Copy)]
pub enum Round {
    /// Where the point lies: inside an edge, or in this face.
    At(Spot),
    /// It isn't there; the highest edge below it on the boundary, and the lowest edge above it so far.
    Out(Option<EdgeBelow>, Option<EdgeAbove>),
}

/// Looks at the darts on the boundary of a face once round, for a point at which no vertex is. It lies in the face where this is that
/// over the highest edge below the point.
pub fn look_round<L: Ledger>(
    glance: &Glance,
    face: FaceId,
    point: &Point,
    descent: &Descent,
    steps: &mut Steps<L>,
) -> Round
    requires map { IsSoundMap glance.now }
    requires face { HasFace (tables_of glance.now) face }
    requires free { IsVertexAt glance.now.graph point.now None }
    requires lowest { IsAbove glance.now.graph point.now descent.now.lowest }
    requires entry { IsEntry glance.now.graph point.now descent.now.entry }
    ensures round { IsRound glance.now.graph (tables_of glance.now) point.now face descent.now result }
    ensures count { steps.new ≤ steps.old + boundary_size glance.now.graph (tables_of glance.now) face }
{
    point.laws();
    // This tells that each face lists what is on its boundary.
    glance.laws();
    let mut survey = Survey {
        highest: Highest {
            glance,
            face,
            point: *point,
            hit: None,
            best: None,
        },
        descent: *descent,
    };
    look_at_cycles(&mut survey, glance, face, steps);
    let lowest = survey.descent.lowest;
    let highest = survey.highest;
    match highest.hit {
        Some(spot) => Round::At(spot),
        None => {
            if face_over(glance, &highest.best) == face {
                return Round::At(Spot::Face(face));
            }
            Round::Out(highest.best, lowest)
        }
    }
}
