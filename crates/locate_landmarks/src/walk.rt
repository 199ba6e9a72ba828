//! The walk from the face of a landmark to a point.
ghost use Rattle.std.specs.Prelude.{◌≡◌, ◌+◌, ◌≤◌, None};
ghost use Rattle.slab_laws.specs.View.{HasFace};
ghost use Rattle.dcel_records.specs.RecordsView.{tables_of};
ghost use Rattle.dcel_records.specs.SoundMaps.{IsSoundMap};
ghost use Rattle.dcel_records.specs.Spots.{IsVertexAt};
ghost use Rattle.face_location.specs.Spots.{IsSpotOf};
ghost use Rattle.locate_landmarks.specs.Walks.{dart_above};
ghost use Rattle.locate_landmarks.specs.Ways.{upright_size, way_size, IsUpright, IsWay};

use crate::above::EdgeAbove;
use crate::course::Course;
use crate::descent::Descent;
use crate::faces::{dart_across, face_beside};
use crate::horizontal::go_along;
use crate::round::{Round, look_round};
use counted_looks::Glance;
use dcel_records::Spot;
use exact_plane::Point;
use locate_walk::climb_free;
use slab_laws::{DartId, FaceId};
use std::sync::ledger::Ledger;
use work_steps::Steps;

fn dart_above(lowest: &Option<EdgeAbove>) -> Option<DartId>
    ensures { result ≡ dart_above lowest.now }
{
    match lowest {
        Some(edge) => Some(edge.dart),
        None => None,
    }
}

// Where a point lies at which no vertex is, by a walk along its vertical from any face.
fn go_upright<L: Ledger>(
    glance: &Glance,
    first: FaceId,
    point: &Point,
    downward: bool,
    steps: &mut Steps<L>,
) -> Spot
    requires map { IsSoundMap glance.now }
    requires first { HasFace (tables_of glance.now) first }
    requires free { IsVertexAt glance.now.graph point.now None }
    ensures spot { IsSpotOf glance.now.graph (tables_of glance.now) point.now result }
    ensures looks { (u : _) × IsUpright glance.now point.now downward first u × (steps.new ≤ steps.old + upright_size glance.now point.now first u) }
{
    let mut face = first;
    let mut descent = Descent {
        downward,
        lowest: None,
        entry: None,
    };
    'faces: loop {
        match look_round(glance, face, point, &descent, steps) {
            Round::At(spot) => return spot,
            Round::Out(below, lowest) => {
                let dart = dart_above(&lowest);
                let under = face_beside(glance, face, dart);
                if under == face {
                    return climb_free(glance, below, point, steps).0;
                }
                face = under;
                descent = Descent {
                    downward,
                    lowest,
                    entry: dart_across(glance, dart),
                };
            }
        }
    }
}

/// Where the point of a course lies, at which no vertex is, by a walk from any face.
///
/// Along the horizontal it leaves each face at the last of its crossings with it before the vertical of the point; down along the
/// vertical, below the lowest edge above the point; and where no edge leads out of the face so, it goes up from the highest edge below
/// the point. It takes no memory.
pub fn walk_from<L: Ledger>(
    glance: &Glance,
    first: FaceId,
    course: &Course,
    steps: &mut Steps<L>,
) -> Spot
    requires map { IsSoundMap glance.now }
    requires first { HasFace (tables_of glance.now) first }
    requires free { IsVertexAt glance.now.graph course.now.point None }
    ensures spot { IsSpotOf glance.now.graph (tables_of glance.now) course.now.point result }
    ensures looks { (w : _) × (w.start ≡ first) × IsWay glance.now course.now w × (steps.new ≤ steps.old + way_size glance.now course.now.point w) }
{
    let face = go_along(glance, first, course, steps);
    go_upright(glance, face, &course.point, course.downward, steps)
}
