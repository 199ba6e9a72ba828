ghost use Rattle.std.specs.Prelude.{◌+◌, ◌≤◌, None};
ghost use Rattle.slab_laws.specs.View.{HasFace};
ghost use Rattle.counted_looks.specs.Boundaries.{boundary_size};
ghost use Rattle.dcel_records.specs.RecordsView.{tables_of};
ghost use Rattle.dcel_records.specs.SoundMaps.{IsSoundMap};
ghost use Rattle.dcel_records.specs.Spots.{IsVertexAt};
ghost use Rattle.locate_walk.specs.Looks.{IsBelowOrNone};
ghost use Rattle.locate_walk.specs.Rounds.{IsRound};

use crate::found::EdgeBelow;
use crate::highest::Highest;
use counted_looks::{Glance, look_at_cycles};
use dcel_records::Spot;
use exact_plane::Point;
use slab_laws::FaceId;
use std::sync::ledger::Ledger;
use work_steps::Steps;

/// What one round of a face's boundary finds for a point.
#[derive(Clone, Copy)]
pub enum Round {
    /// The point is met, inside an edge.
    At(Spot),
    /// It isn't; the highest edge that the point sees below it on the boundary, if that is higher than the one before.
    Over(Option<EdgeBelow>),
}

/// Looks at the darts on the boundary of a face once round, for a point at which no vertex is and the highest edge that it sees below
/// it, which is `last` at first.
pub fn look_round<L: Ledger>(
    glance: &Glance,
    face: FaceId,
    point: &Point,
    last: Option<EdgeBelow>,
    steps: &mut Steps<L>,
) -> Round
    requires map { IsSoundMap glance.now }
    requires face { HasFace (tables_of glance.now) face }
    requires free { IsVertexAt glance.now.graph point.now None }
    requires last { IsBelowOrNone glance.now.graph point.now last }
    ensures round { IsRound glance.now.graph (tables_of glance.now) point.now face last result }
    ensures count { steps.new ≤ steps.old + boundary_size glance.now.graph (tables_of glance.now) face }
{
    point.laws();
    // This tells that each face lists what is on its boundary.
    glance.laws();
    let mut highest = Highest {
        glance,
        face,
        point: *point,
        hit: None,
        best: last,
    };
    look_at_cycles(&mut highest, glance, face, steps);
    match highest.hit {
        Some(spot) => Round::At(spot),
        None => Round::Over(highest.best),
    }
}
