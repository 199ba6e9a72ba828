//! The lowest edge above a point, below which its way goes down.
ghost use Rattle.std.specs.Prelude.{◌≡◌};
ghost use Rattle.dcel_records.specs.SoundMaps.{IsSoundMap};
ghost use Rattle.dcel_records.specs.RecordsView.{tables_of};
ghost use Rattle.locate_walk.specs.Finds.{IsFoundAtDart};
ghost use Rattle.locate_walk.specs.Passages.{IsPassage};
ghost use Rattle.locate_walk.specs.declared.found.Found.TheVariants.{Past};
ghost use Rattle.locate_landmarks.specs.Looks.{IsDrawnLook};
ghost use Rattle.locate_landmarks.specs.Lowest.{IsAbove, IsLowered};

use crate::above::{EdgeAbove, edge_above, lower};
use counted_looks::{Glance, Glimpse};
use exact_plane::Point;
use locate_walk::Passage;
use slab_laws::DartId;

/// The way down to a point, as far as it has come.
#[derive(Clone, Copy)]
pub struct Descent {
    /// Whether edges above the point are looked for; on the way up they aren't.
    pub downward: bool,
    pub lowest: Option<EdgeAbove>,
    /// The dart below which the way came into the face: its edge is the lowest one.
    pub entry: Option<DartId>,
}

impl Descent {
    /// Keeps the edge of a dart that was looked at, at which the point isn't and below which it may be, where it is the lowest so far.
    pub fn pass(
        &mut self,
        glance: &Glance,
        point: &Point,
        dart: DartId,
        looked: &Glimpse,
        passage: Passage,
    )
        requires map { IsSoundMap glance.now }
        requires drawn { IsDrawnLook glance.now.graph dart looked.now }
        requires passage { IsPassage looked.now.source point.now looked.now.target passage }
        requires past { IsFoundAtDart glance.now.graph (tables_of glance.now) point.now dart Past }
        requires lowest { IsAbove glance.now.graph point.now self.old.lowest }
        ensures lowest { IsAbove glance.now.graph point.now self.new.lowest }
        ensures lowered { IsLowered glance.now.graph point.now self.old.downward self.old.lowest self.new.lowest }
        ensures entry { self.new.entry ≡ self.old.entry }
        ensures downward { self.new.downward ≡ self.old.downward }
    {
        point.laws();
        if !self.downward {
            return;
        }
        if let Some(edge) = edge_above(glance, point, dart, looked, passage) {
            self.lowest = Some(lower(self.lowest, edge));
        }
    }
}
