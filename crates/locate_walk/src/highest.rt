ghost use Rattle.std.specs.Prelude.{◌≡◌, Some};
ghost use Rattle.exact_plane.specs.WholeParts.{whole_parts};
ghost use Rattle.slab_laws.specs.View.{HasDart};
ghost use Rattle.counted_looks.specs.Looks.{IsLookOf};
ghost use Rattle.counted_looks.specs.declared.boundary_part.BoundaryPart.TheVariants.{Dart};
ghost use Rattle.dcel_records.specs.SoundMaps.{IsSoundMap};
ghost use Rattle.dcel_records.specs.declared.spot.Spot.TheVariants.{Edge};
ghost use Rattle.locate_walk.specs.Looks.{higher_edge, is_best, is_beyond, is_settled, taken, HasLooked, IsBelowOrNone};

use crate::found::{EdgeBelow, Found, find};
use counted_looks::{BoundaryPart, Glance, Glimpse, Looker};
use dcel_records::Spot;
use edge_predicates::is_above;
use exact_plane::{BoundingBox, Point, WholeParts};
use slab_laws::{CycleId, DartId, FaceId};
use std::sync::ledger::Ledger;
use work_steps::Steps;

/// What looks at the darts on the boundary of a face find for a point: where the point is, once it was met, and until then the
/// highest edge that the point sees below it.
#[derive(Drop)]
pub struct Highest<'a, 'r> {
    pub glance: &'a Glance<'r>,
    pub face: FaceId,
    pub point: Point,
    pub hit: Option<Spot>,
    pub best: Option<EdgeBelow>,
}

// The highest edge so far gives way to one that is above it.
fn raise(best: &mut Option<EdgeBelow>, edge: EdgeBelow)
    ensures { best.new ≡ Some (higher_edge best.old edge) }
{
    if let Some(other) = &*best {
        if !is_above(&edge.edge, &other.edge) {
            return;
        }
    }
    *best = Some(edge);
}

// Whether it is the dart along the highest edge so far.
#[inline(always)]
fn is_best(best: &Option<EdgeBelow>, dart: DartId) -> bool
    ensures { result ≡ is_best best.now dart }
{
    match best {
        Some(edge) => edge.dart == dart,
        None => false,
    }
}

// Whether whole parts tell that an edge is above the point, or below both ends of the highest edge so far: then it is no higher one that
// the point sees below it. They are asked once there is such an edge.
#[inline(always)]
fn is_beyond(point: &Point, best: &Option<EdgeBelow>, looked: &Glimpse) -> bool
    ensures { result ≡ is_beyond point.now best.now (whole_parts looked.now.source) (whole_parts looked.now.target) }
{
    match best {
        Some(edge) => {
            let at = point.whole_parts();
            let lowest = BoundingBox::of(&edge.edge).least.y;
            looked.is_outside(&BoundingBox {
                least: WholeParts { x: at.x, y: lowest },
                greatest: at,
            })
        }
        None => false,
    }
}

impl<'a, 'r> Highest<'a, 'r> {
    /// Whether a closer look at a dart would change nothing: the point was met, or the dart is that along the highest edge so far,
    /// which would be found again.
    #[inline(always)]
    pub fn is_settled(&self, dart: DartId) -> bool
        ensures { result ≡ is_settled self.now dart }
    {
        self.hit.is_some() || is_best(&self.best, dart)
    }

    // What a dart tells that whole parts don't rule out. A function of its own, so that the look, which is inlined, stays short.
    #[inline(never)]
    fn look_closely(&mut self, dart: DartId, looked: &Glimpse)
        requires map { IsSoundMap self.old.glance.now }
        requires dart { HasDart self.old.glance.now.graph dart }
        requires looked { IsLookOf self.old.glance.now.graph (Edge dart) looked.now }
        requires best { IsBelowOrNone self.old.glance.now.graph self.old.point self.old.best }
        ensures { HasLooked self.old (Dart dart) self.new }
    {
        self.point.laws();
        if self.is_settled(dart) {
            return;
        }
        if is_beyond(&self.point, &self.best, looked) {
            return;
        }
        let found = find(self.glance, self.face, dart, looked, &self.point);
        self.take(found);
    }

    /// Keeps what was found.
    pub fn take(&mut self, found: Found)
        ensures { self.new ≡ taken self.old found }
    {
        match found {
            Found::At(spot) => self.hit = Some(spot),
            Found::Below(edge) => raise(&mut self.best, edge),
            Found::Past => {}
        }
    }
}

impl<'a, 'r> Looker<Glance<'r>> for Highest<'a, 'r> {
    ghost use Rattle.locate_walk.specs.Looks.{MayLook, HasSeenDart};

    ghost may_look = { MayLook };

    ghost has_seen = { HasSeenDart };

    // The whole parts of its ends rule out nearly each dart. A closer look goes to the looker's own records, of which the faces are known
    // too: they have the graph that is walked on. An isolated vertex isn't looked at: the point isn't there.
    #[inline(always)]
    fn look<L: Ledger>(&mut self, sight: &Glance<'r>, at: BoundaryPart, steps: &mut Steps<L>) {
        match at {
            BoundaryPart::Dart(dart) => {
                let looked = sight.glimpse(dart, steps);
                if looked.is_left_or_right_of(self.point.whole_parts()) {
                    return;
                }
                self.look_closely(dart, &looked);
            }
            BoundaryPart::Isolated(_) => steps.tick(),
        }
    }

    // A cycle whose box is to the left or right of the point, or above it, has no dart that the point is on or sees below it.
    #[inline(always)]
    fn look_at_cycle<L: Ledger>(
        &mut self,
        sight: &Glance<'r>,
        cycle: CycleId,
        steps: &mut Steps<L>,
    ) -> bool {
        let looked = sight.glimpse_cycle(cycle, steps);
        let at = self.point.whole_parts();
        if looked.is_beside_or_above(at) {
            return true;
        }
        if !looked.first.is_left_or_right_of(at) {
            self.look_closely(looked.dart, &looked.first);
        }
        false
    }
}
