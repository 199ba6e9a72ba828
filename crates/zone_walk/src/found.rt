//! The points that a search has found.
ghost use Rattle.std.specs.Prelude.{◌≡◌, ◌⊎◌, ◌∷◌, [], true, IfSome, IfNone, OnOk};
ghost use Rattle.std.specs.Map.{keys_of};
ghost use Rattle.plane_graphs.specs.Ascending.{Member};
ghost use Rattle.plane_graphs.specs.Line.{precedes};
ghost use Rattle.zone_walk.specs.FoundPoints.{entries_in, HasOthers, IsFirstOf};
ghost use Rattle.zone_walk.specs.Searches.{AreKept};

use crate::plan::Meeting;
use dcel_records::Spot;
use exact_plane::Point;
use no_memory::NoMemory;
use std::alloc::Global;
use std::cmp::Ordering;
use std::collections::BTreeMap;

/// Points that were found, each with the vertex or edge at which it is. Through most faces a segment goes to one point, which is kept
/// apart: so no node of a tree is looked for, nor written.
#[derive(Drop)]
pub(crate) struct FoundPoints {
    pub(crate) alone: Option<Meeting>,
    pub(crate) others: BTreeMap<Point, Spot>,
}

// Takes the first of others out.
fn pop_other(others: &mut BTreeMap<Point, Spot>) -> Option<Meeting>
    ensures first { IfSome result (λ m. others.old.entries ≡ (m.point, m.spot) ∷ others.new.entries) }
    ensures before { IfSome result (λ m. (r : _) → Member r (keys_of others.new.entries) → precedes m.point r ≡ true) }
    ensures none { IfNone result ((others.old.entries ≡ []) × (others.new.entries ≡ [])) }
{
    // Its length tells that its keys ascend.
    let _count = others.len();
    match others.pop_first() {
        Some(first) => Some(Meeting {
            point: first.0,
            spot: first.1,
        }),
        None => None,
    }
}

impl FoundPoints {
    /// None. It takes no memory.
    pub(crate) fn new(alloc: Global) -> FoundPoints
        ensures { entries_in result ≡ [] }
    {
        FoundPoints {
            alone: None,
            others: BTreeMap::new(alloc),
        }
    }

    /// Keeps a point with its spot.
    ///
    /// # Errors
    ///
    /// There was no memory for it. Then nothing is changed.
    pub(crate) fn insert(&mut self, point: Point, spot: Spot) -> Result<(), NoMemory>
        ensures kept { AreKept (entries_in self.old) (entries_in self.new) }
        ensures there { OnOk result (Member point (keys_of (entries_in self.new))) }
        ensures only { (p : _) (at : _) → Member (p, at) (entries_in self.new) → Member (p, at) (entries_in self.old) ⊎ ((p ≡ point) × (at ≡ spot)) }
    {
        match self.alone {
            None => self.alone = Some(Meeting { point, spot }),
            Some(_) => {
                self.others.insert(point, spot)?;
            }
        }
        Ok(())
    }

    /// Takes the first point out, with its spot.
    pub(crate) fn pop_first(&mut self) -> Option<Meeting>
        ensures first { IfSome result (IsFirstOf (entries_in self.old) (entries_in self.new)) }
        ensures none { IfNone result ((entries_in self.old ≡ []) × (entries_in self.new ≡ [])) }
    {
        let Some(alone) = self.alone else {
            return pop_other(&mut self.others);
        };
        let Some(other) = pop_other(&mut self.others) else {
            self.alone = None;
            return Some(alone);
        };
        match alone.point.cmp(&other.point) {
            Ordering::Less => {
                self.alone = Some(other);
                Some(alone)
            }
            Ordering::Equal => {
                self.alone = None;
                Some(other)
            }
            Ordering::Greater => Some(other),
        }
    }

    /// Takes a point out, where it is there.
    pub(crate) fn remove(&mut self, point: &Point)
        ensures { HasOthers point.now (entries_in self.old) (entries_in self.new) }
    {
        self.others.remove(point);
        if let Some(alone) = self.alone {
            if alone.point == *point {
                self.alone = None;
            }
        }
    }
}
