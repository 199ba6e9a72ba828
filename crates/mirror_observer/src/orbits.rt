ghost use Rattle.std.specs.Prelude.{◌≡◌};
ghost use Rattle.slab_laws.specs.View.{HasDart};
ghost use Rattle.arr_notes.specs.FaceWriters.{orbit_on};
ghost use Rattle.arr_notes.specs.NamedRows.{edit};
ghost use Rattle.mirror_observer.specs.FaceTables.{faces_in, orbit_rows, AreDartsSound, AreRowsOfDarts};
ghost use Rattle.mirror_observer.specs.Tables.{darts_of};

use crate::darts::{entry_of, next_of};
use crate::faces::FaceTables;
use crate::tables::DartEntry;
use slab_laws::{CycleId, DartId};
use std::collections::BTreeMap;

// The dart is on the cycle, if it is on one.
fn put_dart(cycle_of: &mut BTreeMap<usize, CycleId>, d: DartId, cycle: CycleId)
    ensures { cycle_of.new.entries ≡ edit d.0 (λ c. cycle) cycle_of.old.entries }
{
    if let Some(entry) = cycle_of.get_mut(&d.0) {
        *entry = cycle;
    }
}

// The darts of the orbit of a dart are on the cycle: from each to the next, until the first comes again.
fn put_orbit(
    cycle_of: &mut BTreeMap<usize, CycleId>,
    darts: &BTreeMap<usize, DartEntry>,
    d: DartId,
    cycle: CycleId,
)
    requires sound { AreDartsSound darts.now.entries }
    requires dart { HasDart (darts_of darts.now.entries) d }
    requires rows { AreRowsOfDarts darts.now.entries cycle_of.old.entries }
    ensures { cycle_of.new.entries ≡ orbit_rows (darts_of darts.now.entries) d cycle cycle_of.old.entries }
{
    let mut dart = d;
    'orbit: loop {
        put_dart(cycle_of, dart, cycle);
        dart = next_of(darts, dart);
        if dart == d {
            return;
        }
    }
}

impl FaceTables {
    // The darts of the orbit of a dart are on the cycle; a name without an entry is on no orbit.
    pub(crate) fn set_orbit(
        &mut self,
        darts: &BTreeMap<usize, DartEntry>,
        d: DartId,
        cycle: CycleId,
    )
        requires sound { AreDartsSound darts.now.entries }
        requires rows { AreRowsOfDarts darts.now.entries (faces_in self.old).cycle_of }
        ensures { faces_in self.new ≡ orbit_on (darts_of darts.now.entries) d cycle (faces_in self.old) }
    {
        if entry_of(darts, d).is_some() {
            put_orbit(&mut self.cycle_of, darts, d, cycle);
        }
    }
}
