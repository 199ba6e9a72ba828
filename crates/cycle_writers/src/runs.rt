ghost use Rattle.std.specs.Prelude.{◌≡◌};
ghost use Rattle.slab_laws.specs.FacesSound.{lead_in};
ghost use Rattle.slab_laws.specs.Sound.{IsGraphSound};
ghost use Rattle.slab_laws.specs.View.{HasCycle, HasDart};
ghost use Rattle.arr_notes.specs.FaceWriters.{orbit_on};
ghost use Rattle.dcel_records.specs.RecordsView.{graph_part};
ghost use Rattle.face_steps.specs.RowsWritten.{AreDartRows, all_on};
ghost use Rattle.cycle_writers.specs.Runs.{IsRun};

use dcel_records::Records;
use slab_laws::{CycleId, DartId, Darts};

/// The darts from one on, along its cycle up to another one, which is left out, are put on a cycle. Where both are one dart,
/// that is the whole cycle.
pub fn put_run(records: &mut Records, from: DartId, to: DartId, cycle: CycleId)
    requires sound { IsGraphSound records.old.graph }
    requires from { HasDart records.old.graph from }
    requires to { HasDart records.old.graph to }
    requires cycle { HasCycle records.old.faces.tables cycle }
    requires together { lead_in records.old.graph from ≡ lead_in records.old.graph to }
    ensures graph { graph_part records.new ≡ graph_part records.old }
    ensures run { (ds : _) × IsRun records.old.graph from to ds
        × (records.new.faces ≡ record records.old.faces { tables = all_on ds cycle records.old.faces.tables }) }
{
    let mut dart = from;
    'run: loop {
        records.set_cycle(dart, cycle);
        dart = records.next(dart);
        if dart == to {
            return;
        }
    }
}

/// All darts of the orbit of a dart are put on a cycle.
pub fn put_orbit(records: &mut Records, d: DartId, cycle: CycleId)
    requires sound { IsGraphSound records.old.graph }
    requires dart { HasDart records.old.graph d }
    requires cycle { HasCycle records.old.faces.tables cycle }
    requires rows { AreDartRows records.old.graph records.old.faces.tables }
    ensures graph { graph_part records.new ≡ graph_part records.old }
    ensures faces { records.new.faces ≡ record records.old.faces { tables = orbit_on records.old.graph d cycle records.old.faces.tables } }
{
    put_run(records, d, d, cycle);
}
