ghost use Rattle.std.specs.Prelude.{◌≡◌};
ghost use Rattle.slab_laws.specs.Sound.{IsGraphSound};
ghost use Rattle.slab_laws.specs.View.{HasDart, next_in, twin_in};
ghost use Rattle.dcel_records.specs.RecordsView.{IsSpare};
ghost use Rattle.arr_notes.specs.FaceWriters.{off_cycles};
ghost use Rattle.arr_notes.specs.Step.{remove_edge};

use crate::rounds::rest_of;
use dcel_records::Records;
use rotation_order::previous_around_source;
use slab_laws::{DartId, Darts};

/// The names of an edge that went: that of the twin of its dart `d`, and the darts that came before `d` and before the twin.
#[derive(Clone, Copy)]
pub(crate) struct UnlinkNames {
    pub(crate) m: DartId,
    pub(crate) into_d: DartId,
    pub(crate) into_m: DartId,
}

/// The edge of the dart goes, and the darts round both its ends close up; who came before its darts (CGAL manual,
/// `remove_edge`).
pub(crate) fn close_up(records: &mut Records, d: DartId) -> UnlinkNames
    requires sound { IsGraphSound records.old.graph }
    requires dart { HasDart records.old.graph d }
    ensures twin { result.m ≡ twin_in records.old.graph d }
    ensures before_d { HasDart records.old.graph result.into_d × (next_in records.old.graph result.into_d ≡ d) }
    ensures before_m { HasDart records.old.graph result.into_m × (next_in records.old.graph result.into_m ≡ twin_in records.old.graph d) }
    ensures graph { records.new.graph ≡ remove_edge records.old.graph d result.m }
    ensures sound { IsGraphSound records.new.graph }
    ensures spare { IsSpare records.old records.new 0 2 }
    ensures faces { records.new.faces ≡ record records.old.faces { tables = off_cycles result.m (off_cycles d records.old.faces.tables) } }
{
    let m = records.twin(d);
    // A dart that is alone at its end is the dart before itself; what is written there is then what stood there.
    let before_d = previous_around_source(records, d);
    let before_m = previous_around_source(records, m);
    let into_d = records.twin(before_d);
    let into_m = records.twin(before_m);
    let after_d = records.next(m);
    let after_m = records.next(d);
    let rest_d = rest_of(records, d);
    let rest_m = rest_of(records, m);
    records.set_next(into_d, after_d);
    records.set_next(into_m, after_m);
    records.remove_pair(d, rest_d, rest_m);
    UnlinkNames { m, into_d, into_m }
}
