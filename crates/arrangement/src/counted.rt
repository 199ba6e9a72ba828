ghost use Rattle.std.specs.Prelude.{◌≡◌, ◌<◌, ◌∷◌, [], length, IfOk, OnErr};
ghost use Rattle.edit_steps.specs.Edits.{Insert};
ghost use Rattle.edit_steps.specs.Refusals.{IsAnswerFor};
ghost use Rattle.dcel_records.specs.RecordsView.{tables_of};
ghost use Rattle.dcel_records.specs.SoundMaps.{IsMapAtRest};
ghost use Rattle.face_location.specs.Spots.{IsSpotOf};
ghost use Rattle.curve_history.specs.Past.{SameLayer, SameCurves};
ghost use Rattle.told_steps.specs.RecordLayers.{IsLayer};
ghost use Rattle.told_steps.specs.ToldEdits.{AreWatched, IsToldEdit};
ghost use Rattle.told_steps.specs.LayerEdits.{IsAfter};
ghost use Rattle.segment_insert.specs.Insertion.{insert_said, refusal_at, refusal_of_sides};
ghost use Rattle.path_zone.specs.PathZone.{AreStarts};
ghost use Rattle.observer_bus.specs.Rows.{bus_row};

use curve_history::History;
use dcel_records::{Records, Spot};
use exact_plane::{Path, Segment};
use observer_bus::Bus;
use segment_insert::{InsertError, insert, insert_path};
use slab_laws::CurveId;
use std::alloc::Global;
use std::sync::ledger::{Blank, Ledger};
use work_steps::Steps;

/// The insertion with a counter of its own, which takes no memory.
pub(crate) fn insert_counted<L: Ledger>(
    blank: Blank,
    alloc: Global,
    records: &mut Records,
    history: &mut History,
    bus: &mut Bus,
    curves: u32,
    pieces: u32,
    start: Spot,
    segment: &Segment,
) -> Result<CurveId, InsertError>
    requires name { blank.name ≡ L.name }
    requires parts { blank.parts ≡ L.parts }
    requires some { 0 < L.parts }
    requires layer { IsLayer records.old.graph history.old }
    requires map { IsMapAtRest records.old }
    requires watched { AreWatched records.old history.old (bus_row Observer-dyn bus.old) }
    requires start { IsSpotOf records.old.graph (tables_of records.old) segment.now.lower start }
    ensures layer { IsLayer records.new.graph history.new }
    ensures map { IsMapAtRest records.new }
    ensures watched { AreWatched records.new history.new (bus_row Observer-dyn bus.new) }
    ensures number { IfOk result (λ c. c.0 ≡ history.old.next) }
    ensures edit { IfOk result (λ c. IsAfter (Insert c.0 (segment.now ∷ [])) records.old history.old records.new history.new) }
    ensures told { IfOk result (λ c. IsToldEdit (Insert c.0 (segment.now ∷ [])) records.old history.old (bus_row Observer-dyn bus.old) records.new history.new (bus_row Observer-dyn bus.new)) }
    ensures refused { IsAnswerFor insert_said (refusal_at curves pieces records.old history.old) result }
    ensures graph { OnErr result (records.new.graph ≡ records.old.graph) }
    ensures tables { OnErr result (tables_of records.new ≡ tables_of records.old) }
    ensures same_layer { OnErr result (SameLayer history.old history.new) }
    ensures same_curves { OnErr result (SameCurves history.old history.new) }
    ensures untold { OnErr result (bus_row Observer-dyn bus.new ≡ bus_row Observer-dyn bus.old) }
{
    let mut steps = Steps::<L>::new(blank);
    insert(
        alloc, records, history, bus, curves, pieces, start, segment, &mut steps,
    )
}

/// The insertion of a path, so counted.
pub(crate) fn insert_path_counted<L: Ledger>(
    blank: Blank,
    alloc: Global,
    records: &mut Records,
    history: &mut History,
    bus: &mut Bus,
    curves: u32,
    pieces: u32,
    starts: &[Spot],
    path: &Path,
) -> Result<CurveId, InsertError>
    requires name { blank.name ≡ L.name }
    requires parts { blank.parts ≡ L.parts }
    requires some { 0 < L.parts }
    requires layer { IsLayer records.old.graph history.old }
    requires map { IsMapAtRest records.old }
    requires watched { AreWatched records.old history.old (bus_row Observer-dyn bus.old) }
    requires starts { AreStarts records.old.graph (tables_of records.old) path.now starts.now }
    ensures layer { IsLayer records.new.graph history.new }
    ensures map { IsMapAtRest records.new }
    ensures watched { AreWatched records.new history.new (bus_row Observer-dyn bus.new) }
    ensures number { IfOk result (λ c. c.0 ≡ history.old.next) }
    ensures edit { IfOk result (λ c. IsAfter (Insert c.0 path.now) records.old history.old records.new history.new) }
    ensures told { IfOk result (λ c. IsToldEdit (Insert c.0 path.now) records.old history.old (bus_row Observer-dyn bus.old) records.new history.new (bus_row Observer-dyn bus.new)) }
    ensures refused { IsAnswerFor insert_said (refusal_of_sides (length path.now) curves pieces records.old history.old) result }
    ensures graph { OnErr result (records.new.graph ≡ records.old.graph) }
    ensures tables { OnErr result (tables_of records.new ≡ tables_of records.old) }
    ensures same_layer { OnErr result (SameLayer history.old history.new) }
    ensures same_curves { OnErr result (SameCurves history.old history.new) }
    ensures untold { OnErr result (bus_row Observer-dyn bus.new ≡ bus_row Observer-dyn bus.old) }
{
    let mut steps = Steps::<L>::new(blank);
    insert_path(
        alloc, records, history, bus, curves, pieces, starts, path, &mut steps,
    )
}
