ghost use Rattle.std.specs.Prelude.{◌≡◌, true, All};
ghost use Rattle.slab_laws.specs.FacesSound.{IsSound};
ghost use Rattle.arr_notes.specs.CurvedView.{CurvedView};
ghost use Rattle.arr_notes.specs.Curves.{AreCurvesOf};
ghost use Rattle.arr_notes.specs.declared.note.Note.TheVariants.{Before, After};
ghost use Rattle.curve_history.specs.Past.{curves_on};
ghost use Rattle.dcel_records.specs.RecordsView.{tables_of};
ghost use Rattle.dcel_records.specs.SoundMaps.{map_of};
ghost use Rattle.observer_bus.specs.Rounds.{AreInRound};
ghost use Rattle.observer_bus.specs.Rows.{bus_row};
ghost use Rattle.observer_bus.specs.Seats.{Holds, IsRoundNote, Leads, MayHear};
ghost use Rattle.told_steps.specs.ToldRuns.{seen, AreInStep, IsJustChanged};

use arr_notes::{Change, Intent, Note};
use curve_history::{Drawn, History};
use dcel_records::Records;
use observer_bus::Bus;
use std::alloc::Global;

// One round of observers, over the records as they stand: they need not be a map at rest, since a change may carry the lists of what moves.
#[inline(never)]
fn tell(alloc: Global, records: &Records, history: &History, bus: &mut Bus, note: &Note)
    requires sound { IsSound records.now.graph (tables_of records.now) }
    requires curves { AreCurvesOf records.now.graph (curves_on history.now) }
    requires settled { (bus_row Observer-dyn bus.old).settled ≡ true }
    requires fits { All (MayHear note.now) (bus_row Observer-dyn bus.old).seats }
    requires counted { IsRoundNote note.now }
    ensures round { AreInRound note.now (seen (map_of records.now) (curves_on history.now))
        (bus_row Observer-dyn bus.old)
        (bus_row Observer-dyn bus.new) }
    ensures holds { (v : CurvedView) → All (Holds v) (bus_row Observer-dyn bus.old).seats → Leads v note.now (seen (map_of records.now) (curves_on history.now)) →
        All (Holds (seen (map_of records.now) (curves_on history.now))) (bus_row Observer-dyn bus.new).seats }
{
    let drawn = Drawn::new(records, history);
    bus.say(alloc, &drawn, note);
}

/// Observers are told what is about to change.
// Where there are none, which is the most usual, no note is made.
#[inline(always)]
pub(crate) fn tell_before(
    alloc: Global,
    records: &Records,
    history: &History,
    bus: &mut Bus,
    intent: Intent,
)
    requires in_step { AreInStep (map_of records.now) (curves_on history.now)
        (bus_row Observer-dyn bus.old) }
    ensures round { AreInRound (Before intent) (seen (map_of records.now) (curves_on history.now))
        (bus_row Observer-dyn bus.old)
        (bus_row Observer-dyn bus.new) }
    ensures in_step { AreInStep (map_of records.now) (curves_on history.now)
        (bus_row Observer-dyn bus.new) }
{
    if bus.is_empty() {
        return;
    }
    tell(alloc, records, history, bus, &Note::Before(intent));
}

// The change of a note after it.
fn change_of(note: Note) -> Change
    requires { (c : _) × (note ≡ After c) }
    ensures { note ≡ After result }
{
    match note {
        Note::After(change) => change,
        Note::Before(_) | Note::Snapshot(_) => unreachable!(),
    }
}

/// Observers are told what has just changed; the change comes back, since it may have lists that the records wait for.
// Where there are none no note is made of it.
#[inline(always)]
pub(crate) fn tell_after(
    alloc: Global,
    records: &Records,
    history: &History,
    bus: &mut Bus,
    change: Change,
) -> Change
    requires changed { IsJustChanged change (map_of records.now) (curves_on history.now)
        (bus_row Observer-dyn bus.old) }
    ensures told { result ≡ change }
    ensures round { AreInRound (After change) (seen (map_of records.now) (curves_on history.now))
        (bus_row Observer-dyn bus.old)
        (bus_row Observer-dyn bus.new) }
    ensures in_step { AreInStep (map_of records.now) (curves_on history.now)
        (bus_row Observer-dyn bus.new) }
{
    if bus.is_empty() {
        return change;
    }
    let note = Note::After(change);
    tell(alloc, records, history, bus, &note);
    change_of(note)
}
