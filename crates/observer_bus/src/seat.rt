ghost use Rattle.std.specs.Prelude.{◌≡◌, ◌≢◌, ◌↔◌, IsTrue, IsOk, IfOk, OnOk, OnErr, IfErr, true, false, Bool, Option, ℕ, None, Some};
ghost use Rattle.arr_notes.specs.CurvedView.{IsSoundView, view_by};
ghost use Rattle.arr_notes.specs.Notes.{one_less};

use crate::snapshot::snapshot;
use arr_notes::{Answer, Note, Observer};
use no_memory::NoMemory;
use slab_laws::{Curved, Faced};
use std::alloc::Global;

/// A seated observer, or one whose join is planned.
#[derive(Drop)]
pub struct Seat {
    name: u32,
    join: Option<u32>,
    leave: Option<u32>,
    observer: Box<dyn Observer>,
    ghost join_counts: { join ≢ Some 0 },
    ghost leave_counts: { leave ≢ Some 0 },
}

/// What becomes of a seat in a round.
#[derive(Clone, Copy)]
pub enum Fate {
    /// It was told the note and stays.
    Told,
    /// It was told the last note that it counts, and leaves.
    ToldLast,
    /// It leaves by its plan, untold.
    LeftUntold,
    /// It joins by its plan, with a snapshot.
    Joined,
    /// Its join comes in a later round.
    Waits,
    /// There was no memory for it.
    Lost,
}

impl Fate {
    ghost use Rattle.observer_bus.specs.Seats.{stays};

    /// Whether the seat isn't emptied.
    pub(crate) fn stays(self) -> bool
        ensures { result ≡ stays self }
    {
        match self {
            Fate::Told | Fate::Joined | Fate::Waits => true,
            Fate::ToldLast | Fate::LeftUntold | Fate::Lost => false,
        }
    }
}

// A plan, one round nearer.
fn nearer(plan: Option<u32>) -> Option<u32>
    requires positive { plan ≢ Some 0 }
    requires later { plan ≢ Some 1 }
    ensures value { result ≡ one_less plan }
    ensures positive { result ≢ Some 0 }
{
    match plan {
        None => None,
        Some(k) => Some(k - 1),
    }
}

impl Seat {
    ghost use Rattle.arr_notes.specs.Notes.{heard_after, IsHeld, left_after};
    ghost use Rattle.arr_notes.specs.declared.note.Note.TheVariants.{Snapshot};
    ghost use Rattle.arr_notes.specs.CurvedView.{view_text};
    ghost use Rattle.observer_bus.specs.Seats.{stays, fate_seated, IsFateOf, IsGone, IsKept, IsLost, IsTold, IsToldLast, IsRoundNote, HasJoined, MayHear};
    ghost use Rattle.observer_bus.specs.Rows.{newcomer, row, IsHandedBack};
    ghost use Rattle.observer_bus.specs.Calls.{is_seated_as, leaving, IsHeldSound, IsPlaced};

    pub(crate) fn name(&self) -> u32
        ensures { result ≡ self.now.name }
    {
        self.name
    }

    /// One turn in a round.
    pub(crate) fn turn<R: Curved + Faced>(
        &mut self,
        alloc: Global,
        records: &R,
        note: &Note,
    ) -> Fate
        requires fits { MayHear note.now (row Observer-dyn self.old) }
        requires sound { IsSoundView (view_by (R.graph records.now) (R.faces records.now) (R.curve_list records.now)) }
        requires round { IsRoundNote note.now }
        ensures fate { IsFateOf result (row Observer-dyn self.old) }
        ensures kept { IsTrue (stays result) → IsKept note.now (view_by (R.graph records.now) (R.faces records.now) (R.curve_list records.now)) result
            (row Observer-dyn self.old) (row Observer-dyn self.new) }
        ensures gone { stays result ≡ false → IsGone note.now result (row Observer-dyn self.old) (row Observer-dyn self.new) }
    {
        match self.join {
            None => self.hear(note),
            Some(1) => match self.welcome(alloc, records) {
                Ok(()) => {
                    self.join = None;
                    Fate::Joined
                }
                Err(NoMemory) => Fate::Lost,
            },
            Some(k) => {
                self.join = Some(k - 1);
                Fate::Waits
            }
        }
    }

    // The turn of a seated observer.
    fn hear(&mut self, note: &Note) -> Fate
        requires seated { self.old.join ≡ None }
        requires fits { MayHear note.now (row Observer-dyn self.old) }
        requires round { IsRoundNote note.now }
        ensures fate { IsFateOf result (row Observer-dyn self.old) }
        ensures stays { IsTrue (stays result) → result ≡ Fate.Told }
        ensures untold { result ≡ Fate.LeftUntold → row Observer-dyn self.new ≡ row Observer-dyn self.old }
        ensures told { result ≡ Fate.Told → IsTold note.now (row Observer-dyn self.old) (row Observer-dyn self.new) }
        ensures last { result ≡ Fate.ToldLast → IsToldLast note.now (row Observer-dyn self.old) (row Observer-dyn self.new) }
        ensures lost { result ≡ Fate.Lost → IsLost (row Observer-dyn self.old) (row Observer-dyn self.new) }
    {
        if self.leave == Some(1) {
            return Fate::LeftUntold;
        }
        self.leave = nearer(self.leave);
        match self.observer.heed(note) {
            Answer::Stay => Fate::Told,
            Answer::Leave => Fate::ToldLast,
            Answer::NoMemory => Fate::Lost,
        }
    }

    // Hands the observer a snapshot.
    fn welcome<R: Curved + Faced>(&mut self, alloc: Global, records: &R) -> Result<(), NoMemory>
        requires { IsSoundView (view_by (R.graph records.now) (R.faces records.now) (R.curve_list records.now)) }
        ensures name { self.new.name ≡ self.old.name }
        ensures join { self.new.join ≡ self.old.join }
        ensures leave { self.new.leave ≡ self.old.leave }
        ensures tells { tells self.new.observer ≡ tells self.old.observer }
        ensures left { left self.new.observer ≡ left self.old.observer }
        ensures back { OnErr result (IsHandedBack Observer-dyn self.old.observer self.new.observer) }
        ensures heard { OnOk result (heard self.new.observer ≡ heard_after (heard self.old.observer) (Snapshot (view_by (R.graph records.now) (R.faces records.now) (R.curve_list records.now)))) }
        ensures held { OnOk result (IsTrue (tells self.old.observer) → held self.new.observer ≡ Some (view_by (R.graph records.now) (R.faces records.now) (R.curve_list records.now))) }
    {
        let note = Note::Snapshot(snapshot(alloc, records)?);
        let answer = self.observer.heed(&note);
        drop(note);
        match answer {
            Answer::Stay => Ok(()),
            _ => Err(NoMemory),
        }
    }

    /// A seat whose join may be planned, and whose observer has heard nothing here.
    pub(crate) fn planned(name: u32, observer: Box<dyn Observer>, when: Option<u32>) -> Seat
        requires { when ≢ Some 0 }
        ensures observer { result.observer ≡ observer }
        ensures row { row Observer-dyn result ≡ newcomer Observer-dyn name when observer }
    {
        Seat {
            name,
            join: when,
            leave: None,
            observer,
        }
    }

    /// A seat that joins at once, with a snapshot, or at a later round.
    pub(crate) fn placed<R: Curved + Faced>(
        alloc: Global,
        records: &R,
        name: u32,
        observer: Box<dyn Observer>,
        when: Option<u32>,
    ) -> Result<Seat, Box<dyn Observer>>
        requires when { when ≢ Some 0 }
        requires sound { IsSoundView (view_by (R.graph records.now) (R.faces records.now) (R.curve_list records.now)) }
        ensures placed { IfOk result (λ s. IsPlaced when (view_by (R.graph records.now) (R.faces records.now) (R.curve_list records.now))
            (newcomer Observer-dyn name when observer) (row Observer-dyn s)) }
        ensures back { IfErr result (λ b. IsHandedBack Observer-dyn observer b) }
    {
        let mut seat = Seat::planned(name, observer, when);
        match when {
            Some(_) => Ok(seat),
            None => match seat.welcome(alloc, records) {
                Ok(()) => Ok(seat),
                Err(NoMemory) => Err(seat.into_observer()),
            },
        }
    }

    fn into_observer(self) -> Box<dyn Observer>
        ensures { result ≡ self.observer }
    {
        self.observer
    }

    /// Whether an observer of the name is seated here.
    pub(crate) fn is_seat_of(&self, name: u32) -> bool
        ensures { result ≡ is_seated_as name self.now.join self.now.name }
    {
        self.join.is_none() && self.name == name
    }

    /// Plans to leave in a round, in place of an earlier plan.
    pub(crate) fn plan_leave(&mut self, when: u32)
        requires { when ≢ 0 }
        ensures { row Observer-dyn self.new ≡ leaving when (row Observer-dyn self.old) }
    {
        self.leave = Some(when);
    }

    /// The observer's report.
    pub(crate) fn report(&self) -> Result<Vec<u8>, NoMemory>
        requires { (w : _) → IsTrue (tells self.now.observer) → IsHeld (held self.now.observer) w → IsSoundView w }
        ensures { IfOk result (λ b. (w : _) → IsTrue (tells self.now.observer) → IsHeld (held self.now.observer) w → b.items ≡ view_text w) }
    {
        self.observer.report()
    }
}
