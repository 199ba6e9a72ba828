ghost use Rattle.std.specs.Prelude.{◌≡◌, ◌≢◌, Some};
ghost use Rattle.observer_bus.specs.Rows.{bus_row};
ghost use Rattle.planar_tests.specs.Calm.{IsCalm, IsReady};

use crate::observers::empty::EmptyPlane;
use crate::observers::recorder::Recorder;
use crate::observers::rounds::{after, attach, before, begin, leave, report};
use arr_notes::Observer;
use observer_bus::{AttachError, Bus, ReportError, SEATS};
use std::alloc::Global;
use std::test::Fail;

/// A call of the bus between edits, with what it has to answer.
#[derive(Clone, Copy)]
pub enum Call {
    /// An observer comes under a name, at once (round 0) or in a round; it leaves after so many notes, 0 for never, and finds no
    /// memory after so many, its snapshot included.
    Comes(u32, u32, u64, u32),
    /// One comes that keeps its notes whole, under a name, at once or in a round.
    Listens(u32, u32),
    /// One that comes under a name, at once or in a round, is refused.
    IsRefused(u32, u32, AttachError),
    /// Whether one of the name was seated.
    Leaves(u32, u32, bool),
    /// An edit begins, and these follow.
    Edit(&'static [Turn]),
    Hears(u32, &'static [u8]),
}

/// A call of the bus within an edit, with what it has to answer.
#[derive(Clone, Copy)]
pub enum Turn {
    Before,
    After,
    Leaves(u32, u32, bool),
    /// The names that joined, left and were lost so far.
    Went(&'static [u32], &'static [u32], &'static [u32]),
    /// What the observer of the name wrote.
    Hears(u32, &'static [u8]),
    /// No observer of the name is seated.
    IsGone(u32),
    /// Whether a snapshot was made since this was last asked: nothing else looks at the records.
    Looks(bool),
}

// A round that is given; 0 stands for none.
fn round_of(number: u32) -> Option<u32>
    ensures { result ≢ Some 0 }
{
    if number == 0 { None } else { Some(number) }
}

// A number of notes that is given; 0 stands for none.
fn notes_of(number: u64) -> Option<u64> {
    if number == 0 { None } else { Some(number) }
}

/// Whether one that keeps its notes whole comes with a call.
pub fn is_listening(call: &Call) -> bool {
    match call {
        Call::Listens(_, _) => true,
        _ => false,
    }
}

/// The observer that comes with a call, if one does that writes a byte a note.
pub fn recorder_of(alloc: Global, call: &Call) -> Option<Recorder> {
    match call {
        Call::Comes(_, _, notes, room) => Some(Recorder::new(alloc, notes_of(*notes), *room)),
        Call::IsRefused(_, _, _) => Some(Recorder::new(alloc, None, 9)),
        Call::Listens(_, _) => None,
        Call::Leaves(_, _, _) | Call::Edit(_) | Call::Hears(_, _) => None,
    }
}

// Whether an observer comes with a call.
fn is_coming(call: &Call) -> bool {
    match call {
        Call::Comes(_, _, _, _) | Call::Listens(_, _) => true,
        Call::IsRefused(_, _, _) => true,
        Call::Leaves(_, _, _) | Call::Edit(_) | Call::Hears(_, _) => false,
    }
}

fn has_gone(bus: &Bus, joined: &[u32], left: &[u32], lost: &[u32]) -> bool {
    let went = bus.went();
    went.joined.as_slice() == joined && went.left.as_slice() == left && went.lost.as_slice() == lost
}

// Whether what the observer of the name wrote is this.
fn hears(bus: &Bus, name: u32, wanted: &[u8]) -> bool
    requires calm { IsCalm (bus_row Observer-dyn bus.now) }
{
    match report(bus, name) {
        Ok(bytes) => bytes.as_slice() == wanted,
        Err(_) => false,
    }
}

fn is_gone(bus: &Bus, name: u32) -> bool
    requires calm { IsCalm (bus_row Observer-dyn bus.now) }
{
    match report(bus, name) {
        Err(ReportError::NoSeat) => true,
        _ => false,
    }
}

// Whether a call within an edit answers as it has to.
fn is_right(bus: &mut Bus, alloc: Global, plane: &EmptyPlane, turn: &Turn) -> bool
    requires calm { IsCalm (bus_row Observer-dyn bus.old) }
    requires ready { IsReady (bus_row Observer-dyn bus.old) }
    ensures calm { IsCalm (bus_row Observer-dyn bus.new) }
    ensures ready { IsReady (bus_row Observer-dyn bus.new) }
{
    match turn {
        Turn::Before => {
            before(bus, alloc, plane);
            true
        }
        Turn::After => {
            after(bus, alloc, plane);
            true
        }
        Turn::Leaves(name, round, wanted) => leave(bus, *name, round_of(*round)).is_ok() == *wanted,
        Turn::Went(joined, left, lost) => has_gone(bus, joined, left, lost),
        Turn::Hears(name, wanted) => hears(bus, *name, wanted),
        Turn::IsGone(name) => is_gone(bus, *name),
        Turn::Looks(wanted) => plane.was_looked_at() == *wanted,
    }
}

// An edit, whose calls answer as they have to.
fn edit(bus: &mut Bus, alloc: Global, plane: &EmptyPlane, turns: &[Turn]) -> bool
    requires calm { IsCalm (bus_row Observer-dyn bus.old) }
    ensures calm { IsCalm (bus_row Observer-dyn bus.new) }
{
    begin(bus);
    'turns: for turn in turns {
        if !is_right(bus, alloc, plane, turn) {
            return false;
        }
    }
    true
}

// Whether an observer that comes is answered as it has to be.
fn is_met(
    bus: &mut Bus,
    alloc: Global,
    plane: &EmptyPlane,
    call: &Call,
    observer: Box<dyn Observer>,
) -> bool
    requires calm { IsCalm (bus_row Observer-dyn bus.old) }
    ensures calm { IsCalm (bus_row Observer-dyn bus.new) }
{
    match call {
        Call::Comes(name, round, _, _) | Call::Listens(name, round) => {
            attach(bus, alloc, plane, *name, observer, round_of(*round)).is_none()
        }
        Call::IsRefused(name, round, error) => {
            attach(bus, alloc, plane, *name, observer, round_of(*round)) == Some(*error)
        }
        Call::Leaves(_, _, _) | Call::Edit(_) | Call::Hears(_, _) => false,
    }
}

// Whether a call with which no observer comes answers as it has to.
fn is_answered(bus: &mut Bus, alloc: Global, plane: &EmptyPlane, call: &Call) -> bool
    requires calm { IsCalm (bus_row Observer-dyn bus.old) }
    ensures calm { IsCalm (bus_row Observer-dyn bus.new) }
{
    match call {
        Call::Leaves(name, round, wanted) => leave(bus, *name, round_of(*round)).is_ok() == *wanted,
        Call::Edit(turns) => edit(bus, alloc, plane, turns),
        Call::Hears(name, wanted) => hears(bus, *name, wanted),
        Call::Comes(_, _, _, _) | Call::Listens(_, _) | Call::IsRefused(_, _, _) => false,
    }
}

// Whether a call answers as it has to; the last of the observers comes with it, where one does.
fn is_right_with(
    bus: &mut Bus,
    alloc: Global,
    plane: &EmptyPlane,
    call: &Call,
    observers: &mut Vec<Box<dyn Observer>>,
) -> bool
    requires calm { IsCalm (bus_row Observer-dyn bus.old) }
    ensures calm { IsCalm (bus_row Observer-dyn bus.new) }
{
    if !is_coming(call) {
        return is_answered(bus, alloc, plane, call);
    }
    match observers.pop() {
        Some(observer) => is_met(bus, alloc, plane, call, observer),
        None => false,
    }
}

// Whether each call answers as it has to, one after the other; the observers come with them, the last one first.
fn all_answered(
    bus: &mut Bus,
    alloc: Global,
    plane: &EmptyPlane,
    calls: &[Call],
    observers: &mut Vec<Box<dyn Observer>>,
) -> bool
    requires calm { IsCalm (bus_row Observer-dyn bus.old) }
    ensures calm { IsCalm (bus_row Observer-dyn bus.new) }
{
    'calls: for call in calls {
        if !is_right_with(bus, alloc, plane, call, observers) {
            return false;
        }
    }
    true
}

/// The same of a new bus.
pub fn are_answered(
    alloc: Global,
    plane: &EmptyPlane,
    calls: &[Call],
    mut observers: Vec<Box<dyn Observer>>,
) -> Result<bool, Fail> {
    let mut bus = Bus::new(alloc, Vec::with_capacity(alloc, SEATS)?)?;
    let right = all_answered(&mut bus, alloc, plane, calls, &mut observers);
    drop(bus);
    Ok(right)
}
