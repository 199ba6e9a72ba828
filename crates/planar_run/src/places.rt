ghost use Rattle.std.specs.Prelude.{◌≡◌, ◌≢◌, ◌↔◌, ◌<◌, ◌≤◌, Err, Some, None, false, not, get_or, is_ok, length, map, set, IfOk, OnErr, OnOk};
ghost use Rattle.planar_run.specs.Observers.{attach_number, attach_refusal, attached, error_number, is_above, is_seated, leaving, IsAttachAnswer, IsReportIn};
ghost use Rattle.planar_run.specs.Rows.{world_row, IsKeptWorld};

use crate::world::World;
use arr_notes::Observer;
use arrangement::{AttachError, NoSeat, ReportError};
use no_memory::NoMemory;
use std::alloc::Global;

/// Why an observer isn't attached.
#[derive(Clone, Copy)]
pub enum AttachRefusal {
    /// There is none of the number, or it has left or was lost.
    Gone,
    /// It is seated, or its join is planned.
    Taken,
    /// Eight are seated or planned in the arrangement that lines mean.
    Full,
    /// There was no memory, or the observer found none.
    NoMemory,
}

// The refusal that a bus's error is.
fn refusal_of(error: AttachError) -> AttachRefusal
    ensures { attach_number result ≡ error_number error }
{
    match error {
        AttachError::Taken => AttachRefusal::Taken,
        AttachError::Full(_) => AttachRefusal::Full,
        AttachError::NoMemory => AttachRefusal::NoMemory,
    }
}

/// Observers that wait, each at its place.
pub fn all_waiting(
    alloc: Global,
    observers: Vec<Box<dyn Observer>>,
) -> Result<Vec<Option<Box<dyn Observer>>>, NoMemory>
    ensures { IfOk result (λ v. v.items ≡ map Some observers.items) }
{
    let mut places = Vec::with_capacity(alloc, observers.len())?;
    for observer in observers {
        places.push_reserved(Some(observer));
    }
    Ok(places)
}

// The observer that waits at a place, if one does. None waits there from now on.
fn take_waiting(
    observers: &mut Vec<Option<Box<dyn Observer>>>,
    place: usize,
) -> Option<Box<dyn Observer>>
    requires { place < length observers.old.items }
    ensures value { result ≡ get_or observers.old.items place None }
    ensures after { observers.new.items ≡ set observers.old.items place None }
{
    observers[place].take()
}

// An observer waits at a place.
fn put_waiting(
    observers: &mut Vec<Option<Box<dyn Observer>>>,
    place: usize,
    observer: Box<dyn Observer>,
)
    requires { place < length observers.old.items }
    ensures { observers.new.items ≡ set observers.old.items place (Some observer) }
{
    observers[place] = Some(observer);
}

impl World {
    /// Whether so many observers were handed in.
    pub fn has(&self, number: u32) -> bool
        ensures { result ≡ not (is_above number (world_row Observer-dyn self.now)) }
    {
        number as usize <= self.observers.len()
    }

    /// Seats an observer that waits in the arrangement that lines mean, or plans its join there.
    pub fn attach(&mut self, number: u32, when: Option<u32>) -> Result<(), AttachRefusal>
        requires number { 1 ≤ number }
        requires when { when ≢ Some 0 }
        requires kept { IsKeptWorld Observer-dyn self.old }
        ensures refused { IsAttachAnswer (attach_refusal number (world_row Observer-dyn self.old)) result }
        ensures attached { OnOk result (world_row Observer-dyn self.new ≡ attached number when (world_row Observer-dyn self.old)) }
        ensures err { OnErr result (world_row Observer-dyn self.new ≡ world_row Observer-dyn self.old) }
        ensures kept { IsKeptWorld Observer-dyn self.new }
    {
        if !self.has(number) {
            return Err(AttachRefusal::Gone);
        }
        if self.other.is_attached(number) {
            return Err(AttachRefusal::Taken);
        }
        let place = number as usize - 1;
        match take_waiting(&mut self.observers, place) {
            None => {
                if self.arrangement.is_attached(number) {
                    return Err(AttachRefusal::Taken);
                }
                Err(AttachRefusal::Gone)
            }
            Some(observer) => match self.arrangement.attach(number, observer, when) {
                Ok(()) => Ok(()),
                Err((observer, error)) => {
                    put_waiting(&mut self.observers, place, observer);
                    Err(refusal_of(error))
                }
            },
        }
    }

    /// Lets an observer go that is seated in either arrangement, or plans it. It takes no memory.
    pub fn leave(&mut self, number: u32, when: Option<u32>) -> Result<(), NoSeat>
        requires when { when ≢ Some 0 }
        requires kept { IsKeptWorld Observer-dyn self.old }
        ensures seated { is_ok result ≡ is_seated number (world_row Observer-dyn self.old) }
        ensures left { OnOk result (world_row Observer-dyn self.new ≡ leaving number when (world_row Observer-dyn self.old)) }
        ensures err { OnErr result (world_row Observer-dyn self.new ≡ world_row Observer-dyn self.old) }
        ensures kept { IsKeptWorld Observer-dyn self.new }
    {
        match self.arrangement.leave(number, when) {
            Ok(()) => Ok(()),
            Err(_) => self.other.leave(number, when),
        }
    }

    /// The report of an observer that is seated in either arrangement.
    pub fn report(&self, number: u32) -> Result<Vec<u8>, ReportError>
        requires kept { IsKeptWorld Observer-dyn self.now }
        ensures seat { (result ≡ Err ReportError.NoSeat) ↔ (is_seated number (world_row Observer-dyn self.now) ≡ false) }
        ensures report { IfOk result (λ b. IsReportIn number (world_row Observer-dyn self.now) b.items) }
    {
        match self.arrangement.report(number) {
            Ok(bytes) => Ok(bytes),
            Err(ReportError::NoSeat) => self.other.report(number),
            Err(ReportError::NoMemory) => Err(ReportError::NoMemory),
        }
    }
}
