ghost use Rattle.std.specs.Prelude.{◌≡◌, ◌≢◌, ◌≤◌, ◌==◌, ◌↔◌, ⊤, [], All, Err, IfErr, IfOk, IsTrue, OnErr, OnOk, Option, Some, None, is_ok, true, false, length, map, vec_capacity};
ghost use Rattle.std.specs.List.{IsDistinct};
ghost use Rattle.std.proofs.Props.{props};
ghost use Rattle.arr_notes.specs.CurvedView.{CurvedView, IsSoundView, view_by};
ghost use Rattle.observer_bus.specs.Calls.{attach_refusal, begun, has_name, has_seat, seat_of, seats_left, with_seats, IsAttachAnswer, IsAttached, IsHeldSound, IsReport};
ghost use Rattle.observer_bus.specs.Rounds.{HaveRoom, AreInRound};
ghost use Rattle.observer_bus.specs.Seats.{Holds, Leads, MayHear, IsRoundNote};

use crate::errors::{AttachError, NoSeat, ReportError};
use crate::round;
use crate::seat::Seat;
use crate::went::Went;
use arr_notes::{Note, Observer};
use no_memory::NoMemory;
use slab_laws::{Curved, Faced};
use std::alloc::Global;

/// The seats of a bus, planned joins included.
pub const SEATS: usize = 8;

/// Observers in the order in which they came, and what became of them since an edit began (this project).
#[derive(Drop)]
pub struct Bus {
    seats: Vec<Seat>,
    went: Went,
    settled: bool,
    ghost few: { length seats.items ≤ 8 },
    ghost room: { 8 ≤ vec_capacity seats },
    ghost apart: { IsDistinct ◌==◌ (map (λ s. s.name) seats.items) } by { Prim.hlevel props },
    ghost name_room: { IsTrue settled → HaveRoom (map (λ s. s.join) seats.items) went },
}

impl Bus {
    ghost use Rattle.observer_bus.specs.RoundLaws.{HaveNamesApart};
    ghost use Rattle.observer_bus.specs.Rows.{bus_row, newcomer, rows, IsHandedBack};

    /// A bus without observers over the seats that it is given, which are none yet: `Vec::with_capacity(alloc, SEATS)?` makes room for them.
    ///
    /// # Errors
    ///
    /// There was no memory for the names of those that come and go.
    pub fn new(alloc: Global, seats: Vec<Seat>) -> Result<Bus, NoMemory>
        requires none { seats.items ≡ [] }
        requires room { 8 ≤ vec_capacity seats }
        ensures seats { IfOk result (λ b. (bus_row Observer-dyn b).seats ≡ []) }
        ensures begun { IfOk result (λ b. bus_row Observer-dyn b ≡ begun (bus_row Observer-dyn b)) }
    {
        let went = Went::new(alloc)?;
        Ok(Bus {
            seats,
            went,
            settled: true,
        })
    }

    /// What is true of all buses: no two seats have one name.
    pub fn laws(&self)
        ensures apart { HaveNamesApart (bus_row Observer-dyn self.now).seats }
    {}

    /// Takes an observer: without a round it is handed a snapshot at once and is seated; with one it joins at its turn in that round, the
    /// next being 1. It stands last.
    ///
    /// # Errors
    ///
    /// The observer is handed back, and no seat or plan changes: `Taken` where a seated observer, or one whose join is planned, has the name;
    /// then `Full(8)` where eight are there; `NoMemory` where there was none for the snapshot, or the observer found none. It is as it was,
    /// unless it was told the snapshot and found no memory itself; even then it has as many notes left.
    pub fn attach<R: Curved + Faced>(
        &mut self,
        alloc: Global,
        records: &R,
        name: u32,
        observer: Box<dyn Observer>,
        when: Option<u32>,
    ) -> Result<(), (Box<dyn Observer>, AttachError)>
        requires when { when ≢ Some 0 }
        requires sound { IsSoundView (view_by (R.graph records.now) (R.faces records.now) (R.curve_list records.now)) }
        ensures refused { IsAttachAnswer (attach_refusal name (bus_row Observer-dyn self.old).seats) result }
        ensures same { IfErr result (λ e. e.1 ≢ AttachError.NoMemory → e.0 ≡ observer) }
        ensures back { IfErr result (λ e. IsHandedBack Observer-dyn observer e.0) }
        ensures err { OnErr result (bus_row Observer-dyn self.new ≡ bus_row Observer-dyn self.old) }
        ensures attached { OnOk result (IsAttached (view_by (R.graph records.now) (R.faces records.now) (R.curve_list records.now)) (newcomer Observer-dyn name when observer)
            (bus_row Observer-dyn self.old) (bus_row Observer-dyn self.new)) }
    {
        if round::has_name(&self.seats, name) {
            return Err((observer, AttachError::Taken));
        }
        if self.seats.len() == SEATS {
            return Err((observer, AttachError::Full(8)));
        }
        let seat = match Seat::placed(alloc, records, name, observer, when) {
            Ok(seat) => seat,
            Err(back) => return Err((back, AttachError::NoMemory)),
        };
        self.settled = false;
        self.seats.push_reserved(seat);
        Ok(())
    }

    /// Whether a seated observer, or one whose join is planned, has the name.
    pub fn is_attached(&self, name: u32) -> bool
        ensures { result ≡ has_name name (bus_row Observer-dyn self.now).seats }
    {
        round::has_name(&self.seats, name)
    }

    /// Whether nobody is seated and no join is planned: a round would tell nobody.
    // Looked at before each note is made, which most buses have nobody for.
    #[inline(always)]
    pub fn is_empty(&self) -> bool
        ensures { result ≡ (length (bus_row Observer-dyn self.now).seats == 0) }
    {
        self.seats.is_empty()
    }

    /// Lets a seated observer go: without a round at once, and its box is dropped; with one untold at its turn in that round, the next being
    /// 1, in place of an earlier plan. It takes no memory.
    ///
    /// # Errors
    ///
    /// No seated observer has the name: one whose join is planned isn't seated.
    pub fn leave(&mut self, name: u32, when: Option<u32>) -> Result<(), NoSeat>
        requires { when ≢ Some 0 }
        ensures seated { is_ok result ≡ has_seat name (bus_row Observer-dyn self.old).seats }
        ensures err { OnErr result (bus_row Observer-dyn self.new ≡ bus_row Observer-dyn self.old) }
        ensures left { OnOk result (bus_row Observer-dyn self.new ≡
            with_seats (seats_left name when (bus_row Observer-dyn self.old).seats) (bus_row Observer-dyn self.old)) }
    {
        let Some(at) = round::seat_at(&self.seats, name) else {
            return Err(NoSeat);
        };
        match when {
            None => {
                let gone = self.seats.remove(at);
                drop(gone);
            }
            Some(round) => {
                let seat = &mut self.seats[at];
                seat.plan_leave(round);
            }
        }
        Ok(())
    }

    /// An accepted edit begins: what became of observers is forgotten. It takes no memory.
    // The premise that always holds: other crates' checks take a call without any that has a box under `&mut` for one that makes boxes.
    pub fn begin(&mut self)
        requires always { ⊤ }
        ensures begun { bus_row Observer-dyn self.new ≡ begun (bus_row Observer-dyn self.old) }
    {
        self.went.clear();
        self.settled = true;
    }

    /// One round: each seat has one turn, before a change from the first to the last, after it from the last to the first. A seated observer
    /// is told the note, once, unless its plan to leave comes; one whose join comes is handed a snapshot; those that leave or find no memory
    /// are dropped on the spot.
    ///
    /// It takes no memory where no join comes.
    pub fn say<R: Curved + Faced>(&mut self, alloc: Global, records: &R, note: &Note)
        requires settled { (bus_row Observer-dyn self.old).settled ≡ true }
        requires sound { IsSoundView (view_by (R.graph records.now) (R.faces records.now) (R.curve_list records.now)) }
        requires fits { All (MayHear note.now) (bus_row Observer-dyn self.old).seats }
        requires counted { IsRoundNote note.now }
        ensures round { AreInRound note.now (view_by (R.graph records.now) (R.faces records.now) (R.curve_list records.now)) (bus_row Observer-dyn self.old)
            (bus_row Observer-dyn self.new) }
        ensures holds { (v : CurvedView) → All (Holds v) (bus_row Observer-dyn self.old).seats →
            Leads v note.now (view_by (R.graph records.now) (R.faces records.now) (R.curve_list records.now)) →
            All (Holds (view_by (R.graph records.now) (R.faces records.now) (R.curve_list records.now))) (bus_row Observer-dyn self.new).seats }
    {
        round::say(&mut self.seats, &mut self.went, alloc, records, note);
    }

    /// The names of the observers that joined, left and were lost since the last accepted edit began.
    pub fn went(&self) -> &Went
        ensures { result.now ≡ (bus_row Observer-dyn self.now).went }
    {
        &self.went
    }

    /// The report of a seated observer; the text of its view, where it tells and holds one.
    ///
    /// # Errors
    ///
    /// `NoSeat` where no seated observer has the name; `NoMemory` where the observer found none.
    pub fn report(&self, name: u32) -> Result<Vec<u8>, ReportError>
        requires { All IsHeldSound (bus_row Observer-dyn self.now).seats }
        ensures seat { (result ≡ Err ReportError.NoSeat) ↔ (has_seat name (bus_row Observer-dyn self.now).seats ≡ false) }
        ensures text { IfOk result (λ b. IsReport b.items (seat_of name (bus_row Observer-dyn self.now).seats)) }
    {
        let Some(at) = round::seat_at(&self.seats, name) else {
            return Err(ReportError::NoSeat);
        };
        let bytes = self.seats[at].report()?;
        Ok(bytes)
    }
}
