ghost use Rattle.std.specs.Prelude.{◌≡◌, ◌≢◌, ◌↔◌, Err, IfErr, IfOk, OnErr, OnOk, Some, false, is_ok};
ghost use Rattle.curve_history.specs.Past.{curves_on};
ghost use Rattle.observer_bus.specs.Calls.{attach_refusal, has_name, has_seat, seat_of, seats_left, with_seats, IsAttachAnswer, IsAttached};
ghost use Rattle.observer_bus.specs.Rows.{newcomer, IsHandedBack};
ghost use Rattle.told_steps.specs.ToldRuns.{seen};
ghost use Rattle.arrangement.specs.Arranged.{arranged, map_in, IsWatched};
ghost use Rattle.arrangement.specs.Edited.{IsSameLayer};
ghost use Rattle.arrangement.specs.Questions.{IsReportOf};

use crate::arrangement::Arrangement;
use arr_notes::Observer;
use curve_history::Drawn;
use observer_bus::{AttachError, NoSeat, ReportError, Went};

impl Arrangement {
    /// Takes an observer: without a round it is handed a snapshot at once and is seated; with one it joins at its turn in that round of the
    /// steps to come, the next being 1. It stands last.
    ///
    /// # Errors
    ///
    /// The observer is handed back, and no seat or plan changes: `Taken` where a seated observer, or one whose join is planned, has the name;
    /// then `Full(8)` where eight are there; `NoMemory` where there was none for the snapshot, or the observer found none. It is as it was,
    /// unless it was told the snapshot and found no memory itself; even then it has as many notes left.
    pub fn attach(
        &mut self,
        name: u32,
        observer: Box<dyn Observer>,
        when: Option<u32>,
    ) -> Result<(), (Box<dyn Observer>, AttachError)>
        requires when { when ≢ Some 0 }
        ensures refused { IsAttachAnswer (attach_refusal name (arranged Observer-dyn self.old).bus.seats) result }
        ensures same { IfErr result (λ e. e.1 ≢ AttachError.NoMemory → e.0 ≡ observer) }
        ensures back { IfErr result (λ e. IsHandedBack Observer-dyn observer e.0) }
        ensures err { OnErr result ((arranged Observer-dyn self.new).bus ≡ (arranged Observer-dyn self.old).bus) }
        ensures attached { OnOk result (IsAttached (seen (map_in (arranged Observer-dyn self.old)) (curves_on (arranged Observer-dyn self.old).past))
            (newcomer Observer-dyn name when observer) (arranged Observer-dyn self.old).bus (arranged Observer-dyn self.new).bus) }
        ensures layer { IsSameLayer (arranged Observer-dyn self.old) (arranged Observer-dyn self.new) }
        ensures watched { IsWatched (arranged Observer-dyn self.old) → IsWatched (arranged Observer-dyn self.new) }
    {
        let drawn = Drawn::new(&self.layer.records, &self.layer.history);
        self.bus.attach(self.alloc, &drawn, name, observer, when)
    }

    /// Whether a seated observer, or one whose join is planned, has the name.
    pub fn is_attached(&self, name: u32) -> bool
        ensures { result ≡ has_name name (arranged Observer-dyn self.now).bus.seats }
    {
        self.bus.is_attached(name)
    }

    /// Lets a seated observer go: without a round at once, and it is dropped; with one untold at its turn in that round of the steps to come,
    /// the next being 1, in place of an earlier plan. It takes no memory.
    ///
    /// # Errors
    ///
    /// No seated observer has the name: one whose join is planned isn't seated.
    pub fn leave(&mut self, name: u32, when: Option<u32>) -> Result<(), NoSeat>
        requires when { when ≢ Some 0 }
        ensures seated { is_ok result ≡ has_seat name (arranged Observer-dyn self.old).bus.seats }
        ensures err { OnErr result ((arranged Observer-dyn self.new).bus ≡ (arranged Observer-dyn self.old).bus) }
        ensures left { OnOk result ((arranged Observer-dyn self.new).bus ≡
            with_seats (seats_left name when (arranged Observer-dyn self.old).bus.seats) (arranged Observer-dyn self.old).bus) }
        ensures layer { IsSameLayer (arranged Observer-dyn self.old) (arranged Observer-dyn self.new) }
        ensures watched { IsWatched (arranged Observer-dyn self.old) → IsWatched (arranged Observer-dyn self.new) }
    {
        self.bus.leave(name, when)
    }

    /// The names of the observers that joined, left and were lost in the last edit.
    pub fn went(&self) -> &Went
        ensures { result.now ≡ (arranged Observer-dyn self.now).bus.went }
    {
        self.bus.went()
    }

    /// The report of a seated observer; the text of the subdivision, where it tells a view.
    ///
    /// # Errors
    ///
    /// `NoSeat` where no seated observer has the name; `NoMemory` where the observer found none.
    pub fn report(&self, name: u32) -> Result<Vec<u8>, ReportError>
        requires watched { IsWatched (arranged Observer-dyn self.now) }
        ensures seat { (result ≡ Err ReportError.NoSeat) ↔ (has_seat name (arranged Observer-dyn self.now).bus.seats ≡ false) }
        ensures report { IfOk result (λ b. IsReportOf (arranged Observer-dyn self.now) (seat_of name (arranged Observer-dyn self.now).bus.seats) b.items) }
    {
        // What observers hold is sound, since the records are.
        self.laws();
        self.bus.report(name)
    }
}
