ghost use Rattle.std.specs.Prelude.{◌≡◌, ◌≢◌, ◌↔◌, IsTrue, IfOk};
ghost use Rattle.arr_notes.specs.CurvedView.{IsSoundView, view_text};
ghost use Rattle.arr_notes.specs.Notes.{FitsNote, IsHeld, held_after, heard_after, is_last, left_after};
ghost use Rattle.arr_notes.specs.declared.note.Note.TheVariants.{Snapshot};

use crate::note::{Answer, Note};
use no_memory::NoMemory;

/// One that is told of each change of an arrangement (CGAL manual, `Arr_observer`).
///
/// It may tell a view, which it keeps by its notes alone; it may count the notes until it leaves; and it may tell what it has heard. What it
/// doesn't tell, nobody claims of it.
pub trait Observer: Drop {
    ghost use Rattle.std.specs.Prelude.{Bool, ℕ, List, Option};
    ghost use Rattle.arr_notes.specs.CurvedView.{CurvedView};
    ghost use Rattle.arr_notes.specs.declared.note.Note.{Note};

    /// Whether it tells a view; this never changes.
    ghost tells: { Self → Bool };

    /// The view that it holds, where it holds one.
    ghost held: { Self → Option CurvedView };

    /// How many notes it still hears, where it counts them.
    ghost left: { Self → Option ℕ };

    /// The notes that it was told, in their order, where it tells them.
    ghost heard: { Self → Option (List Note) };

    /// It is told a note. A snapshot isn't counted.
    fn heed(&mut self, note: &Note) -> Answer
        requires { IsTrue (tells self.old) → FitsNote (held self.old) note.now }
        ensures tells { tells self.new ≡ tells self.old }
        ensures hears { result ≢ Answer.NoMemory → heard self.new ≡ heard_after (heard self.old) note.now }
        ensures leaves { result ≡ Answer.Leave ↔ IsTrue (is_last (left self.old) note.now) }
        ensures counts { result ≡ Answer.Stay → left self.new ≡ left_after (left self.old) note.now }
        ensures uncounted { (w : _) → note.now ≡ Snapshot w → left self.new ≡ left self.old }
        ensures follows { result ≡ Answer.Stay → IsTrue (tells self.old) → held self.new ≡ held_after (held self.old) note.now };

    /// Its report; the text of its view, where it tells one and holds one.
    ///
    /// # Errors
    ///
    /// There was no memory for the report.
    fn report(&self) -> Result<Vec<u8>, NoMemory>
        requires { (w : _) → IsTrue (tells self.now) → IsHeld (held self.now) w → IsSoundView w }
        ensures { IfOk result (λ b. (w : _) → IsTrue (tells self.now) → IsHeld (held self.now) w → b.items ≡ view_text w) };
}
