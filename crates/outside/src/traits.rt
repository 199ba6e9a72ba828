ghost use Rattle.std.specs.Prelude.{◌≡◌, ℕ, List, Option, Some, codes};
ghost use Rattle.outside.specs.Bytes.{Gives, Takes};
ghost use Rattle.outside.specs.Counts.{next, HasCause};

use std::error::Error;
use std::fmt;

/// A read or a write failed.
#[derive(Clone, Copy, Debug, PartialEq, Eq)]
pub struct Failed;

impl fmt::Display for Failed {
    ghost output = { λ _. Some (codes "read or write failed") };

    fn fmt<W: fmt::Write>(&self, f: &mut fmt::Formatter<W>) -> fmt::Result {
        write!(f, "read or write failed")
    }
}

impl Error for Failed {}

/// Where bytes come from. Its counts stand still at 2^64 - 1.
pub trait Source {
    /// The bytes that are still to come, where the source tells them. Whether it does never
    /// changes.
    ghost left: { Self → Option (List ℕ) };

    /// How many reads failed.
    ghost faults: { Self → ℕ };

    /// How many reads were asked for, those that failed too.
    ghost calls: { Self → ℕ };

    /// Hands over the next bytes, and says how many. For a buffer that isn't empty, 0 comes at
    /// the end and only there. A failed read hands over none.
    fn read(&mut self, buf: &mut [u8]) -> Result<usize, Failed>
        ensures bytes { Gives (left self.old) (left self.new) result buf.new }
        ensures cause { HasCause (faults self.old) (faults self.new) result }
        ensures counted { calls self.new ≡ next (calls self.old) };
}

/// Where bytes go. Its count stands still at 2^64 - 1.
pub trait Sink {
    /// The bytes that were taken, where the sink tells them. Whether it does never changes.
    ghost taken: { Self → Option (List ℕ) };

    /// How many writes failed.
    ghost faults: { Self → ℕ };

    /// Takes some of the piece, from its first byte on and at least one where there is one, and
    /// says how many. A failed write takes none.
    fn write(&mut self, piece: &[u8]) -> Result<usize, Failed>
        ensures bytes { Takes (taken self.old) (taken self.new) result piece.now }
        ensures cause { HasCause (faults self.old) (faults self.new) result };
}
