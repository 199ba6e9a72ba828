ghost use Rattle.std.specs.Prelude.{◌≡◌, ◌++◌, ◌∷◌, [], take, nat_eq, length, IfOk};

use no_memory::NoMemory;
use script_lines::MAX_LINE;
use std::alloc::Global;
use std::marker::Model;

/// How many bytes of a line are kept: one past the longest that is read, which is enough to refuse it.
pub const KEPT: usize = MAX_LINE + 1;

/// The line that was begun, as far as it is kept, in room that is made once.
#[derive(Drop)]
pub struct Line {
    bytes: Vec<u8>,
}

impl Model for Line {
    ghost use Rattle.std.specs.Prelude.{ℕ, ◌≤◌, List, length, vec_capacity};
    ghost use Rattle.planar_run.specs.declared.line.TheConstants.{KEPT};

    ghost Value = { List ℕ };

    ghost view = { λ l. l.bytes.items };

    ghost invariant = { λ l. (length l.bytes.items ≤ KEPT) × (KEPT ≤ vec_capacity l.bytes) };
}

impl Line {
    /// An empty line.
    pub fn new(alloc: Global) -> Result<Line, NoMemory>
        ensures { IfOk result (λ l. l ≡ []) }
    {
        Ok(Line {
            bytes: Vec::with_capacity(alloc, KEPT)?,
        })
    }

    /// Whether no byte of the line has come.
    pub fn is_empty(&self) -> bool
        ensures { result ≡ nat_eq (length self.now) 0 }
    {
        self.bytes.is_empty()
    }

    /// The bytes that are kept.
    pub fn as_slice(&self) -> &[u8]
        ensures { result.now ≡ self.now }
    {
        &self.bytes
    }

    /// One more byte.
    pub fn push(&mut self, byte: u8)
        ensures { self.new ≡ take KEPT (self.old ++ byte ∷ []) }
    {
        if self.bytes.len() < KEPT {
            self.bytes.push(byte).unwrap();
        }
    }

    /// Begins the next line.
    pub fn clear(&mut self)
        ensures { self.new ≡ [] }
    {
        self.bytes.clear();
    }
}
