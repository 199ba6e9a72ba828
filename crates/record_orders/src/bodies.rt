ghost use Rattle.std.specs.Prelude.{◌≡◌, ◌<◌, [], length, replicate, IfOk, OnOk, OnErr};
ghost use Rattle.std.specs.List.{slice_index_or};
ghost use Rattle.record_orders.specs.Bodies.{appended_at};

use no_memory::NoMemory;
use std::alloc::Global;
use std::marker::Model;

/// A text for each of so many things, which grow one line at a time.
#[derive(Drop)]
pub struct Bodies {
    texts: Vec<Vec<u8>>,
}

impl Model for Bodies {
    ghost use Rattle.std.specs.Prelude.{ℕ, List, map};

    ghost Value = { List (List ℕ) };

    ghost view = { λ b. map (λ t. t.items) b.texts.items };
}

impl Bodies {
    /// So many empty texts.
    ///
    /// # Errors
    ///
    /// There was no memory.
    pub fn new(alloc: Global, count: usize) -> Result<Bodies, NoMemory>
        ensures { IfOk result (λ b. b ≡ replicate count []) }
    {
        let mut texts = Vec::new(alloc);
        for _ in 0..count {
            texts.push(Vec::new(alloc))?;
        }
        Ok(Bodies { texts })
    }

    /// How many there are.
    pub fn len(&self) -> usize
        ensures { result ≡ length self.now }
    {
        self.texts.len()
    }

    /// Appends bytes to one of the texts.
    ///
    /// # Errors
    ///
    /// There was no memory. The texts are as they were.
    pub fn append(&mut self, place: usize, bytes: &[u8]) -> Result<(), NoMemory>
        requires { place < length self.old }
        ensures appends { OnOk result (self.new ≡ appended_at self.old place bytes.now) }
        ensures stays { OnErr result (self.new ≡ self.old) }
    {
        self.texts[place].extend_from_slice(bytes)?;
        Ok(())
    }

    /// One of the texts.
    pub fn text(&self, place: usize) -> &[u8]
        requires { place < length self.now }
        ensures { result.now ≡ slice_index_or self.now place [] }
    {
        &self.texts[place]
    }
}
