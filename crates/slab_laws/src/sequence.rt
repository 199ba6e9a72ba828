ghost use Rattle.std.specs.Prelude.{◌≡◌, ◌++◌, ◌∷◌, [], OnOk, OnErr};

use no_memory::NoMemory;
use std::alloc::Global;
use std::marker::Model;

/// Values in their order, which contracts see as a list: what a field of a public type holds in place of a `Vec`.
#[derive(Drop)]
pub struct Sequence<T> {
    items: Vec<T>,
}

impl<T> Model for Sequence<T> {
    ghost use Rattle.std.specs.Prelude.{List};

    ghost Value = { List T };

    ghost view = { λ s. s.items.items };
}

impl<T: Drop> Sequence<T> {
    /// No value. It takes no memory.
    pub fn new(alloc: Global) -> Sequence<T>
        ensures { result ≡ [] }
    {
        Sequence {
            items: Vec::new(alloc),
        }
    }

    /// Appends a value.
    ///
    /// # Errors
    ///
    /// There was no memory for it, and nothing is changed.
    pub fn push(&mut self, value: T) -> Result<(), NoMemory>
        ensures added { OnOk result (self.new ≡ self.old ++ (value ∷ [])) }
        ensures kept { OnErr result (self.new ≡ self.old) }
    {
        self.items.push(value)?;
        Ok(())
    }

    /// The values as a `Vec`, to be changed.
    pub fn into_vec(self) -> Vec<T>
        ensures { result.items ≡ self }
    {
        self.items
    }

    /// The values, in their order.
    pub fn as_slice(&self) -> &[T]
        ensures { result.now ≡ self.now }
    {
        &self.items
    }
}
