ghost use Rattle.std.specs.Prelude.{◌≡◌, ◌<◌, ◌≤◌, [], IfOk, IfSome, None, length, vec_capacity};
ghost use Rattle.std.specs.List.{insert};
ghost use Rattle.std.specs.Ordering.{nat_cmp};
ghost use Rattle.plane_graphs.specs.Ascending.{place, IsAscending};

use no_memory::NoMemory;
use std::alloc::Global;
use std::marker::Model;

/// As many names as there is room for.
pub(crate) const ROOM: usize = 8;

/// Names of observers, ascending, each once, with room for eight: what contracts see as a list.
#[derive(Drop)]
pub struct Names {
    items: Vec<u32>,
}

impl Model for Names {
    ghost use Rattle.std.specs.Prelude.{◌≤◌, List, ℕ, vec_capacity};
    ghost use Rattle.std.specs.Ordering.{nat_cmp};
    ghost use Rattle.plane_graphs.specs.Ascending.{IsAscending};

    ghost Value = { List ℕ };

    ghost view = { λ s. s.items.items };

    ghost invariant = { λ s. (8 ≤ vec_capacity s.items) × IsAscending nat_cmp s.items.items };
}

// Where a name goes among others; none where it is there.
fn spot_of(names: &[u32], name: u32) -> Option<usize>
    ensures there { result ≡ None → place nat_cmp name names.now ≡ names.now }
    ensures within { IfSome result (λ at. at ≤ length names.now) }
    ensures missing { IfSome result (λ at. place nat_cmp name names.now ≡ insert names.now at name) }
{
    for at in 0..names.len() {
        let other = names[at];
        if other == name {
            return None;
        }
        if name < other {
            return Some(at);
        }
    }
    Some(names.len())
}

impl Names {
    /// No name, and room for eight.
    pub(crate) fn new(alloc: Global) -> Result<Names, NoMemory>
        ensures { IfOk result (λ s. s ≡ []) }
    {
        let items = Vec::with_capacity(alloc, ROOM)?;
        Ok(Names { items })
    }

    /// Puts a name at its place, unless it is there.
    pub(crate) fn place(&mut self, name: u32)
        requires { length self.old < 8 }
        ensures { self.new ≡ place nat_cmp name self.old }
    {
        if let Some(at) = spot_of(&self.items, name) {
            let _placed = self.items.insert(at, name);
        }
    }

    /// Forgets all names, and keeps the room.
    pub(crate) fn clear(&mut self)
        ensures { self.new ≡ [] }
    {
        self.items.clear();
    }

    /// The names, ascending.
    pub fn as_slice(&self) -> &[u32]
        ensures names { result.now ≡ self.now }
        ensures ascend { IsAscending nat_cmp self.now }
    {
        &self.items
    }
}
