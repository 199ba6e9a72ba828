ghost use Rattle.std.specs.Prelude.{◌≡◌, [], IfOk};
ghost use Rattle.observer_bus.specs.Rounds.{noted, HasRoomFor};

use crate::names::Names;
use crate::seat::Fate;
use no_memory::NoMemory;
use std::alloc::Global;

/// The names of the observers that joined, left and were lost since an edit began.
#[derive(Drop)]
pub struct Went {
    /// They were handed a snapshot.
    pub joined: Names,
    /// They counted their last note, or their plan to leave came.
    pub left: Names,
    /// They, or the snapshot for them, found no memory.
    pub lost: Names,
}

impl Went {
    /// No names, and room for eight in each list.
    pub(crate) fn new(alloc: Global) -> Result<Went, NoMemory>
        ensures { IfOk result (λ g. g ≡ record { joined = []; left = []; lost = [] }) }
    {
        let joined = Names::new(alloc)?;
        let left = Names::new(alloc)?;
        let lost = Names::new(alloc)?;
        Ok(Went { joined, left, lost })
    }

    /// Notes what became of a seat.
    pub(crate) fn note(&mut self, fate: Fate, name: u32)
        requires { HasRoomFor fate self.old }
        ensures noted { self.new ≡ noted fate name self.old }
    {
        match fate {
            Fate::Told | Fate::Waits => {}
            Fate::Joined => self.joined.place(name),
            Fate::ToldLast | Fate::LeftUntold => self.left.place(name),
            Fate::Lost => self.lost.place(name),
        }
    }

    /// Forgets all names.
    pub(crate) fn clear(&mut self)
        ensures { self.new ≡ record { joined = []; left = []; lost = [] } }
    {
        self.joined.clear();
        self.left.clear();
        self.lost.clear();
    }
}
