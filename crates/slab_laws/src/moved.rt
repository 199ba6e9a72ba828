ghost use Rattle.std.specs.Prelude.{◌≡◌, ◌<◌, ◌≤◌, ◌+◌, [], ◌∷◌, ◌++◌, length, IfOk, IsOk, OnOk, vec_capacity};

use crate::names::{CycleId, VertexId};
use no_memory::NoMemory;
use std::alloc::Global;
use std::marker::Model;

/// The cycles and the isolated vertices that a change moves to another face, in room that was made before.
#[derive(Drop)]
pub struct Moved {
    cycles: Vec<CycleId>,
    vertices: Vec<VertexId>,
}

impl Model for Moved {
    ghost use Rattle.std.specs.Prelude.{vec_capacity};
    ghost use Rattle.slab_laws.specs.FaceLists.{MovedView};

    ghost Value = { MovedView };

    ghost view = { λ m. record { cycles = m.cycles.items; vertices = m.vertices.items; room_of_cycles = vec_capacity m.cycles; room_of_vertices = vec_capacity m.vertices } };
}

// The same items, with just as much room.
fn copied<T: Copy + Drop>(alloc: Global, items: &Vec<T>) -> Result<Vec<T>, NoMemory>
    ensures items { IfOk result (λ v. v.items ≡ items.now.items) }
    ensures room { IfOk result (λ v. vec_capacity v ≡ vec_capacity items.now) }
{
    let mut copy = Vec::with_capacity(alloc, items.capacity())?;
    for item in items {
        copy.push_reserved(*item);
    }
    Ok(copy)
}

impl Moved {
    /// Nothing, without room.
    pub fn new(alloc: Global) -> Moved
        ensures cycles { result.cycles ≡ [] }
        ensures vertices { result.vertices ≡ [] }
    {
        Moved {
            cycles: Vec::new(alloc),
            vertices: Vec::new(alloc),
        }
    }

    /// The cycles, in the order in which they were moved.
    pub fn cycles(&self) -> &[CycleId]
        ensures { result.now ≡ self.now.cycles }
    {
        &self.cycles
    }

    /// The isolated vertices, in the order in which they were moved.
    pub fn vertices(&self) -> &[VertexId]
        ensures { result.now ≡ self.now.vertices }
    {
        &self.vertices
    }

    /// Makes room for so many cycles and vertices more than the lists have; the lists stay, whatever comes.
    pub fn reserve(&mut self, cycles: usize, vertices: usize) -> Result<(), NoMemory>
        ensures cycles { OnOk result (length self.old.cycles + cycles ≤ self.new.room_of_cycles) }
        ensures vertices { OnOk result (length self.old.vertices + vertices ≤ self.new.room_of_vertices) }
        ensures succeeds { length self.old.cycles + cycles ≤ self.old.room_of_cycles → length self.old.vertices + vertices ≤ self.old.room_of_vertices → IsOk result }
        ensures cycles_stay { self.new.cycles ≡ self.old.cycles }
        ensures vertices_stay { self.new.vertices ≡ self.old.vertices }
        ensures keeps_cycles { self.old.room_of_cycles ≤ self.new.room_of_cycles }
        ensures keeps_vertices { self.old.room_of_vertices ≤ self.new.room_of_vertices }
    {
        self.cycles.reserve(cycles)?;
        self.vertices.reserve(vertices)?;
        Ok(())
    }

    /// One cycle more, in room that is there.
    pub fn push_cycle(&mut self, cycle: CycleId)
        requires { length self.old.cycles < self.old.room_of_cycles }
        ensures cycles { self.new.cycles ≡ self.old.cycles ++ cycle ∷ [] }
        ensures vertices { self.new.vertices ≡ self.old.vertices }
        ensures room_of_cycles { self.new.room_of_cycles ≡ self.old.room_of_cycles }
        ensures room_of_vertices { self.new.room_of_vertices ≡ self.old.room_of_vertices }
    {
        self.cycles.push_reserved(cycle);
    }

    /// One vertex more, in room that is there.
    pub fn push_vertex(&mut self, vertex: VertexId)
        requires { length self.old.vertices < self.old.room_of_vertices }
        ensures cycles { self.new.cycles ≡ self.old.cycles }
        ensures vertices { self.new.vertices ≡ self.old.vertices ++ vertex ∷ [] }
        ensures room_of_cycles { self.new.room_of_cycles ≡ self.old.room_of_cycles }
        ensures room_of_vertices { self.new.room_of_vertices ≡ self.old.room_of_vertices }
    {
        self.vertices.push_reserved(vertex);
    }

    /// The lists are emptied; their room stays.
    pub fn clear(&mut self)
        ensures cycles { self.new.cycles ≡ [] }
        ensures vertices { self.new.vertices ≡ [] }
        ensures room_of_cycles { self.new.room_of_cycles ≡ self.old.room_of_cycles }
        ensures room_of_vertices { self.new.room_of_vertices ≡ self.old.room_of_vertices }
    {
        self.cycles.clear();
        self.vertices.clear();
    }

    /// The same lists once more, with just as much room.
    ///
    /// # Errors
    ///
    /// There was no memory for them.
    pub fn copy(&self, alloc: Global) -> Result<Moved, NoMemory>
        ensures { IfOk result (λ m. m ≡ self.now) }
    {
        Ok(Moved {
            cycles: copied(alloc, &self.cycles)?,
            vertices: copied(alloc, &self.vertices)?,
        })
    }
}
