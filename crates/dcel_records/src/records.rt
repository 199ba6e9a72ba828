ghost use Rattle.std.specs.Prelude.{◌≡◌, ℕ, ◌*◌, ◌+◌, ◌≤◌, [], length, max, is_some, true, None, Some, IsOk, IfOk, OnOk, vec_capacity};
ghost use Rattle.slab.specs.Slab.{slab_len, HasRoomFor};
ghost use Rattle.slab_laws.specs.Sound.{IsNamed, IsTwinned};
ghost use Rattle.slab_laws.specs.View.{HasVertex, HasDart, source_in};
ghost use Rattle.arr_notes.specs.ViewChanges.{no_rows};
ghost use Rattle.dcel_records.specs.ListChanges.{lone_face, nothing_listed};
ghost use Rattle.dcel_records.specs.StoredRows.{IsGrown, AreReadyWhere};
ghost use Rattle.dcel_records.specs.RecordsView.{SameRecordCapacity, graph_part, lists_of, IsReturned, IsRoomFor};

use crate::ranks::RankKey;
use crate::rows::{StoredCycle, StoredDart, StoredFace, StoredVertex};
use crate::table::Table;
use crate::vertex_map::VertexMap;
use no_memory::NoMemory;
use slab_laws::Moved;
use std::alloc::Global;
use std::marker::Model;

/// Vertices and darts by name, each dart with its twin, its follower, its line and its cycle; and cycles and faces by name,
/// each face with the chains of its cycles and of its isolated vertices.
#[derive(Drop)]
pub struct Records {
    pub(crate) vertices: Table<StoredVertex>,
    pub(crate) darts: Table<StoredDart>,
    pub(crate) cycles: Table<StoredCycle>,
    pub(crate) faces: Table<StoredFace>,
    // How many of the vertices are pinned.
    pub(crate) pins: usize,
    // How many of the vertices are isolated.
    pub(crate) isolated: usize,
    // What moves from face to face is listed in here; `None` while a change carries it.
    pub(crate) moved: Option<Moved>,
    // The faces in the order that is being made; there is room for as many as cycles are promised.
    pub(crate) order: Vec<RankKey>,
    // How many vertices and cycles fit in all. Their tables may be larger: no more is promised than the lists of what moves
    // can take.
    pub(crate) vertex_room: usize,
    pub(crate) cycle_room: usize,
    // The vertex at each point.
    pub(crate) at: VertexMap,
}

impl Model for Records {
    ghost use Rattle.dcel_records.specs.RecordsView.{RecordsView};

    ghost Value = { RecordsView };

    ghost use Rattle.dcel_records.specs.StoredRows.{records_view, AreSoundRecords};

    ghost view = { records_view };

    ghost invariant = { AreSoundRecords };
}

/// How many vertices, edges, cycles and faces more are to fit.
#[derive(Clone, Copy, PartialEq, Eq)]
pub struct Room {
    pub vertices: usize,
    pub edges: usize,
    pub cycles: usize,
    pub faces: usize,
}

/// A face in which nothing is.
pub(crate) fn no_rows_of_face() -> StoredFace
    ensures cycle { result.first_cycle ≡ None }
    ensures bare { result.first_bare ≡ None }
    ensures rank { result.rank ≡ 0 }
{
    StoredFace {
        first_cycle: None,
        first_bare: None,
        rank: 0,
    }
}

// Makes room for so many rows more in each table; the rows stay, whatever comes.
fn grow(
    vertices: &mut Table<StoredVertex>,
    darts: &mut Table<StoredDart>,
    cycles: &mut Table<StoredCycle>,
    faces: &mut Table<StoredFace>,
    room: Room,
    pairs: usize,
) -> Result<(), NoMemory>
    ensures vertices { IsGrown vertices.old vertices.new }
    ensures darts { IsGrown darts.old darts.new }
    ensures cycles { IsGrown cycles.old cycles.new }
    ensures faces { IsGrown faces.old faces.new }
    ensures room_of_vertices { OnOk result (HasRoomFor vertices.new room.vertices) }
    ensures room_of_darts { OnOk result (HasRoomFor darts.new pairs) }
    ensures room_of_cycles { OnOk result (HasRoomFor cycles.new room.cycles) }
    ensures room_of_faces { OnOk result (HasRoomFor faces.new room.faces) }
    ensures stays { HasRoomFor vertices.old room.vertices → HasRoomFor darts.old pairs → HasRoomFor cycles.old room.cycles → HasRoomFor faces.old room.faces → IsOk result × (vertices.new ≡ vertices.old) × (cycles.new ≡ cycles.old) }
{
    vertices.reserve(room.vertices)?;
    darts.reserve(pairs)?;
    cycles.reserve(room.cycles)?;
    faces.reserve(room.faces)?;
    Ok(())
}

// What is promised of a table once so many rows more fit.
fn promise<T: Drop>(table: &Table<T>, promised: usize, additional: usize) -> usize
    requires { HasRoomFor table.now additional }
    ensures { result ≡ max promised (slab_len table.now + additional) }
{
    // A `usize` counts what the table can hold.
    let _capacity = table.capacity();
    promised.max(table.len() + additional)
}

// Makes room for so many cycles and vertices in the lists of what moves, where they are there.
fn grow_lists(moved: &mut Option<Moved>, cycles: usize, vertices: usize) -> Result<(), NoMemory>
    requires ready { AreReadyWhere moved.old 0 0 }
    ensures keeps { (c v : ℕ) → AreReadyWhere moved.old c v → AreReadyWhere moved.new c v }
    ensures there { is_some moved.new ≡ is_some moved.old }
    ensures room { OnOk result (AreReadyWhere moved.new cycles vertices) }
    ensures succeeds { AreReadyWhere moved.old cycles vertices → IsOk result }
{
    match moved.take() {
        None => Ok(()),
        Some(lists) => {
            let mut lists = lists;
            let result = lists.reserve(cycles, vertices);
            *moved = Some(lists);
            result
        }
    }
}

// Makes room for so many keys in all; those that are there stay, whatever comes.
fn grow_order(order: &mut Vec<RankKey>, keys: usize) -> Result<(), NoMemory>
    ensures items { order.new.items ≡ order.old.items }
    ensures keeps { vec_capacity order.old ≤ vec_capacity order.new }
    ensures room { OnOk result (keys ≤ vec_capacity order.new) }
    ensures succeeds { keys ≤ vec_capacity order.old → IsOk result }
{
    order.reserve(keys.saturating_sub(order.len()))?;
    Ok(())
}

impl Records {
    /// Records of nothing but the unbounded face, whose name is 0 for ever, without room.
    pub fn new(alloc: Global) -> Result<Records, NoMemory>
        ensures empty { IfOk result (λ r. r.graph ≡ no_rows) }
        ensures tables { IfOk result (λ r. r.faces.tables ≡ lone_face) }
        ensures lists { IfOk result (λ r. lists_of r ≡ nothing_listed) }
        ensures returned { IfOk result (λ r. IsReturned r) }
        ensures mapped { IfOk result (λ r. r.mapped ≡ true) }
    {
        let mut faces = Table::new(alloc);
        faces.reserve(1)?;
        faces.insert_reserved(no_rows_of_face());
        Ok(Records {
            vertices: Table::new(alloc),
            darts: Table::new(alloc),
            cycles: Table::new(alloc),
            faces,
            pins: 0,
            isolated: 0,
            moved: Some(Moved::new(alloc)),
            order: Vec::new(alloc),
            vertex_room: 0,
            cycle_room: 0,
            at: VertexMap::new(alloc),
        })
    }

    /// What is true of all records: names ascend, twins are twins, and a dart leaves a vertex that has a record.
    pub fn laws(&self)
        ensures named { IsNamed self.now.graph }
        ensures twinned { IsTwinned self.now.graph }
        ensures sources { (d : _) → HasDart self.now.graph d → HasVertex self.now.graph (source_in self.now.graph d) }
    {
        // Any use of a field tells what is kept.
        let _vertices = &self.vertices;
    }

    /// Makes room for so many vertices, edges, cycles and faces more, and for all cycles and vertices in the lists of what
    /// moves; all else stays, whatever comes.
    pub fn reserve(&mut self, room: Room) -> Result<(), NoMemory>
        ensures vertices { OnOk result (room.vertices ≤ self.new.spare_vertices) }
        ensures darts { OnOk result (2 * room.edges ≤ self.new.spare_darts) }
        ensures cycles { OnOk result (room.cycles ≤ self.new.faces.spare_cycles) }
        ensures faces { OnOk result (room.faces ≤ self.new.faces.spare_faces) }
        ensures succeeds { room.vertices ≤ self.old.spare_vertices → 2 * room.edges ≤ self.old.spare_darts → room.cycles ≤ self.old.faces.spare_cycles → room.faces ≤ self.old.faces.spare_faces → IsOk result }
        ensures graph { self.new.graph ≡ self.old.graph }
        ensures tables { self.new.faces.tables ≡ self.old.faces.tables }
        ensures lists { lists_of self.new ≡ lists_of self.old }
        ensures returned { IsReturned self.old → IsReturned self.new }
        ensures keeps_vertices { self.old.spare_vertices ≤ self.new.spare_vertices }
        ensures keeps_darts { self.old.spare_darts ≤ self.new.spare_darts }
        ensures keeps_cycles { self.old.faces.spare_cycles ≤ self.new.faces.spare_cycles }
        ensures keeps_faces { self.old.faces.spare_faces ≤ self.new.faces.spare_faces }
        ensures mapped { self.new.mapped ≡ self.old.mapped }
    {
        // What is spare is all that the slabs can hold less what they hold, and a `usize` counts it.
        let _vertices = self.vertices.capacity();
        let _darts = self.darts.capacity();
        let _cycles = self.cycles.capacity();
        let _faces = self.faces.capacity();
        match room.edges.checked_mul(2) {
            None => Err(NoMemory),
            Some(pairs) => {
                grow(
                    &mut self.vertices,
                    &mut self.darts,
                    &mut self.cycles,
                    &mut self.faces,
                    room,
                    pairs,
                )?;
                let cycles = promise(&self.cycles, self.cycle_room, room.cycles);
                let vertices = promise(&self.vertices, self.vertex_room, room.vertices);
                grow_lists(&mut self.moved, cycles, vertices)?;
                grow_order(&mut self.order, cycles)?;
                self.cycle_room = cycles;
                self.vertex_room = vertices;
                self.at.reserve(room.vertices);
                Ok(())
            }
        }
    }

    /// The lists of what moves, taken out: they are empty, with their room.
    pub fn take_moved(&mut self) -> Moved
        requires { IsReturned self.old }
        ensures cycles { result.cycles ≡ [] }
        ensures vertices { result.vertices ≡ [] }
        ensures returned { IsRoomFor (record { cycles = result.room_of_cycles; vertices = result.room_of_vertices }) self.old.faces.capacity_of_cycles self.old.capacity_of_vertices }
        ensures room { self.old.faces.moved ≡ Some (record { cycles = result.room_of_cycles; vertices = result.room_of_vertices }) }
        ensures graph { graph_part self.new ≡ graph_part self.old }
        ensures faces { self.new.faces ≡ record self.old.faces { moved = None } }
        ensures mapped { self.new.mapped ≡ self.old.mapped }
    {
        self.moved.take().unwrap()
    }

    /// The lists of what moves come back, with room for every cycle and every vertex; they are emptied, and their room stays.
    pub fn give_back(&mut self, moved: Moved)
        requires { IsRoomFor (record { cycles = moved.room_of_cycles; vertices = moved.room_of_vertices }) self.old.faces.capacity_of_cycles self.old.capacity_of_vertices }
        ensures graph { graph_part self.new ≡ graph_part self.old }
        ensures faces { self.new.faces ≡ record self.old.faces { moved = Some (record { cycles = moved.room_of_cycles; vertices = moved.room_of_vertices }) } }
        ensures mapped { self.new.mapped ≡ self.old.mapped }
    {
        let mut moved = moved;
        moved.clear();
        self.moved = Some(moved);
    }

    /// All records go but the unbounded face's; their room stays.
    pub fn clear(&mut self)
        ensures graph { self.new.graph ≡ no_rows }
        ensures tables { self.new.faces.tables ≡ lone_face }
        ensures lists { lists_of self.new ≡ nothing_listed }
        ensures moved { self.new.faces.moved ≡ self.old.faces.moved }
        ensures vertices { self.old.spare_vertices + length self.old.graph.vertices ≤ self.new.spare_vertices }
        ensures darts { self.old.spare_darts + length self.old.graph.darts ≤ self.new.spare_darts }
        ensures capacity { SameRecordCapacity self.old self.new }
        ensures capacity_of_cycles { self.new.faces.capacity_of_cycles ≡ self.old.faces.capacity_of_cycles }
        ensures capacity_of_faces { self.new.faces.capacity_of_faces ≡ self.old.faces.capacity_of_faces }
        ensures mapped { self.new.mapped ≡ true }
    {
        // What is spare then is all that the slabs can hold, which is no less than what they held; so there is room for a face.
        let _vertices = self.vertices.capacity();
        let _darts = self.darts.capacity();
        let _faces = self.faces.capacity();
        self.vertices.clear();
        self.darts.clear();
        self.cycles.clear();
        self.faces.clear();
        self.faces.insert_reserved(no_rows_of_face());
        self.at.clear();
        self.pins = 0;
        self.isolated = 0;
    }
}
