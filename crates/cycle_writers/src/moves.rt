ghost use Rattle.std.specs.Prelude.{◌≡◌, ◌≢◌, ◌+◌, ◌≤◌, [], length, ◌++◌};
ghost use Rattle.plane_graphs.specs.Ascending.{Member};
ghost use Rattle.slab_laws.specs.Sound.{IsGraphSound};
ghost use Rattle.slab_laws.specs.View.{HasCycle, HasDart, HasFace, HasVertex};
ghost use Rattle.arr_notes.specs.FaceWriters.{moved_to};
ghost use Rattle.dcel_records.specs.RecordsView.{IsSpareFaces, graph_part, lists_of};
ghost use Rattle.face_changes.specs.FacesByPairs.{beside};
ghost use Rattle.cycle_writers.specs.Taken.{IsWhich, takes, takes_cycle, takes_vertex, cycles_taken, vertices_taken};

use boundary_cycles::{Extent, is_odd_beside, is_odd_beside_within, parity, parity_within};
use dcel_records::Records;
use slab_laws::{CycleId, DartId, Darts, FaceId, FaceLists, Moved, VertexId};

/// Which of a face's cycles and isolated vertices are taken.
#[derive(Clone, Copy)]
pub enum Which {
    /// All of them.
    All,
    /// Those in whose cells the parity of the cycle of `half` is odd. The extent is that of the cycle, where it was worked out: it
    /// answers for most of what lies elsewhere, and pays where much is asked.
    Inside {
        half: DartId,
        extent: Option<Extent>,
    },
}

impl Which {
    // Whether what is on the left of a dart is taken.
    fn takes_dart(&self, records: &Records, d: DartId) -> bool
        requires sound { IsGraphSound records.now.graph }
        requires which { IsWhich records.now.graph self.now }
        requires dart { HasDart records.now.graph d }
        ensures { result ≡ takes records.now.graph self.now (beside d) }
    {
        match self {
            Which::All => true,
            Which::Inside { half, extent } => match extent {
                Some(extent) => is_odd_beside_within(records, *half, extent, d),
                None => is_odd_beside(records, *half, d),
            },
        }
    }

    // Whether a cycle is taken, which is asked at the dart that is kept for it; one stays.
    fn takes_cycle(&self, records: &Records, but: CycleId, cycle: CycleId) -> bool
        requires sound { IsGraphSound records.now.graph }
        requires which { IsWhich records.now.graph self.now }
        requires cycle { HasCycle records.now.faces.tables cycle }
        requires dart { cycle ≢ but → HasDart records.now.graph ((lists_of records.now).dart_on cycle) }
        ensures { result ≡ takes_cycle records.now.graph self.now but (lists_of records.now) cycle }
    {
        cycle != but && self.takes_dart(records, records.dart_on(cycle))
    }

    // Whether an isolated vertex is taken.
    fn takes_vertex(&self, records: &Records, v: VertexId) -> bool
        requires sound { IsGraphSound records.now.graph }
        requires which { IsWhich records.now.graph self.now }
        requires vertex { HasVertex records.now.graph v }
        ensures { result ≡ takes_vertex records.now.graph self.now v }
    {
        match self {
            Which::All => true,
            Which::Inside { half, extent } => match extent {
                Some(extent) => parity_within(records, *half, extent, &records.point(v)),
                None => parity(records, *half, &records.point(v)),
            },
        }
    }
}

/// Of the cycles that a face lists all that are taken, but one that stays, move to another face, and are listed in the order
/// in which they stood.
pub fn move_cycles(
    records: &mut Records,
    moved: &mut Moved,
    which: &Which,
    but: CycleId,
    from: FaceId,
    to: FaceId,
)
    requires sound { IsGraphSound records.old.graph }
    requires which { IsWhich records.old.graph which.now }
    requires from { HasFace records.old.faces.tables from }
    requires to { HasFace records.old.faces.tables to }
    requires two { from ≢ to }
    requires darts { (c : _) → Member c ((lists_of records.old).cycles from) → c ≢ but → HasDart records.old.graph ((lists_of records.old).dart_on c) }
    requires room { length moved.old.cycles + length ((lists_of records.old).cycles from) ≤ moved.old.room_of_cycles }
    ensures moved { moved.new ≡ record moved.old { cycles = moved.old.cycles ++ cycles_taken records.old.graph which.now but (lists_of records.old) from } }
    ensures tables { records.new.faces.tables ≡ moved_to (cycles_taken records.old.graph which.now but (lists_of records.old) from) [] to records.old.faces.tables }
    ensures bare { (lists_of records.new).bare ≡ (lists_of records.old).bare }
    ensures darts { (lists_of records.new).dart_on ≡ (lists_of records.old).dart_on }
    ensures spare { IsSpareFaces records.old.faces records.new.faces 0 0 }
    ensures returned { records.new.faces.moved ≡ records.old.faces.moved }
    ensures graph { graph_part records.new ≡ graph_part records.old }
{
    let mut next = records.first_cycle_of(from);
    'cycles: while let Some(cycle) = next {
        records.face_laws();
        // What follows is asked before the cycle moves.
        next = records.cycle_after_in_face(cycle);
        if which.takes_cycle(records, but, cycle) {
            records.move_cycle(cycle, to);
            moved.push_cycle(cycle);
        }
    }
}

/// Of the isolated vertices that a face lists all that are taken move to another face, and are listed in the order in which
/// they stood.
pub fn move_isolated(
    records: &mut Records,
    moved: &mut Moved,
    which: &Which,
    from: FaceId,
    to: FaceId,
)
    requires sound { IsGraphSound records.old.graph }
    requires which { IsWhich records.old.graph which.now }
    requires from { HasFace records.old.faces.tables from }
    requires to { HasFace records.old.faces.tables to }
    requires two { from ≢ to }
    requires vertices { (v : _) → Member v ((lists_of records.old).bare from) → HasVertex records.old.graph v }
    requires room { length moved.old.vertices + length ((lists_of records.old).bare from) ≤ moved.old.room_of_vertices }
    ensures moved { moved.new ≡ record moved.old { vertices = moved.old.vertices ++ vertices_taken records.old.graph which.now (lists_of records.old) from } }
    ensures tables { records.new.faces.tables ≡ moved_to [] (vertices_taken records.old.graph which.now (lists_of records.old) from) to records.old.faces.tables }
    ensures cycles { (lists_of records.new).cycles ≡ (lists_of records.old).cycles }
    ensures darts { (lists_of records.new).dart_on ≡ (lists_of records.old).dart_on }
    ensures spare { IsSpareFaces records.old.faces records.new.faces 0 0 }
    ensures returned { records.new.faces.moved ≡ records.old.faces.moved }
    ensures graph { graph_part records.new ≡ graph_part records.old }
{
    let mut next = records.first_isolated_in(from);
    'vertices: while let Some(vertex) = next {
        records.face_laws();
        next = records.isolated_after_in_face(vertex);
        if which.takes_vertex(records, vertex) {
            records.move_bare(vertex, to);
            moved.push_vertex(vertex);
        }
    }
}
