ghost use Rattle.std.specs.Prelude.{◌≡◌, ◌≢◌};
ghost use Rattle.plane_graphs.specs.Ascending.{Member};
ghost use Rattle.slab_laws.specs.Sound.{IsGraphSound};
ghost use Rattle.slab_laws.specs.View.{HasDart, HasFace, HasVertex};
ghost use Rattle.arr_notes.specs.FaceWriters.{moved_to};
ghost use Rattle.dcel_records.specs.RecordsView.{IsReturned, IsSpareFaces, graph_part, lists_of};
ghost use Rattle.dcel_records.specs.SoundMaps.{IsCarriedOff};
ghost use Rattle.cycle_writers.specs.Taken.{IsWhich, cycles_taken, vertices_taken};

use crate::moves::{Which, move_cycles, move_isolated};
use dcel_records::Records;
use slab_laws::{CycleId, FaceId, Moved};

/// Of the cycles and isolated vertices of a face all that are taken, but one cycle that stays, move to another face. The lists
/// of what moves are taken out of the records, filled.
pub fn carry_off(
    records: &mut Records,
    which: &Which,
    but: CycleId,
    from: FaceId,
    to: FaceId,
) -> Moved
    requires returned { IsReturned records.old }
    requires sound { IsGraphSound records.old.graph }
    requires which { IsWhich records.old.graph which.now }
    requires from { HasFace records.old.faces.tables from }
    requires to { HasFace records.old.faces.tables to }
    requires two { from ≢ to }
    requires darts { (c : _) → Member c ((lists_of records.old).cycles from) → c ≢ but → HasDart records.old.graph ((lists_of records.old).dart_on c) }
    requires vertices { (v : _) → Member v ((lists_of records.old).bare from) → HasVertex records.old.graph v }
    ensures cycles { result.cycles ≡ cycles_taken records.old.graph which.now but (lists_of records.old) from }
    ensures vertices { result.vertices ≡ vertices_taken records.old.graph which.now (lists_of records.old) from }
    ensures tables { records.new.faces.tables ≡ moved_to result.cycles result.vertices to records.old.faces.tables }
    ensures darts { (lists_of records.new).dart_on ≡ (lists_of records.old).dart_on }
    ensures spare { IsSpareFaces records.old.faces records.new.faces 0 0 }
    ensures carried { IsCarriedOff records.new result }
    ensures graph { graph_part records.new ≡ graph_part records.old }
{
    // No list is longer than what there is room for.
    records.face_laws();
    let mut moved = records.take_moved();
    move_cycles(records, &mut moved, which, but, from, to);
    move_isolated(records, &mut moved, which, from, to);
    moved
}
