ghost use Rattle.std.specs.Prelude.{◌≡◌, ◌≤◌};
ghost use Rattle.slab_laws.specs.View.{HasDart};
ghost use Rattle.arr_notes.specs.MapView.{step_map};
ghost use Rattle.dcel_records.specs.RecordsView.{IsReturned};
ghost use Rattle.dcel_records.specs.SoundMaps.{IsSoundMap, map_of};
ghost use Rattle.edge_unlink.specs.FacedUnlinks.{IsUnlinkTold, TellsOfUnlink};

use crate::faces::{FacedUnlink, unlink_with_faces};
use arr_notes::Change;
use dcel_records::Records;
use slab_laws::DartId;

/// The edge of the dart goes, and the darts round both its ends close up; the change, which tells what became of cycles and faces
/// too: a cycle vanishes, shrinks or breaks, or two faces are united (CGAL manual, `remove_edge`).
///
/// It takes no memory. Where the edge breaks a cycle or unites two, the darts of the shorter one are written, where that is
/// free; and where two faces are united, all that the one that goes had moves.
pub fn unlink(records: &mut Records, d: DartId) -> Change
    requires map { IsSoundMap records.old }
    requires returned { IsReturned records.old }
    requires cycles { 1 ≤ records.old.faces.spare_cycles }
    requires dart { HasDart records.old.graph d }
    ensures change { TellsOfUnlink records.old.graph result d }
    ensures made { IsUnlinkTold records.old records.new result }
    ensures map { map_of records.new ≡ step_map (map_of records.old) result }
{
    let FacedUnlink { m, faces } = unlink_with_faces(records, d);
    Change::RemoveEdge { d, m, faces }
}
