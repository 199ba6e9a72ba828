ghost use Rattle.std.specs.Prelude.{◌≡◌, ◌≤◌, IsOk, OnOk};
ghost use Rattle.dcel_records.specs.RecordsView.{tables_of};
ghost use Rattle.dcel_records.specs.SoundMaps.{IsMapAtRest};

use dcel_records::{Records, Room};
use no_memory::NoMemory;

/// Makes room for as many cycles more: an edge that goes may break one in two. Where it is there, no memory is taken.
///
/// # Errors
///
/// There was no memory for them.
pub(crate) fn make_room_of_cycles(records: &mut Records, cycles: usize) -> Result<(), NoMemory>
    ensures room { OnOk result (cycles ≤ records.new.faces.spare_cycles) }
    ensures succeeds { cycles ≤ records.old.faces.spare_cycles → IsOk result }
    ensures graph { records.new.graph ≡ records.old.graph }
    ensures tables { tables_of records.new ≡ tables_of records.old }
    ensures map { IsMapAtRest records.old → IsMapAtRest records.new }
{
    records.reserve(Room {
        vertices: 0,
        edges: 0,
        cycles,
        faces: 0,
    })
}
