ghost use Rattle.std.specs.Prelude.{◌≡◌, ◌≢◌, ◌≤◌};
ghost use Rattle.slab_laws.specs.View.{HasDart, next_in, twin_in};
ghost use Rattle.dcel_records.specs.RecordsView.{IsReturned};
ghost use Rattle.dcel_records.specs.SoundMaps.{IsSoundMap};
ghost use Rattle.edge_unlink.specs.FacedUnlinks.{IsUnlinkMade};

use crate::breaking::break_cycle;
use crate::edges::close_up;
use crate::uniting::unite;
use arr_notes::Unlinked;
use dcel_records::Records;
use slab_laws::{DartId, Darts, Faced};

/// An edge that went: the name that the twin of its dart had, and what became of cycles and faces.
#[derive(Drop)]
pub(crate) struct FacedUnlink {
    pub m: DartId,
    pub faces: Unlinked,
}

// The edge is alone: its cycle goes, and both ends are isolated in the face that the cycle was in.
fn vanish(records: &mut Records, d: DartId) -> FacedUnlink
    requires map { IsSoundMap records.old }
    requires returned { IsReturned records.old }
    requires dart { HasDart records.old.graph d }
    requires source { next_in records.old.graph (twin_in records.old.graph d) ≡ d }
    requires target { next_in records.old.graph d ≡ twin_in records.old.graph d }
    ensures { IsUnlinkMade records.old records.new d result.m result.faces }
{
    let u = records.source(d);
    let v = records.target(d);
    let cycle = records.cycle(d);
    let face = records.face(cycle);
    let names = close_up(records, d);
    records.remove_cycle(cycle);
    records.set_bare(u, face);
    records.set_bare(v, face);
    FacedUnlink {
        m: names.m,
        faces: Unlinked::Vanishes { cycle, face },
    }
}

// One end of the edge, the source of d, becomes bare: the cycle keeps a dart that stays.
fn shrink_at_source(records: &mut Records, d: DartId) -> FacedUnlink
    requires map { IsSoundMap records.old }
    requires returned { IsReturned records.old }
    requires dart { HasDart records.old.graph d }
    requires source { next_in records.old.graph (twin_in records.old.graph d) ≡ d }
    requires target { next_in records.old.graph d ≢ twin_in records.old.graph d }
    ensures { IsUnlinkMade records.old records.new d result.m result.faces }
{
    let start = records.source(d);
    let cycle = records.cycle(d);
    let face = records.face(cycle);
    let stays = records.next(d);
    let names = close_up(records, d);
    records.set_dart(cycle, stays);
    records.set_bare(start, face);
    FacedUnlink {
        m: names.m,
        faces: Unlinked::Shrinks { cycle, face },
    }
}

// The same, where it is the target of d.
fn shrink_at_target(records: &mut Records, d: DartId) -> FacedUnlink
    requires map { IsSoundMap records.old }
    requires returned { IsReturned records.old }
    requires dart { HasDart records.old.graph d }
    requires source { next_in records.old.graph (twin_in records.old.graph d) ≢ d }
    requires target { next_in records.old.graph d ≡ twin_in records.old.graph d }
    ensures { IsUnlinkMade records.old records.new d result.m result.faces }
{
    let end = records.target(d);
    let cycle = records.cycle(d);
    let face = records.face(cycle);
    let stays = records.next(records.twin(d));
    let names = close_up(records, d);
    records.set_dart(cycle, stays);
    records.set_bare(end, face);
    FacedUnlink {
        m: names.m,
        faces: Unlinked::Shrinks { cycle, face },
    }
}

// Neither end becomes bare: where both darts were on one cycle it breaks, else two faces are united.
fn part(records: &mut Records, d: DartId) -> FacedUnlink
    requires map { IsSoundMap records.old }
    requires returned { IsReturned records.old }
    requires cycles { 1 ≤ records.old.faces.spare_cycles }
    requires dart { HasDart records.old.graph d }
    requires source { next_in records.old.graph (twin_in records.old.graph d) ≢ d }
    requires target { next_in records.old.graph d ≢ twin_in records.old.graph d }
    ensures { IsUnlinkMade records.old records.new d result.m result.faces }
{
    let first = records.cycle(d);
    let second = records.cycle(records.twin(d));
    if first == second {
        break_cycle(records, d)
    } else {
        unite(records, d)
    }
}

/// The edge of the dart goes, and the darts round both its ends close up; the name that its twin had, and what becomes of cycles
/// and faces: a cycle that vanishes, shrinks or breaks, or two faces that are united.
pub(crate) fn unlink_with_faces(records: &mut Records, d: DartId) -> FacedUnlink
    requires map { IsSoundMap records.old }
    requires returned { IsReturned records.old }
    requires cycles { 1 ≤ records.old.faces.spare_cycles }
    requires dart { HasDart records.old.graph d }
    ensures { IsUnlinkMade records.old records.new d result.m result.faces }
{
    let m = records.twin(d);
    let bares_source = records.next(m) == d;
    let bares_target = records.next(d) == m;
    match (bares_source, bares_target) {
        (true, true) => vanish(records, d),
        (true, false) => shrink_at_source(records, d),
        (false, true) => shrink_at_target(records, d),
        (false, false) => part(records, d),
    }
}
