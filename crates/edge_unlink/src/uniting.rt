ghost use Rattle.std.specs.Prelude.{◌≡◌, ◌≢◌, ◌⊎◌, true, false};
ghost use Rattle.slab_laws.specs.Sound.{IsGraphSound};
ghost use Rattle.slab_laws.specs.View.{HasDart, HasCycle, HasFace, HasBareFace, HasVertex, cycle_in, face_id, face_in, kind_in, next_in, twin_in};
ghost use Rattle.slab_laws.specs.declared.names.CycleKind.TheVariants.{Outer};
ghost use Rattle.arr_notes.specs.FaceWriters.{moved_to, off_cycles, recycled, without_cycle, without_face};
ghost use Rattle.arr_notes.specs.Step.{remove_edge};
ghost use Rattle.dcel_records.specs.ListChanges.{cycle_unlisted, dart_listed};
ghost use Rattle.dcel_records.specs.RecordsView.{IsReturned, IsSpare, IsSpareFaces, graph_part, lists_of, tables_of};
ghost use Rattle.dcel_records.specs.SoundMaps.{IsSoundMap, IsCarriedOff};
ghost use Rattle.cycle_writers.specs.Taken.{cycles_taken, vertices_taken};
ghost use Rattle.cycle_writers.specs.declared.moves.Which.TheVariants.{All};
ghost use Rattle.edge_unlink.specs.FacedUnlinks.{IsUnlinkMade};

use crate::edges::close_up;
use crate::faces::FacedUnlink;
use arr_notes::Unlinked;
use boundary_cycles::is_no_longer;
use cycle_writers::{Which, move_cycles, move_isolated, put_run};
use dcel_records::Records;
use slab_laws::{CycleId, DartId, Darts, FaceId, Faced, Moved};

// Of two cycles on the sides of an edge, whether the first one goes: one that is outer, and of two that are the shorter.
fn first_goes(records: &Records, d: DartId, m: DartId) -> bool
    requires map { IsSoundMap records.now }
    requires dart { HasDart records.now.graph d }
    requires twin { m ≡ twin_in records.now.graph d }
    requires two { cycle_in (tables_of records.now) d ≢ cycle_in (tables_of records.now) m }
    ensures first { result ≡ true → kind_in (tables_of records.now) (cycle_in (tables_of records.now) d) ≡ Outer }
    ensures second { result ≡ false → kind_in (tables_of records.now) (cycle_in (tables_of records.now) m) ≡ Outer }
{
    if !records.kind(records.cycle(d)).is_outer() {
        return false;
    }
    if !records.kind(records.cycle(m)).is_outer() {
        return true;
    }
    is_no_longer(records, d, m)
}

// All that a face has moves to another one, but the cycle `gone` that bounds it from outside, which goes with it.
fn unite_faces(records: &mut Records, gone: CycleId, from: FaceId, to: FaceId) -> Moved
    requires sound { IsGraphSound records.old.graph }
    requires returned { IsReturned records.old }
    requires gone { HasCycle records.old.faces.tables gone }
    requires off { (d : _) → HasDart records.old.graph d → cycle_in records.old.faces.tables d ≢ gone }
    requires face { face_in records.old.faces.tables gone ≡ from }
    requires from { HasFace records.old.faces.tables from }
    requires to { HasFace records.old.faces.tables to }
    requires two { from ≢ to }
    requires bounded { from ≢ face_id 0 }
    requires darts { (c : _) → HasCycle records.old.faces.tables c → c ≢ gone → HasDart records.old.graph ((lists_of records.old).dart_on c) }
    requires vertices { (v : _) → HasBareFace records.old.faces.tables v → HasVertex records.old.graph v }
    ensures cycles { result.cycles ≡ cycles_taken records.old.graph All gone (lists_of records.old) from }
    ensures vertices { result.vertices ≡ vertices_taken records.old.graph All (lists_of records.old) from }
    ensures carried { IsCarriedOff records.new result }
    ensures tables { records.new.faces.tables ≡ without_face from (without_cycle gone (moved_to result.cycles result.vertices to records.old.faces.tables)) }
    ensures darts { (lists_of records.new).dart_on ≡ (cycle_unlisted gone (lists_of records.old)).dart_on }
    ensures spare { IsSpareFaces records.old.faces records.new.faces 1 1 }
    ensures graph { graph_part records.new ≡ graph_part records.old }
{
    records.face_laws();
    let mut moved = records.take_moved();
    move_cycles(records, &mut moved, &Which::All, gone, from, to);
    move_isolated(records, &mut moved, &Which::All, from, to);
    records.remove_cycle(gone);
    records.face_laws();
    records.remove_face(from);
    moved
}

// The edge goes, and the darts of one of the two cycles on its sides are on the other, for which a dart that stays is kept;
// the name that the twin of d had.
fn put_together(records: &mut Records, d: DartId, on_gone: DartId, on_kept: DartId) -> DartId
    requires map { IsSoundMap records.old }
    requires dart { HasDart records.old.graph d }
    requires sides { ((on_gone ≡ d) × (on_kept ≡ twin_in records.old.graph d)) ⊎ ((on_kept ≡ d) × (on_gone ≡ twin_in records.old.graph d)) }
    requires two { cycle_in (tables_of records.old) on_gone ≢ cycle_in (tables_of records.old) on_kept }
    ensures twin { result ≡ twin_in records.old.graph d }
    ensures graph { records.new.graph ≡ remove_edge records.old.graph d result }
    ensures sound { IsGraphSound records.new.graph }
    ensures spare { IsSpare records.old records.new 0 2 }
    ensures tables { records.new.faces.tables ≡ recycled (cycle_in (tables_of records.old) on_gone) (cycle_in (tables_of records.old) on_kept) (off_cycles result (off_cycles d (tables_of records.old))) }
    ensures lists { lists_of records.new ≡ dart_listed (cycle_in (tables_of records.old) on_kept) (next_in records.old.graph on_kept) (lists_of records.old) }
    ensures spare_faces { IsSpareFaces records.old.faces records.new.faces 0 0 }
    ensures returned { records.new.faces.moved ≡ records.old.faces.moved }
{
    let kept = records.cycle(on_kept);
    let from = records.next(on_gone);
    let to = records.next(on_kept);
    let m = close_up(records, d).m;
    put_run(records, from, to, kept);
    records.set_dart(kept, to);
    m
}

// The darts of the edge were on two cycles: the outer one of one side goes with its face. `on_gone` is the dart of the edge
// that was on it, and `on_kept` its twin; `d` is one of both.
fn unite_into(records: &mut Records, d: DartId, on_gone: DartId, on_kept: DartId) -> FacedUnlink
    requires map { IsSoundMap records.old }
    requires returned { IsReturned records.old }
    requires dart { HasDart records.old.graph d }
    requires sides { ((on_gone ≡ d) × (on_kept ≡ twin_in records.old.graph d)) ⊎ ((on_kept ≡ d) × (on_gone ≡ twin_in records.old.graph d)) }
    requires two { cycle_in (tables_of records.old) on_gone ≢ cycle_in (tables_of records.old) on_kept }
    requires outer { kind_in (tables_of records.old) (cycle_in (tables_of records.old) on_gone) ≡ Outer }
    ensures { IsUnlinkMade records.old records.new d result.m result.faces }
{
    records.face_laws();
    let gone = records.cycle(on_gone);
    let kept = records.cycle(on_kept);
    let gone_face = records.face(gone);
    let face = records.face(kept);
    let m = put_together(records, d, on_gone, on_kept);
    let moved = unite_faces(records, gone, gone_face, face);
    FacedUnlink {
        m,
        faces: Unlinked::Unites {
            kept,
            gone,
            gone_face,
            moved,
        },
    }
}

// The darts of the edge were on two cycles, of two faces, which are one then.
pub(crate) fn unite(records: &mut Records, d: DartId) -> FacedUnlink
    requires map { IsSoundMap records.old }
    requires returned { IsReturned records.old }
    requires dart { HasDart records.old.graph d }
    requires two { cycle_in (tables_of records.old) d ≢ cycle_in (tables_of records.old) (twin_in records.old.graph d) }
    ensures { IsUnlinkMade records.old records.new d result.m result.faces }
{
    let m = records.twin(d);
    if first_goes(records, d, m) {
        unite_into(records, d, d, m)
    } else {
        unite_into(records, d, m, d)
    }
}
