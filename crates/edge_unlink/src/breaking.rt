ghost use Rattle.std.specs.Prelude.{◌≡◌, ◌≢◌, ◌⊎◌, ◌≤◌, true, false, not};
ghost use Rattle.slab_laws.specs.Sound.{IsGraphSound, skeleton_of, dart_in};
ghost use Rattle.slab_laws.specs.View.{HasDart, cycle_in, next_in, twin_in};
ghost use Rattle.boundary_cycles.specs.Counted.{cycle_length};
ghost use Rattle.face_changes.specs.Kinds.{is_outer};
ghost use Rattle.dcel_records.specs.RecordsView.{IsReturned, tables_of};
ghost use Rattle.dcel_records.specs.SoundMaps.{IsSoundMap};
ghost use Rattle.edge_unlink.specs.FacedUnlinks.{IsUnlinkMade};

use crate::edges::close_up;
use crate::faces::FacedUnlink;
use arr_notes::Unlinked;
use boundary_cycles::{is_no_longer, is_odd_beside};
use cycle_writers::put_orbit;
use dcel_records::Records;
use slab_laws::{CycleKind, DartId, Faced};

// The two darts, first the one whose cycle is no longer.
fn shorter_first(records: &Records, a: DartId, b: DartId) -> (DartId, DartId)
    requires sound { IsGraphSound records.now.graph }
    requires one { HasDart records.now.graph a }
    requires other { HasDart records.now.graph b }
    ensures both { ((result.0 ≡ a) × (result.1 ≡ b)) ⊎ ((result.0 ≡ b) × (result.1 ≡ a)) }
    ensures shorter { cycle_length records.now.graph result.0 ≤ cycle_length records.now.graph result.1 }
{
    if is_no_longer(records, a, b) {
        (a, b)
    } else {
        (b, a)
    }
}

// Darts of the two parts of a cycle, which was outer or wasn't: first that of an inner part, the shorter one where that is
// inner. No part of an inner cycle is outer, and just one of an outer one.
fn inner_first(records: &Records, was_outer: bool, a: DartId, b: DartId) -> (DartId, DartId)
    requires sound { IsGraphSound records.now.graph }
    requires one { HasDart records.now.graph a }
    requires other { HasDart records.now.graph b }
    requires of_inner { let v = records.now.graph in was_outer ≡ false → (is_outer (skeleton_of v) (dart_in v a) ≡ false) × (is_outer (skeleton_of v) (dart_in v b) ≡ false) }
    requires of_outer { let v = records.now.graph in was_outer ≡ true → is_outer (skeleton_of v) (dart_in v b) ≡ not (is_outer (skeleton_of v) (dart_in v a)) }
    ensures both { ((result.0 ≡ a) × (result.1 ≡ b)) ⊎ ((result.0 ≡ b) × (result.1 ≡ a)) }
    ensures inner { let v = records.now.graph in is_outer (skeleton_of v) (dart_in v result.0) ≡ false }
{
    let (short, long) = shorter_first(records, a, b);
    if was_outer && is_odd_beside(records, short, short) {
        (long, short)
    } else {
        (short, long)
    }
}

// Both darts were on one cycle: it breaks. The fresh cycle is an inner part.
pub(crate) fn break_cycle(records: &mut Records, d: DartId) -> FacedUnlink
    requires map { IsSoundMap records.old }
    requires returned { IsReturned records.old }
    requires cycles { 1 ≤ records.old.faces.spare_cycles }
    requires dart { HasDart records.old.graph d }
    requires source { next_in records.old.graph (twin_in records.old.graph d) ≢ d }
    requires target { next_in records.old.graph d ≢ twin_in records.old.graph d }
    requires one { cycle_in (tables_of records.old) d ≡ cycle_in (tables_of records.old) (twin_in records.old.graph d) }
    ensures { IsUnlinkMade records.old records.new d result.m result.faces }
{
    let kept = records.cycle(d);
    let face = records.face(kept);
    let was_outer = records.kind(kept).is_outer();
    let names = close_up(records, d);
    let (fresh_dart, other) = inner_first(records, was_outer, names.into_d, names.into_m);
    let fresh = records.add_cycle(CycleKind::Inner, face, fresh_dart);
    put_orbit(records, fresh_dart, fresh);
    records.set_dart(kept, other);
    FacedUnlink {
        m: names.m,
        faces: Unlinked::Breaks {
            kept,
            fresh,
            fresh_dart,
        },
    }
}
