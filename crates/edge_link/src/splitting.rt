ghost use Rattle.std.specs.Prelude.{◌≡◌, ◌≤◌, Some, IfSome};
ghost use Rattle.slab_laws.specs.Sound.{IsGraphSound};
ghost use Rattle.slab_laws.specs.View.{HasCycle, HasDart, HasFace, cycle_in, twin_in};
ghost use Rattle.slab_laws.specs.declared.names.CycleKind.TheVariants.{Outer};
ghost use Rattle.boundary_cycles.specs.Extents.{IsExtent};
ghost use Rattle.arr_notes.specs.FaceWriters.{orbit_on, with_cycle, with_face};
ghost use Rattle.dcel_records.specs.ListChanges.{cycle_listed, dart_listed};
ghost use Rattle.dcel_records.specs.RecordsView.{IsReturned, IsSpareFaces, graph_part, lists_of, tables_of};
ghost use Rattle.dcel_records.specs.SoundMaps.{IsSoundMap};
ghost use Rattle.face_steps.specs.RowsWritten.{AreDartRows};
ghost use Rattle.edge_link.specs.FacedLinks.{IsLinkMade};
ghost use Rattle.edge_link.specs.Halves.{AreHalves};
ghost use Rattle.edge_link.specs.Links.{CanLink};

use crate::faces::FacedLink;
use crate::links::link_on;
use arr_notes::Linked;
use boundary_cycles::{Extent, extent_of, is_no_longer, is_odd_beside};
use cycle_writers::{Which, carry_off, put_orbit};
use dcel_records::Records;
use exact_plane::Line;
use slab_laws::{CycleId, CycleKind, DartId, Darts, FaceId, FaceLists, Faced, VertexId};

// The halves of a cycle that an edge has parted: the dart of the one that becomes the fresh cycle, that of the other, and how
// it is told what goes to the fresh face.
#[derive(Clone, Copy)]
struct Halves {
    fresh: DartId,
    other: DartId,
    which: Which,
}

// The extent of a dart's cycle, where it will be asked for.
fn extent_where(records: &Records, d: DartId, asked: bool) -> Option<Extent>
    requires sound { IsGraphSound records.now.graph }
    requires dart { HasDart records.now.graph d }
    ensures { IfSome result (IsExtent records.now.graph d) }
{
    if asked {
        Some(extent_of(records, d))
    } else {
        None
    }
}

// The halves, by asking one of them: where that is outer it is the fresh one, else the other is. What lies within it is asked
// of the same half later; its extent is worked out where there is such.
fn halves_asked(
    records: &Records,
    asked: DartId,
    rest: DartId,
    both_outer: bool,
    crowded: bool,
) -> Halves
    requires sound { IsGraphSound records.now.graph }
    requires asked { HasDart records.now.graph asked }
    ensures { AreHalves records.now.graph asked rest both_outer result }
{
    let which = Which::Inside {
        half: asked,
        extent: extent_where(records, asked, crowded),
    };
    if both_outer || is_odd_beside(records, asked, asked) {
        Halves {
            fresh: asked,
            other: rest,
            which,
        }
    } else {
        Halves {
            fresh: rest,
            other: asked,
            which,
        }
    }
}

// Of an outer cycle both halves are outer, and one of an inner one. It is the shorter half that is asked.
fn shorter_asked(records: &Records, d: DartId, m: DartId, both_outer: bool, crowded: bool) -> Halves
    requires sound { IsGraphSound records.now.graph }
    requires first { HasDart records.now.graph d }
    requires second { HasDart records.now.graph m }
    ensures { AreHalves records.now.graph d m both_outer result }
{
    if is_no_longer(records, d, m) {
        halves_asked(records, d, m, both_outer, crowded)
    } else {
        halves_asked(records, m, d, both_outer, crowded)
    }
}

// Whether a face has more on its boundary than one of its cycles.
fn has_more(records: &Records, face: FaceId, cycle: CycleId) -> bool
    requires face { HasFace (tables_of records.now) face }
    requires cycle { HasCycle (tables_of records.now) cycle }
{
    match records.first_cycle_of(face) {
        Some(first) => {
            first != cycle
                || records.cycle_after_in_face(cycle).is_some()
                || records.first_isolated_in(face).is_some()
        }
        None => true,
    }
}

// The orbit of a dart of a cycle that is parted becomes a fresh cycle, the outer one of a fresh face; another dart is kept for
// the rest.
fn part_off(
    records: &mut Records,
    kept: CycleId,
    fresh_dart: DartId,
    other: DartId,
) -> (CycleId, FaceId)
    requires sound { IsGraphSound records.old.graph }
    requires dart { HasDart records.old.graph fresh_dart }
    requires rows { AreDartRows records.old.graph records.old.faces.tables }
    requires kept { HasCycle records.old.faces.tables kept }
    requires cycles { 1 ≤ records.old.faces.spare_cycles }
    requires faces { 1 ≤ records.old.faces.spare_faces }
    ensures cycle { ¬ HasCycle records.old.faces.tables result.0 }
    ensures face { ¬ HasFace records.old.faces.tables result.1 }
    ensures tables { records.new.faces.tables ≡ with_cycle result.0 Outer result.1 (with_face result.1 (orbit_on records.old.graph fresh_dart result.0 records.old.faces.tables)) }
    ensures lists { lists_of records.new ≡ dart_listed kept other (cycle_listed result.0 result.1 fresh_dart (lists_of records.old)) }
    ensures spare { IsSpareFaces records.new.faces records.old.faces 1 1 }
    ensures moved { records.new.faces.moved ≡ records.old.faces.moved }
    ensures graph { graph_part records.new ≡ graph_part records.old }
{
    let face = records.add_face();
    let cycle = records.add_cycle(CycleKind::Outer, face, fresh_dart);
    put_orbit(records, fresh_dart, cycle);
    records.set_dart(kept, other);
    (cycle, face)
}

// Between two places on one cycle: the edge parts the cycle, and its face. The fresh cycle is an outer half: the shorter one
// where that is outer. What else the face had goes by the parity of the shorter half.
pub(crate) fn split_face(
    records: &mut Records,
    u: VertexId,
    v: VertexId,
    at_u: DartId,
    at_v: DartId,
    line: Line,
) -> FacedLink
    requires map { IsSoundMap records.old }
    requires returned { IsReturned records.old }
    requires darts { 2 ≤ records.old.spare_darts }
    requires cycles { 1 ≤ records.old.faces.spare_cycles }
    requires faces { 1 ≤ records.old.faces.spare_faces }
    requires fits { CanLink records.old.graph u v (Some at_u) (Some at_v) line }
    requires one { cycle_in (tables_of records.old) (twin_in records.old.graph at_u) ≡ cycle_in (tables_of records.old) (twin_in records.old.graph at_v) }
    ensures { IsLinkMade records.old records.new result.names u v (Some at_u) (Some at_v) line result.faces }
{
    // Each face lists its own, and the unbounded one's name is the least.
    records.face_laws();
    let kept = records.cycle(records.twin(at_u));
    let face = records.face(kept);
    let both_outer = records.kind(kept).is_outer();
    let crowded = has_more(records, face, kept);
    let names = link_on(records, u, v, Some(at_u), Some(at_v), line, kept);
    let halves = shorter_asked(records, names.d, names.m, both_outer, crowded);
    let (fresh, fresh_face) = part_off(records, kept, halves.fresh, halves.other);
    let moved = carry_off(records, &halves.which, kept, face, fresh_face);
    FacedLink {
        names,
        faces: Linked::Splits {
            kept,
            fresh,
            fresh_dart: halves.fresh,
            fresh_face,
            moved,
        },
    }
}
