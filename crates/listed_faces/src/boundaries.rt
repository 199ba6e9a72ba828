ghost use Rattle.std.specs.Prelude.{◌≡◌, ◌<◌, ◌++◌, ◌∷◌, [], cond, length, slice_set, IfOk, OnOk};
ghost use Rattle.slab_laws.specs.View.{HasDart, cycle_in};
ghost use Rattle.subdivision_rows.specs.Listed.{subdivision_in, view_of, faces_of};
ghost use Rattle.listed_faces.specs.FaceParts.{is_kind, AreBoundariesOf};
ghost use Rattle.listed_faces.specs.Boundaries.{bounds, AreDartsOnCycles};

use no_memory::NoMemory;
use slab_laws::{CycleId, CycleKind, DartId, Darts, FaceId, Faced};
use std::alloc::Global;
use subdivision_rows::Rows;

/// Whether a kind is the one that is asked for.
pub fn is_kind(asked: CycleKind, kind: CycleKind) -> bool
    ensures { result ≡ is_kind asked kind }
{
    match asked {
        CycleKind::Outer => kind.is_outer(),
        CycleKind::Inner => !kind.is_outer(),
    }
}

// How many boundaries there are.
fn boundary_count(rows: &Rows) -> usize
    ensures { result ≡ length (subdivision_in rows.now).cycles }
{
    rows.lists().kinds.len()
}

// The dart is the one that is kept for the boundary.
fn keep(kept: &mut Vec<DartId>, cycle: CycleId, dart: DartId)
    requires { cycle.0 < length kept.old.items }
    ensures { kept.new.items ≡ slice_set kept.old.items cycle.0 dart }
{
    kept[cycle.0] = dart;
}

/// A dart on each boundary, in the order of the boundaries' names. By it one pass tells all boundaries of all faces.
///
/// One look at each dart.
///
/// # Errors
///
/// There was no memory for the list.
pub fn darts_on_boundaries(alloc: Global, rows: &Rows) -> Result<Vec<DartId>, NoMemory>
    ensures { IfOk result (λ v. AreDartsOnCycles (view_of rows.now) (faces_of rows.now) v.items) }
{
    rows.laws();
    let mut kept = Vec::new(alloc);
    kept.resize(boundary_count(rows), DartId(0))?;
    let mut last = None;
    'darts: while let Some(dart) = rows.dart_after(last) {
        keep(&mut kept, rows.cycle(dart), dart);
        last = Some(dart);
    }
    Ok(kept)
}

// Whether the boundary that a dart is on is one of the face, of this kind.
fn is_on_boundary(rows: &Rows, dart: DartId, face: FaceId, kind: CycleKind) -> bool
    requires { HasDart (view_of rows.now) dart }
    ensures { result ≡ bounds (faces_of rows.now) face kind (cycle_in (faces_of rows.now) dart) }
{
    let cycle = rows.cycle(dart);
    rows.face(cycle) == face && is_kind(kind, rows.kind(cycle))
}

// Appends a dart, where the boundary that it is on is one of the face, of this kind.
fn push_on_boundary(
    found: &mut Vec<DartId>,
    rows: &Rows,
    dart: DartId,
    face: FaceId,
    kind: CycleKind,
) -> Result<(), NoMemory>
    requires { HasDart (view_of rows.now) dart }
    ensures { OnOk result (found.new.items ≡ found.old.items
        ++ cond (bounds (faces_of rows.now) face kind (cycle_in (faces_of rows.now) dart)) (dart ∷ []) []) }
{
    if is_on_boundary(rows, dart, face, kind) {
        found.push(dart)?;
    }
    Ok(())
}

/// A dart on each boundary of a face that is of this kind, with the face on its left: on the outer one, which each face but the
/// unbounded one has, or on those of its holes.
///
/// One look at each dart, and a list of a dart for each boundary on the way.
///
/// # Errors
///
/// There was no memory for a list.
pub fn boundaries_of(
    alloc: Global,
    rows: &Rows,
    face: FaceId,
    kind: CycleKind,
) -> Result<Vec<DartId>, NoMemory>
    ensures { IfOk result (λ v. AreBoundariesOf (view_of rows.now) (faces_of rows.now) face kind v.items) }
{
    rows.laws();
    let all = darts_on_boundaries(alloc, rows)?;
    let mut found = Vec::new(alloc);
    'boundaries: for dart in &all {
        push_on_boundary(&mut found, rows, *dart, face, kind)?;
    }
    Ok(found)
}
