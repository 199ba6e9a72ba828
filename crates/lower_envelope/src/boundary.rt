ghost use Rattle.std.specs.Prelude.{◌≡◌, map, IfOk, OnOk};
ghost use Rattle.std.specs.List.{AllByRecursion};
ghost use Rattle.slab_laws.specs.FaceLists.{AreDartsOn, AreFacesListed};
ghost use Rattle.slab_laws.specs.FacesSound.{IsSound};
ghost use Rattle.slab_laws.specs.Sound.{IsGraphSound};
ghost use Rattle.slab_laws.specs.View.{HasDart, HasFace};
ghost use Rattle.lower_envelope.specs.Edges.{AreDartsOfFace, AreOuterDarts, AreWithCycle};
ghost use Rattle.lower_envelope.specs.Corners.{AreOuterEnds, end_key};

use no_memory::NoMemory;
use record_orders::VertexKey;
use slab_laws::{DartId, Darts, FaceId, FaceLists, Faced};
use std::alloc::{AllocError, Global};

// Appends the darts of a cycle, from one of them on.
fn push_cycle<R: Faced>(found: &mut Vec<DartId>, records: &R, first: DartId) -> Result<(), NoMemory>
    requires sound { IsSound (R.graph records.now) (R.faces records.now) }
    requires first { HasDart (R.graph records.now) first }
    ensures { OnOk result (AreWithCycle (R.graph records.now) (R.faces records.now) first found.old.items found.new.items) }
{
    let mut dart = first;
    'cycle: loop {
        found.push(dart)?;
        dart = records.next(dart);
        if dart == first {
            return Ok(());
        }
    }
}

// The darts on the boundaries of a face, by the face's own list of its cycles.
fn boundary_of<R: FaceLists>(
    alloc: Global,
    records: &R,
    face: FaceId,
) -> Result<Vec<DartId>, NoMemory>
    requires sound { IsSound (R.graph records.now) (R.faces records.now) }
    requires listed { AreFacesListed (R.faces records.now) (R.lists records.now) }
    requires darts { AreDartsOn (R.graph records.now) (R.faces records.now) (R.lists records.now) }
    requires face { HasFace (R.faces records.now) face }
    ensures { IfOk result (λ v. AreDartsOfFace (R.graph records.now) (R.faces records.now) face v.items) }
{
    let mut found = Vec::new(alloc);
    let mut at = records.first_cycle_of(face);
    'cycles: while let Some(cycle) = at {
        push_cycle(&mut found, records, records.dart_on(cycle))?;
        at = records.cycle_after_in_face(cycle);
    }
    Ok(found)
}

/// The darts on the boundaries of the unbounded face, which is the first by name.
///
/// # Errors
///
/// There was no memory.
pub(crate) fn outer_boundary<R: FaceLists>(
    alloc: Global,
    records: &R,
) -> Result<Vec<DartId>, NoMemory>
    requires sound { IsSound (R.graph records.now) (R.faces records.now) }
    requires listed { AreFacesListed (R.faces records.now) (R.lists records.now) }
    requires darts { AreDartsOn (R.graph records.now) (R.faces records.now) (R.lists records.now) }
    ensures { IfOk result (λ v. AreOuterDarts (R.graph records.now) (R.faces records.now) v.items) }
{
    match records.face_after(None) {
        Some(outer) => boundary_of(alloc, records, outer),
        None => Ok(Vec::new(alloc)),
    }
}

// A vertex with its point, and before them the whole part of its abscissa, which mostly tells the order alone.
#[derive(Clone, Copy, PartialEq, Eq, PartialOrd, Ord)]
pub(crate) struct EndKey {
    pub(crate) whole: i32,
    pub(crate) vertex: VertexKey,
}

// The source of a dart.
fn source_of<R: Darts>(records: &R, dart: DartId) -> EndKey
    requires sound { IsGraphSound (R.graph records.now) }
    requires has { HasDart (R.graph records.now) dart }
    ensures { result ≡ end_key (R.graph records.now) dart }
{
    let name = records.source(dart);
    let point = records.point(name);
    EndKey {
        whole: point.whole_parts().x,
        vertex: VertexKey { point, name },
    }
}

// The sources of darts.
fn sources_of<R: Darts>(
    alloc: Global,
    records: &R,
    darts: &[DartId],
) -> Result<Vec<EndKey>, NoMemory>
    requires sound { IsGraphSound (R.graph records.now) }
    requires have { AllByRecursion (λ d. HasDart (R.graph records.now) d) darts.now }
    ensures { IfOk result (λ v. v.items ≡ map (end_key (R.graph records.now)) darts.now) }
{
    let mut sources = Vec::new(alloc);
    for dart in darts {
        sources.push(source_of(records, *dart))?;
    }
    Ok(sources)
}

fn vertices_in(alloc: Global, keys: &[EndKey]) -> Result<Vec<VertexKey>, AllocError>
    ensures { IfOk result (λ v. v.items ≡ map (λ k. k.vertex) keys.now) }
{
    keys.iter().map(|key| key.vertex).collect(alloc)
}

/// The vertices on the boundaries of the unbounded face, from the darts there: in the order of their points, each once.
///
/// # Errors
///
/// There was no memory.
pub(crate) fn ends_of<R: Faced>(
    alloc: Global,
    records: &R,
    boundary: &[DartId],
) -> Result<Vec<VertexKey>, NoMemory>
    requires sound { IsGraphSound (R.graph records.now) }
    requires boundary { AreOuterDarts (R.graph records.now) (R.faces records.now) boundary.now }
    ensures { IfOk result (λ v. AreOuterEnds (R.graph records.now) (R.faces records.now) v.items) }
{
    let mut keys = sources_of(alloc, records, boundary)?;
    keys.sort_unstable();
    keys.dedup();
    let ends = vertices_in(alloc, &keys)?;
    Ok(ends)
}
