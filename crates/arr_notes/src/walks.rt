ghost use Rattle.std.specs.Prelude.{◌≡◌, map, IfOk};
ghost use Rattle.std.specs.List.{AllByRecursion};
ghost use Rattle.slab_laws.specs.Tables.{names, NamesAscend};
ghost use Rattle.slab_laws.specs.View.{HasVertex, HasDart, HasCycle, vertex_id, dart_id, cycle_id, face_id};

use no_memory::NoMemory;
use slab_laws::{CycleId, DartId, Darts, FaceId, Faced, VertexId};
use std::alloc::Global;

/// The names of all vertices, ascending.
///
/// # Errors
///
/// There was no memory for the list.
pub fn vertex_names<R: Darts>(alloc: Global, records: &R) -> Result<Vec<VertexId>, NoMemory>
    ensures names { IfOk result (λ v. v.items ≡ map vertex_id (names (R.graph records.now).vertices)) }
    ensures have { IfOk result (λ v. AllByRecursion (λ u. HasVertex (R.graph records.now) u) v.items) }
    ensures ascend { NamesAscend (names (R.graph records.now).vertices) }
{
    let mut found = Vec::new(alloc);
    let mut last = None;
    while let Some(name) = records.vertex_after(last) {
        found.push(name)?;
        last = Some(name);
    }
    Ok(found)
}

/// The names of all darts, ascending.
///
/// # Errors
///
/// There was no memory for the list.
pub fn dart_names<R: Darts>(alloc: Global, records: &R) -> Result<Vec<DartId>, NoMemory>
    ensures names { IfOk result (λ v. v.items ≡ map dart_id (names (R.graph records.now).darts)) }
    ensures have { IfOk result (λ v. AllByRecursion (λ d. HasDart (R.graph records.now) d) v.items) }
    ensures ascend { NamesAscend (names (R.graph records.now).darts) }
{
    let mut found = Vec::new(alloc);
    let mut last = None;
    while let Some(name) = records.dart_after(last) {
        found.push(name)?;
        last = Some(name);
    }
    Ok(found)
}

/// The names of all cycles, ascending.
///
/// # Errors
///
/// There was no memory for the list.
pub fn cycle_names<R: Faced>(alloc: Global, records: &R) -> Result<Vec<CycleId>, NoMemory>
    ensures names { IfOk result (λ v. v.items ≡ map cycle_id (names (R.faces records.now).cycles)) }
    ensures have { IfOk result (λ v. AllByRecursion (λ c. HasCycle (R.faces records.now) c) v.items) }
    ensures ascend { NamesAscend (names (R.faces records.now).cycles) }
{
    let mut found = Vec::new(alloc);
    let mut last = None;
    while let Some(name) = records.cycle_after(last) {
        found.push(name)?;
        last = Some(name);
    }
    Ok(found)
}

/// The names of all faces, ascending; that of the unbounded one is the least.
///
/// # Errors
///
/// There was no memory for the list.
pub fn face_names<R: Faced>(alloc: Global, records: &R) -> Result<Vec<FaceId>, NoMemory>
    ensures names { IfOk result (λ v. v.items ≡ map face_id (R.faces records.now).faces) }
    ensures ascend { NamesAscend (R.faces records.now).faces }
{
    let mut found = Vec::new(alloc);
    let mut last = None;
    while let Some(name) = records.face_after(last) {
        found.push(name)?;
        last = Some(name);
    }
    Ok(found)
}
