ghost use Rattle.std.specs.Prelude.{◌≡◌, map, IfOk, OnOk};
ghost use Rattle.std.specs.List.{flat_map};
ghost use Rattle.slab_laws.specs.Tables.{names, NamesAscend};
ghost use Rattle.arr_notes.specs.CurvedView.{IsSoundView};
ghost use Rattle.arr_notes.specs.ViewRows.{bare_row, cycle_of_row, cycle_row};
ghost use Rattle.mirror_observer.specs.FaceTables.{faces_in, cycle_record, put_row};
ghost use Rattle.mirror_observer.specs.Tables.{rows};

use crate::faces::{CycleEntry, FaceTables};
use arr_notes::{CycleRow, DartRow, VertexRow, View};
use no_memory::NoMemory;
use slab_laws::{CycleId, FaceId};
use std::alloc::Global;
use std::collections::{BTreeMap, BTreeSet};

fn cycles_of_darts(alloc: Global, list: &[DartRow]) -> Result<BTreeMap<usize, CycleId>, NoMemory>
    requires { NamesAscend (names (map cycle_of_row list.now)) }
    ensures { IfOk result (λ m. m.entries ≡ map cycle_of_row list.now) }
{
    let mut cycle_of = BTreeMap::new(alloc);
    for row in list {
        cycle_of.insert(row.name.0, row.cycle)?;
    }
    Ok(cycle_of)
}

// The vertex is isolated in the face, where one is named.
fn keep_bare(bare: &mut BTreeMap<usize, FaceId>, row: &VertexRow) -> Result<(), NoMemory>
    ensures { OnOk result (bare.new.entries ≡ put_row (bare_row row.now.name row.now.face) bare.old.entries) }
{
    if let Some(face) = row.face {
        bare.insert(row.name.0, face)?;
    }
    Ok(())
}

fn faces_of_vertices(alloc: Global, list: &[VertexRow]) -> Result<BTreeMap<usize, FaceId>, NoMemory>
    requires { NamesAscend (names (flat_map (λ r. bare_row r.name r.face) list.now)) }
    ensures { IfOk result (λ m. m.entries ≡ flat_map (λ r. bare_row r.name r.face) list.now) }
{
    let mut bare = BTreeMap::new(alloc);
    for row in list {
        keep_bare(&mut bare, row)?;
    }
    Ok(bare)
}

fn cycles_of(alloc: Global, list: &[CycleRow]) -> Result<BTreeMap<usize, CycleEntry>, NoMemory>
    requires { NamesAscend (names (map cycle_row list.now)) }
    ensures { IfOk result (λ m. rows cycle_record m.entries ≡ map cycle_row list.now) }
{
    let mut cycles = BTreeMap::new(alloc);
    for row in list {
        let entry = CycleEntry {
            kind: row.kind,
            face: row.face,
        };
        cycles.insert(row.name.0, entry)?;
    }
    Ok(cycles)
}

fn faces_of(alloc: Global, list: &[FaceId]) -> Result<BTreeSet<usize>, NoMemory>
    requires { NamesAscend (map (λ a. a.0) list.now) }
    ensures { IfOk result (λ s. s.keys ≡ map (λ a. a.0) list.now) }
{
    let mut faces = BTreeSet::new(alloc);
    for face in list {
        faces.insert(face.0)?;
    }
    Ok(faces)
}

impl FaceTables {
    // Maps that say what a view says of cycles and faces.
    pub(crate) fn of(alloc: Global, view: &View) -> Result<FaceTables, NoMemory>
        requires { IsSoundView view.now }
        ensures { IfOk result (λ t. faces_in t ≡ view.now.faces) }
    {
        let cycle_of = cycles_of_darts(alloc, view.darts())?;
        let bare = faces_of_vertices(alloc, view.vertices())?;
        let cycles = cycles_of(alloc, view.cycles())?;
        let faces = faces_of(alloc, view.faces())?;
        Ok(FaceTables {
            cycle_of,
            bare,
            cycles,
            faces,
        })
    }
}
