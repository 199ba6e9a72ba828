ghost use Rattle.std.specs.Prelude.{◌≡◌, map, IfOk, OnOk};
ghost use Rattle.slab_laws.specs.Tables.{names, NamesAscend};
ghost use Rattle.arr_notes.specs.CurvedView.{IsSoundView};
ghost use Rattle.arr_notes.specs.ViewRows.{vertex_row, dart_row, edge_row};
ghost use Rattle.mirror_observer.specs.Tables.{rows, vertex_of, dart_of, numbers_in, darts_of};
ghost use Rattle.mirror_observer.specs.Standing.{IsBackLinked, view_in, AreStanding, IsOneToOne};

use crate::curves::copied;
use crate::darts::{next_of, precede};
use crate::faces::FaceTables;
use crate::tables::{DartEntry, Tables, VertexEntry};
use arr_notes::{DartRow, EdgeRow, VertexRow, View};
use no_memory::NoMemory;
use slab_laws::{CurveId, Sequence};
use std::alloc::Global;
use std::collections::BTreeMap;

fn vertices_of(alloc: Global, list: &[VertexRow]) -> Result<BTreeMap<usize, VertexEntry>, NoMemory>
    requires { NamesAscend (names (map vertex_row list.now)) }
    ensures { IfOk result (λ m. rows vertex_of m.entries ≡ map vertex_row list.now) }
{
    let mut vertices = BTreeMap::new(alloc);
    for row in list {
        let entry = VertexEntry {
            point: row.point,
            pinned: row.pinned,
        };
        vertices.insert(row.name.0, entry)?;
    }
    Ok(vertices)
}

// The darts, each of which names itself as the one before.
fn darts_apart(alloc: Global, list: &[DartRow]) -> Result<BTreeMap<usize, DartEntry>, NoMemory>
    requires { NamesAscend (names (map dart_row list.now)) }
    ensures { IfOk result (λ m. rows dart_of m.entries ≡ map dart_row list.now) }
{
    let mut darts = BTreeMap::new(alloc);
    for row in list {
        let entry = DartEntry {
            source: row.source,
            twin: row.twin,
            next: row.next,
            previous: row.name,
            line: row.line,
        };
        darts.insert(row.name.0, entry)?;
    }
    Ok(darts)
}

// Each dart is named by the one that follows as the one before.
fn name_previous(darts: &mut BTreeMap<usize, DartEntry>, list: &[DartRow])
    requires rows { rows dart_of darts.old.entries ≡ map dart_row list.now }
    requires once { IsOneToOne (rows dart_of darts.old.entries) }
    ensures rows { rows dart_of darts.new.entries ≡ map dart_row list.now }
    ensures back { IsBackLinked darts.new.entries }
{
    for row in list {
        let next = next_of(darts, row.name);
        precede(darts, next, row.name);
    }
}

fn curves_of(
    alloc: Global,
    list: &[EdgeRow],
) -> Result<BTreeMap<usize, Sequence<CurveId>>, NoMemory>
    requires { NamesAscend (names (map edge_row list.now)) }
    ensures { IfOk result (λ m. rows numbers_in m.entries ≡ map edge_row list.now) }
{
    let mut curves = BTreeMap::new(alloc);
    for row in list {
        let along = copied(alloc, row.curves.as_slice())?;
        curves.insert(row.dart.0, along)?;
    }
    Ok(curves)
}

impl Tables {
    /// Maps that say what a view says.
    ///
    /// # Errors
    ///
    /// There was no memory for them.
    pub fn of(alloc: Global, view: &View) -> Result<Tables, NoMemory>
        requires { IsSoundView view.now }
        ensures view { IfOk result (λ t. view_in t ≡ view.now) }
        ensures back { IfOk result (λ t. IsBackLinked t.darts.entries) }
    {
        let vertices = vertices_of(alloc, view.vertices())?;
        let mut darts = darts_apart(alloc, view.darts())?;
        name_previous(&mut darts, view.darts());
        let curves = curves_of(alloc, view.edges())?;
        let faces = FaceTables::of(alloc, view)?;
        Ok(Tables {
            vertices,
            darts,
            curves,
            faces,
        })
    }
}
