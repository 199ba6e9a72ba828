ghost use Rattle.std.specs.Prelude.{◌≡◌, ◌≤◌, ◌↔◌, ℕ, pos, map, true, filter, IfOk};
ghost use Rattle.std.specs.Option.{option_map};
ghost use Rattle.std.specs.List.{AllByRecursion};
ghost use Rattle.slab_laws.specs.FacesSound.{IsComplete};
ghost use Rattle.slab_laws.specs.Tables.{is_after, row_at};
ghost use Rattle.slab_laws.specs.View.{HasVertex, HasDart, HasCycle, point_in};
ghost use Rattle.arr_notes.specs.Curves.{is_forward};
ghost use Rattle.arr_notes.specs.CurvedView.{view_by};
ghost use Rattle.arr_notes.specs.ViewRows.{vertex_named, dart_named, edge_named, cycle_named};

use crate::view::{CycleRow, DartRow, EdgeRow, VertexRow, View};
use crate::walks::{cycle_names, dart_names, face_names, vertex_names};
use exact_plane::Point;
use no_memory::NoMemory;
use slab_laws::{Curved, CycleId, DartId, Darts, FaceId, Faced, Sequence, VertexId};
use std::alloc::Global;

// The greatest name below a name, whether it has a record or not; `None` below the least.
fn name_below(vertex: VertexId) -> Option<VertexId>
    ensures { (n : ℕ) → (is_after (option_map (λ u. u.0) result) n ≡ true) ↔ (vertex.0 ≤ n) }
{
    match vertex.0 {
        0 => None,
        number => Some(VertexId(number - 1)),
    }
}

// Whether the name has a record: then it is the next after those below.
fn has_vertex<R: Darts>(records: &R, vertex: VertexId) -> bool
    ensures { (result ≡ true) ↔ HasVertex (R.graph records.now) vertex }
{
    records.vertex_after(name_below(vertex)) == Some(vertex)
}

fn origin() -> Point
    ensures { result ≡ record { x = pos 0; y = pos 0; w = pos 1 } }
{
    Point::new(0, 0, 1).unwrap()
}

// The point of the vertex; without a record, the origin.
fn point_of<R: Darts>(records: &R, vertex: VertexId) -> Point
    ensures { result ≡ point_in (R.graph records.now) vertex }
{
    if has_vertex(records, vertex) {
        records.point(vertex)
    } else {
        origin()
    }
}

// Whether the dart goes from the lower to the upper end of its edge. Nothing here says that its ends have records.
fn goes_forward<R: Darts>(records: &R, dart: DartId) -> bool
    requires { HasDart (R.graph records.now) dart }
    ensures { result ≡ is_forward (R.graph records.now) dart }
{
    point_of(records, records.source(dart)) < point_of(records, records.target(dart))
}

// The face of the vertex where no dart leaves it; `None` where one does.
fn bare_face_of<R: Faced>(records: &R, vertex: VertexId) -> Option<FaceId>
    requires vertex { HasVertex (R.graph records.now) vertex }
    requires complete { IsComplete (R.graph records.now) (R.faces records.now) }
    ensures { result ≡ row_at (R.faces records.now).bare vertex.0 }
{
    match records.out_of(vertex) {
        Some(_) => None,
        None => Some(records.bare_face(vertex)),
    }
}

fn vertex_rows<R: Faced>(
    alloc: Global,
    records: &R,
    names: &[VertexId],
) -> Result<Sequence<VertexRow>, NoMemory>
    requires have { AllByRecursion (λ u. HasVertex (R.graph records.now) u) names.now }
    requires complete { IsComplete (R.graph records.now) (R.faces records.now) }
    ensures { IfOk result (λ rows. rows ≡ map (vertex_named (R.graph records.now) (R.faces records.now)) names.now) }
{
    let mut rows = Sequence::new(alloc);
    for name in names {
        rows.push(VertexRow {
            name: *name,
            point: records.point(*name),
            pinned: records.pinned(*name),
            face: bare_face_of(records, *name),
        })?;
    }
    Ok(rows)
}

fn dart_rows<R: Faced>(
    alloc: Global,
    records: &R,
    names: &[DartId],
) -> Result<Sequence<DartRow>, NoMemory>
    requires { AllByRecursion (λ d. HasDart (R.graph records.now) d) names.now }
    ensures { IfOk result (λ rows. rows ≡ map (dart_named (R.graph records.now) (R.faces records.now)) names.now) }
{
    let mut rows = Sequence::new(alloc);
    for name in names {
        rows.push(DartRow {
            name: *name,
            source: records.source(*name),
            twin: records.twin(*name),
            next: records.next(*name),
            line: records.line(*name),
            cycle: records.cycle(*name),
        })?;
    }
    Ok(rows)
}

fn cycle_rows<R: Faced>(
    alloc: Global,
    records: &R,
    names: &[CycleId],
) -> Result<Sequence<CycleRow>, NoMemory>
    requires { AllByRecursion (λ c. HasCycle (R.faces records.now) c) names.now }
    ensures { IfOk result (λ rows. rows ≡ map (cycle_named (R.faces records.now)) names.now) }
{
    let mut rows = Sequence::new(alloc);
    for name in names {
        rows.push(CycleRow {
            name: *name,
            kind: records.kind(*name),
            face: records.face(*name),
        })?;
    }
    Ok(rows)
}

// The same values, in a sequence of their own.
fn copied<T: Copy + Drop>(alloc: Global, values: &[T]) -> Result<Sequence<T>, NoMemory>
    ensures { IfOk result (λ s. s ≡ values.now) }
{
    let mut sequence = Sequence::new(alloc);
    for value in values {
        sequence.push(*value)?;
    }
    Ok(sequence)
}

// The edge of a forward dart, with its line and its curves.
fn edge_row<R: Curved>(alloc: Global, records: &R, dart: DartId) -> Result<EdgeRow, NoMemory>
    requires { HasDart (R.graph records.now) dart }
    ensures { IfOk result (λ row. row ≡ edge_named (R.graph records.now) (R.curve_list records.now) dart) }
{
    let curves = records.curves(alloc, dart)?;
    Ok(EdgeRow {
        dart,
        line: records.line(dart),
        curves: copied(alloc, &curves)?,
    })
}

fn edge_rows<R: Curved>(
    alloc: Global,
    records: &R,
    names: &[DartId],
) -> Result<Sequence<EdgeRow>, NoMemory>
    requires { AllByRecursion (λ d. HasDart (R.graph records.now) d) names.now }
    ensures { IfOk result (λ rows.
        rows ≡ map (edge_named (R.graph records.now) (R.curve_list records.now)) (filter (is_forward (R.graph records.now)) names.now)) }
{
    let mut rows = Sequence::new(alloc);
    for name in names {
        if goes_forward(records, *name) {
            rows.push(edge_row(alloc, records, *name)?)?;
        }
    }
    Ok(rows)
}

fn copied_edges(alloc: Global, edges: &[EdgeRow]) -> Result<Sequence<EdgeRow>, NoMemory>
    ensures { IfOk result (λ rows. rows ≡ edges.now) }
{
    let mut rows = Sequence::new(alloc);
    for edge in edges {
        rows.push(EdgeRow {
            dart: edge.dart,
            line: edge.line,
            curves: copied(alloc, edge.curves.as_slice())?,
        })?;
    }
    Ok(rows)
}

impl View {
    /// The view of records that are read by name, as they stand, with their cycles and faces.
    ///
    /// # Errors
    ///
    /// There was no memory for the view or for a table on the way.
    pub fn of<R: Curved + Faced>(alloc: Global, records: &R) -> Result<View, NoMemory>
        requires { IsComplete (R.graph records.now) (R.faces records.now) }
        ensures { IfOk result (λ w. w ≡ view_by (R.graph records.now) (R.faces records.now) (R.curve_list records.now)) }
    {
        let vertices = vertex_names(alloc, records)?;
        let darts = dart_names(alloc, records)?;
        let cycles = cycle_names(alloc, records)?;
        let faces = face_names(alloc, records)?;
        Ok(View {
            vertices: vertex_rows(alloc, records, &vertices)?,
            darts: dart_rows(alloc, records, &darts)?,
            edges: edge_rows(alloc, records, &darts)?,
            cycles: cycle_rows(alloc, records, &cycles)?,
            faces: copied(alloc, &faces)?,
        })
    }

    /// The same view once more.
    ///
    /// # Errors
    ///
    /// There was no memory for it.
    pub fn copy(&self, alloc: Global) -> Result<View, NoMemory>
        ensures { IfOk result (λ w. w ≡ self.now) }
    {
        Ok(View {
            vertices: copied(alloc, self.vertices.as_slice())?,
            darts: copied(alloc, self.darts.as_slice())?,
            edges: copied_edges(alloc, self.edges.as_slice())?,
            cycles: copied(alloc, self.cycles.as_slice())?,
            faces: copied(alloc, self.faces.as_slice())?,
        })
    }
}
