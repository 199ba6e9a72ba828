ghost use Rattle.std.specs.Prelude.{◌≡◌, ◌≢◌, map, filter, flat_map, true, [], IfOk};
ghost use Rattle.std.specs.List.Sorted.{IsStrictlyIncreasing};
ghost use Rattle.slab_laws.specs.Sound.{IsGraphSound};
ghost use Rattle.slab_laws.specs.View.{HasDart};
ghost use Rattle.arr_notes.specs.Curves.{IsForward};
ghost use Rattle.record_orders.specs.Keys.{vertex_keys, dart_key};
ghost use Rattle.subdivision_rows.specs.Listed.{subdivision_by, subdivision_in, view_of, faces_of, AreLinesOf};
ghost use Rattle.slab_laws.specs.FacesSound.{IsSound};
ghost use Rattle.present_graphs.specs.Marks.{mark_of, HaveCome};
ghost use Rattle.subdivision_rows.specs.ByName.{numbers_of, points_at, pinned_among};
ghost use Rattle.plain_slabs.specs.ByName.{graph_by, goes_forward, forward_keys, span_along, key_marks, DoCurvesAscend, AreParts};

use crate::build::plain_of;
use crate::plain::Plain;
use exact_plane::{Point, Span};
use no_memory::NoMemory;
use present_graphs::Mark;
use record_orders::{DartKey, VertexKey, darts_in_order, is_forward, points_of, vertices_in_order};
use slab_laws::{Curved, Darts};
use std::alloc::{AllocError, Global};

/// The vertices, marks and pins of a graph in order, and its edges with their lines.
#[derive(Drop)]
struct Parts {
    points: Vec<Point>,
    marks: Vec<Mark>,
    pins: Vec<Point>,
    edges: Vec<Span>,
}

// The points of the pinned vertices.
fn pins_of<R: Darts>(
    alloc: Global,
    records: &R,
    vertices: &[VertexKey],
) -> Result<Vec<Point>, NoMemory>
    requires sound { IsGraphSound (R.graph records.now) }
    requires vertices { vertices.now ≡ vertex_keys (R.graph records.now) }
    ensures { IfOk result (λ v. v.items ≡ points_at (pinned_among (R.graph records.now) vertices.now)) }
{
    let mut pins = Vec::new(alloc);
    for vertex in vertices {
        if records.pinned(vertex.name) {
            pins.push(vertex.point)?;
        }
    }
    Ok(pins)
}

// The darts that go from the lower to the upper end of their edge, of which each edge has one.
fn forward_among(alloc: Global, darts: &[DartKey]) -> Result<Vec<DartKey>, AllocError>
    ensures { IfOk result (λ v. v.items ≡ filter goes_forward darts.now) }
{
    darts
        .iter()
        .copied()
        .filter(|dart| is_forward(dart))
        .collect(alloc)
}

// The edge of a forward dart, with its line.
fn span_of<R: Darts>(records: &R, dart: &DartKey) -> Span
    requires sound { IsGraphSound (R.graph records.now) }
    requires has { HasDart (R.graph records.now) dart.now.name }
    requires key { dart.now ≡ dart_key (R.graph records.now) dart.now.name }
    requires forward { goes_forward dart.now ≡ true }
    ensures { result ≡ span_along (R.graph records.now) dart.now }
{
    Span::between(dart.source, dart.target, records.line(dart.name))
}

fn spans_of<R: Darts>(alloc: Global, records: &R, darts: &[DartKey]) -> Result<Vec<Span>, NoMemory>
    requires sound { IsGraphSound (R.graph records.now) }
    requires darts { darts.now ≡ forward_keys (R.graph records.now) }
    ensures { IfOk result (λ v. v.items ≡ map (span_along (R.graph records.now)) darts.now) }
{
    let mut spans = Vec::new(alloc);
    for dart in darts {
        spans.push(span_of(records, dart))?;
    }
    Ok(spans)
}

// Adds the marks of a forward dart's edge, one for each curve.
fn add_marks<R: Curved>(
    alloc: Global,
    marks: &mut Vec<Mark>,
    records: &R,
    dart: &DartKey,
) -> Result<(), NoMemory>
    requires { HasDart (R.graph records.now) dart.now.name }
    ensures marks { IfOk result (λ _.
        HaveCome (key_marks (R.curve_list records.now) dart.now) marks.old.items marks.new.items) }
    ensures ascend { IfOk result (λ _. IsStrictlyIncreasing (numbers_of (R.curve_list records.now) dart.now.name)) }
{
    let curves = records.curves(alloc, dart.name)?;
    for curve in &curves {
        let (low, high, curve) = (dart.source, dart.target, *curve);
        marks.push(Mark { low, high, curve })?;
    }
    Ok(())
}

// The marks of all edges, by their forward darts.
fn marks_of<R: Curved>(alloc: Global, records: &R, darts: &[DartKey]) -> Result<Vec<Mark>, NoMemory>
    requires sound { IsGraphSound (R.graph records.now) }
    requires darts { darts.now ≡ forward_keys (R.graph records.now) }
    ensures marks { IfOk result (λ v. map mark_of v.items ≡ flat_map (key_marks (R.curve_list records.now)) darts.now) }
    ensures ascend { IfOk result (λ _. DoCurvesAscend (R.curve_list records.now) darts.now) }
{
    let mut marks = Vec::new(alloc);
    for dart in darts {
        add_marks(alloc, &mut marks, records, dart)?;
    }
    Ok(marks)
}

// What records draw, whatever their names are.
fn parts_of<R: Curved>(alloc: Global, records: &R) -> Result<Parts, NoMemory>
    requires sound { IsGraphSound (R.graph records.now) }
    requires curves { (d : _) → IsForward (R.graph records.now) d → R.curve_list records.now d ≢ [] }
    ensures { IfOk result (AreParts (R.graph records.now) (R.curve_list records.now)) }
{
    // What isn't wanted any more goes at once: each way out drops what stands by then, and each drop is proved anew.
    let vertices = vertices_in_order(alloc, records)?;
    let points = points_of(alloc, &vertices)?;
    let pins = pins_of(alloc, records, &vertices)?;
    drop(vertices);
    let darts = darts_in_order(alloc, records)?;
    let forward = forward_among(alloc, &darts)?;
    drop(darts);
    let marks = marks_of(alloc, records, &forward)?;
    let edges = spans_of(alloc, records, &forward)?;
    Ok(Parts {
        points,
        marks,
        pins,
        edges,
    })
}

/// The subdivision of the plane by the graph of records that are read by name, whatever their names are.
///
/// It computes everything afresh, by the definitions of the slab model, from the points of vertices, the lines and curves
/// of edges, and the pins alone: it reads no cycle and no face, and the names only tell it what belongs together.
///
/// # Errors
///
/// There was no memory for the subdivision or for a table on the way.
pub fn subdivide_of<R: Curved>(alloc: Global, records: &R) -> Result<Plain, NoMemory>
    requires sound { IsGraphSound (R.graph records.now) }
    requires curves { (d : _) → IsForward (R.graph records.now) d → R.curve_list records.now d ≢ [] }
    ensures graph { IfOk result (λ s. s.graph ≡ graph_by (R.graph records.now) (R.curve_list records.now)) }
    ensures subdivision { IfOk result (λ s.
        subdivision_in s ≡ subdivision_by (graph_by (R.graph records.now) (R.curve_list records.now))) }
    ensures lines { IfOk result AreLinesOf }
    ensures stands { IfOk result (λ s. IsSound (view_of s) (faces_of s)) }
{
    let parts = parts_of(alloc, records)?;
    let plain = plain_of(alloc, parts.points, parts.marks, parts.pins, parts.edges)?;
    Ok(plain)
}
