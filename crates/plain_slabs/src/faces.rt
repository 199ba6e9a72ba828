ghost use Rattle.std.specs.Prelude.{◌≡◌, ◌<◌, length, map, IfOk, OnOk};
ghost use Rattle.std.specs.List.{All};
ghost use Rattle.slab_laws.specs.SpansDrawn.{drawn};
ghost use Rattle.slab_laws.specs.Faces.{cells as cells_in};
ghost use Rattle.slab_laws.specs.Rows.{dart_rows, lead_places, cycle_rows};
ghost use Rattle.slab_laws.specs.Skeleton.{IsPlaneSkeleton};
ghost use Rattle.slab_laws.specs.Subdivision.{subdivision};
ghost use Rattle.plain_slabs.specs.Faces.{lead_row, is_end, rank_round, added, AreLabelsOf, AreSeen};
ghost use Rattle.dart_orbits.specs.CycleLinks.{cycle_leads};

use crate::cell_labels::CellLabels;
use crate::left_cells::left_cell_at;
use crate::outer::is_outer;
use crate::ranks::rank_of;
use edge_predicates::{cell_before, is_same};
use exact_plane::{Point, Span};
use no_memory::NoMemory;
use slab_laws::{CycleKind, CycleRow, ListedDart, SlabCell};
use std::alloc::{AllocError, Global};
use std::collections::BTreeSet;

// The cycle of a least dart.
fn cycle_at(
    points: &[Point],
    edges: &[Span],
    darts: &[ListedDart],
    leads: &[usize],
    labels: &CellLabels,
    lead: usize,
) -> CycleRow
    requires plane { IsPlaneSkeleton (drawn points.now edges.now) }
    requires darts { darts.now ≡ dart_rows (drawn points.now edges.now) }
    requires leads { leads.now ≡ lead_places (drawn points.now edges.now) }
    requires labels { AreLabelsOf (drawn points.now edges.now) labels.now }
    requires lead { lead < length darts.now }
    ensures { result ≡ lead_row (drawn points.now edges.now) lead }
{
    let cell = left_cell_at(points, edges, darts, lead);
    CycleRow {
        lead,
        kind: CycleKind::by(is_outer(points, edges, darts, leads, lead)),
        face: labels.least_of(cell),
    }
}

// The cycles of the least darts at these places.
fn cycles_at_leads(
    alloc: Global,
    points: &[Point],
    edges: &[Span],
    darts: &[ListedDart],
    leads: &[usize],
    labels: &CellLabels,
    places: &[usize],
) -> Result<Vec<CycleRow>, AllocError>
    requires plane { IsPlaneSkeleton (drawn points.now edges.now) }
    requires darts { darts.now ≡ dart_rows (drawn points.now edges.now) }
    requires leads { leads.now ≡ lead_places (drawn points.now edges.now) }
    requires labels { AreLabelsOf (drawn points.now edges.now) labels.now }
    requires places { All (λ k. k < length darts.now) places.now }
    ensures { IfOk result (λ v. v.items ≡ map (lead_row (drawn points.now edges.now)) places.now) }
{
    places
        .iter()
        .map(|lead| cycle_at(points, edges, darts, leads, labels, *lead))
        .collect(alloc)
}

// All cycles, by their least darts.
pub(crate) fn cycles_of(
    alloc: Global,
    points: &[Point],
    edges: &[Span],
    darts: &[ListedDart],
    leads: &[usize],
    labels: &CellLabels,
    places: &[usize],
) -> Result<Vec<CycleRow>, NoMemory>
    requires plane { IsPlaneSkeleton (drawn points.now edges.now) }
    requires darts { darts.now ≡ dart_rows (drawn points.now edges.now) }
    requires leads { leads.now ≡ lead_places (drawn points.now edges.now) }
    requires labels { AreLabelsOf (drawn points.now edges.now) labels.now }
    requires places { places.now ≡ cycle_leads (drawn points.now edges.now) }
    ensures { IfOk result (λ v. v.items ≡ cycle_rows (drawn points.now edges.now)) }
{
    let cycles = cycles_at_leads(alloc, points, edges, darts, leads, labels, places)?;
    Ok(cycles)
}

// Whether a point is an end of an edge.
pub(crate) fn has_dart(edges: &[Span], point: &Point) -> bool
    ensures { result ≡ is_end edges.now point.now }
{
    edges.iter().any(|e| is_same(&e.lower(), point) || is_same(&e.upper(), point))
}

// The rank of the face round a vertex without darts; of another vertex, 0.
fn bare_rank(
    points: &[Point],
    edges: &[Span],
    labels: &CellLabels,
    faces: &[SlabCell],
    point: &Point,
) -> usize
    requires labels { AreLabelsOf (drawn points.now edges.now) labels.now }
    ensures { result ≡ rank_round (drawn points.now edges.now) faces.now point.now }
{
    if has_dart(edges, point) {
        return 0;
    }
    let cell = cell_before(points, edges, point);
    rank_of(faces, labels.least_of(cell))
}

// Of each vertex without darts the rank of its face; of the others, 0.
pub(crate) fn bare_ranks(
    alloc: Global,
    points: &[Point],
    edges: &[Span],
    labels: &CellLabels,
    faces: &[SlabCell],
) -> Result<Vec<usize>, AllocError>
    requires labels { AreLabelsOf (drawn points.now edges.now) labels.now }
    ensures { IfOk result (λ v. v.items ≡ map (rank_round (drawn points.now edges.now) faces.now) points.now) }
{
    points
        .iter()
        .map(|p| bare_rank(points, edges, labels, faces, p))
        .collect(alloc)
}

// Adds a face unless it is there.
fn add_face(
    faces: &mut Vec<SlabCell>,
    seen: &mut BTreeSet<SlabCell>,
    face: SlabCell,
) -> Result<(), NoMemory>
    requires { AreSeen seen.old faces.old.items }
    ensures seen { OnOk result (AreSeen seen.new faces.new.items) }
    ensures faces { OnOk result (faces.new.items ≡ added faces.old.items face) }
{
    if seen.insert(face)? {
        faces.push(face)?;
    }
    Ok(())
}

// The faces by rank: the unbounded one, then the others by the least darts of their outer cycles. The cells add none to these,
// since every bounded face has an outer cycle.
pub(crate) fn faces_of(
    alloc: Global,
    points: &[Point],
    edges: &[Span],
    cells: &[SlabCell],
    cycles: &[CycleRow],
    labels: &CellLabels,
) -> Result<Vec<SlabCell>, NoMemory>
    requires cells { cells.now ≡ cells_in (drawn points.now edges.now) }
    requires cycles { cycles.now ≡ cycle_rows (drawn points.now edges.now) }
    requires labels { AreLabelsOf (drawn points.now edges.now) labels.now }
    ensures { IfOk result (λ v. v.items ≡ (subdivision (drawn points.now edges.now)).faces) }
{
    let mut faces = Vec::new(alloc);
    let mut seen = BTreeSet::new(alloc);
    let unbounded = labels.least_of(SlabCell { slab: 0, place: 0 });
    add_face(&mut faces, &mut seen, unbounded)?;
    for cycle in cycles {
        if cycle.kind.is_outer() {
            add_face(&mut faces, &mut seen, cycle.face)?;
        }
    }
    for cell in cells {
        add_face(&mut faces, &mut seen, labels.least_of(*cell))?;
    }
    Ok(faces)
}
