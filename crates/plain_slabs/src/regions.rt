ghost use Rattle.std.specs.Prelude.{◌≡◌, map, IfOk};
ghost use Rattle.slab_laws.specs.SpansDrawn.{drawn};
ghost use Rattle.slab_laws.specs.Skeleton.{IsPlaneSkeleton};
ghost use Rattle.plain_slabs.specs.Faces.{AreLabelsOf};
ghost use Rattle.plain_slabs.specs.Orbits.{AreOrbits, AreRegions};

use crate::cell_labels::CellLabels;
use crate::cells::list_cells;
use crate::faces::{bare_ranks, cycles_of, faces_of};
use crate::links::link_cells;
use crate::orbits::Orbits;
use crate::ranks::cycle_ranks;
use exact_plane::{Point, Span};
use no_memory::NoMemory;
use slab_laws::{CycleKind, CycleRow, SlabCell};
use std::alloc::{AllocError, Global};

/// The faces of a graph by rank, and of which cycles and bare vertices they are.
#[derive(Drop)]
pub(crate) struct Regions {
    pub(crate) labels: CellLabels,
    pub(crate) faces: Vec<SlabCell>,
    pub(crate) kinds: Vec<CycleKind>,
    pub(crate) cycle_ranks: Vec<usize>,
    pub(crate) bare_ranks: Vec<usize>,
}

// The labels of the cells.
fn labels_of(alloc: Global, points: &[Point], edges: &[Span]) -> Result<CellLabels, NoMemory>
    requires { IsPlaneSkeleton (drawn points.now edges.now) }
    ensures { IfOk result (AreLabelsOf (drawn points.now edges.now)) }
{
    let links = link_cells(alloc, points, edges)?;
    let labels = CellLabels::of_links(alloc, &links)?;
    Ok(labels)
}

// Of each cycle whether it bounds its face from outside.
fn kinds_of(alloc: Global, cycles: &[CycleRow]) -> Result<Vec<CycleKind>, AllocError>
    ensures { IfOk result (λ v. v.items ≡ map (λ c. c.kind) cycles.now) }
{
    cycles.iter().map(|cycle| cycle.kind).collect(alloc)
}

// The faces, their cycles and bare vertices.
pub(crate) fn regions_of(
    alloc: Global,
    points: &[Point],
    edges: &[Span],
    orbits: &Orbits,
) -> Result<Regions, NoMemory>
    requires plane { IsPlaneSkeleton (drawn points.now edges.now) }
    requires orbits { AreOrbits (drawn points.now edges.now) orbits.now }
    ensures { IfOk result (AreRegions (drawn points.now edges.now)) }
{
    let labels = labels_of(alloc, points, edges)?;
    let cycles = cycles_of(
        alloc,
        points,
        edges,
        &orbits.darts,
        &orbits.leads,
        &labels,
        &orbits.cycles,
    )?;
    let cells = list_cells(alloc, points, edges)?;
    let faces = faces_of(alloc, points, edges, &cells, &cycles, &labels)?;
    let kinds = kinds_of(alloc, &cycles)?;
    let cycle_ranks = cycle_ranks(alloc, &faces, &cycles)?;
    let bare_ranks = bare_ranks(alloc, points, edges, &labels, &faces)?;
    Ok(Regions {
        labels,
        faces,
        kinds,
        cycle_ranks,
        bare_ranks,
    })
}
