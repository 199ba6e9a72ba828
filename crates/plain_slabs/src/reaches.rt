ghost use Rattle.std.specs.Prelude.{◌≡◌, IfOk, map, filter};
ghost use Rattle.std.specs.List.{count_by};
ghost use Rattle.plain_slabs.specs.PlaceTables.{reach_in, table, is_across, is_new};

use edge_predicates::slab_after;
use exact_plane::{Point, Span};
use no_memory::NoMemory;
use std::alloc::Global;

/// An edge with the slabs that it spans.
#[derive(Clone, Copy)]
pub(crate) struct Reach {
    pub edge: Span,
    /// The number of the first slab that it spans.
    pub first: usize,
    /// The number of the first slab after it: the slab on the right of its upper end.
    pub end: usize,
}

impl Reach {
    // Whether the edge goes from wall to wall of the slab.
    pub(crate) fn spans(&self, slab: usize) -> bool
        ensures { result ≡ is_across slab self.now }
    {
        self.first <= slab && slab < self.end
    }

    // Whether it spans the slab, but not the other.
    fn is_new(&self, other: usize, slab: usize) -> bool
        ensures { result ≡ is_new other slab self.now }
    {
        self.spans(slab) && !self.spans(other)
    }
}

fn reach_of(points: &[Point], edge: &Span) -> Reach
    ensures { result ≡ reach_in points.now edge.now }
{
    Reach {
        edge: *edge,
        first: slab_after(points, &edge.lower()),
        end: slab_after(points, &edge.upper()),
    }
}

// Each edge with the slabs that it spans.
pub(crate) fn list_reaches(
    alloc: Global,
    points: &[Point],
    edges: &[Span],
) -> Result<Vec<Reach>, NoMemory>
    ensures { IfOk result (λ rs. rs.items ≡ table points.now edges.now) }
{
    Ok(edges.iter().map(|e| reach_of(points, e)).collect(alloc)?)
}

// How many of the edges span the slab.
pub(crate) fn width_of(reaches: &[Reach], slab: usize) -> usize
    ensures { result ≡ count_by (is_across slab) reaches.now }
{
    reaches.iter().filter(|r| r.spans(slab)).count()
}

// The edges that span the slab.
pub(crate) fn list_across(
    alloc: Global,
    reaches: &[Reach],
    slab: usize,
) -> Result<Vec<Reach>, NoMemory>
    ensures { IfOk result (λ rs. rs.items ≡ filter (is_across slab) reaches.now) }
{
    Ok(
        reaches
            .iter()
            .copied()
            .filter(|r| r.spans(slab))
            .collect(alloc)?,
    )
}

// The edges that span the slab, but not the other.
pub(crate) fn list_new(
    alloc: Global,
    reaches: &[Reach],
    other: usize,
    slab: usize,
) -> Result<Vec<Reach>, NoMemory>
    ensures { IfOk result (λ rs. rs.items ≡ filter (is_new other slab) reaches.now) }
{
    Ok(
        reaches
            .iter()
            .copied()
            .filter(|r| r.is_new(other, slab))
            .collect(alloc)?,
    )
}
