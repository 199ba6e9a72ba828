ghost use Rattle.std.specs.Prelude.{◌≡◌, not, length};
ghost use Rattle.std.specs.List.{count_by};
ghost use Rattle.slab_laws.specs.Kinds.{is_outer};
ghost use Rattle.plain_slabs.specs.Faces.{is_end};
ghost use Rattle.subdivision_rows.specs.Listed.{subdivision_in};

use crate::faces::has_dart;
use crate::plain::Plain;
use exact_plane::{Point, Span};
use slab_laws::CycleKind;

/// How many cells of each kind a subdivision has.
#[derive(Clone, Copy, Debug, PartialEq, Eq)]
pub struct Counts {
    pub vertices: usize,
    pub edges: usize,
    pub faces: usize,
    /// Boundary cycles that bound their face from inside: its holes.
    pub inner: usize,
    /// Vertices that are no end of an edge.
    pub isolated: usize,
}

fn count_inner(kinds: &[CycleKind]) -> usize
    ensures { result ≡ count_by (λ k. not (is_outer k)) kinds.now }
{
    kinds.iter().filter(|kind| !kind.is_outer()).count()
}

fn count_isolated(points: &[Point], edges: &[Span]) -> usize
    ensures { result ≡ count_by (λ p. not (is_end edges.now p)) points.now }
{
    points
        .iter()
        .filter(|point| !has_dart(edges, point))
        .count()
}

/// The counts of a subdivision.
///
/// It looks at all edges for each vertex, and takes no memory.
pub fn count(plain: &Plain) -> Counts
    ensures vertices { result.vertices ≡ length (subdivision_in plain.now).graph.vertices }
    ensures edges { result.edges ≡ length (subdivision_in plain.now).graph.edges }
    ensures faces { result.faces ≡ length (subdivision_in plain.now).faces }
    ensures inner { result.inner ≡ count_by (λ c. not c.outer) (subdivision_in plain.now).cycles }
    ensures isolated { result.isolated ≡ length (subdivision_in plain.now).bare }
{
    let lists = plain.rows.lists();
    Counts {
        vertices: lists.points.len(),
        edges: lists.edges.len(),
        faces: plain.faces.len(),
        inner: count_inner(&lists.kinds),
        isolated: count_isolated(&lists.points, &lists.edges),
    }
}
