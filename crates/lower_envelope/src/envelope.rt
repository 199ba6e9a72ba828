ghost use Rattle.std.specs.Prelude.{◌≡◌, ◌<◌, ℕ, map, length, Some, IfOk};
ghost use Rattle.slab_laws.specs.FaceLists.{AreDartsOn, AreFacesListed};
ghost use Rattle.slab_laws.specs.FacesSound.{IsSound};
ghost use Rattle.slab_laws.specs.SpansDrawn.{edge_of};
ghost use Rattle.envelope_laws.specs.Envelopes.{edge_beyond};
ghost use Rattle.envelope_laws.specs.Outermost.{hides};
ghost use Rattle.lower_envelope.specs.Corners.{edge_at, key_at, is_outer, dart_at, stands_right, corner_at, corners_upto};
ghost use Rattle.lower_envelope.specs.Corners.{all_but_last, AreFitted, IsEnvelopeOf};

use crate::boundary::{ends_of, outer_boundary};
use crate::corner::{Corner, Envelope};
use crate::edges::slab_beyond;
use crate::slab_edges::{SlabEdges, slab_edges_of};
use crate::slabs::stands_at;
use edge_predicates::{is_on_wall, is_over, is_under};
use envelope_laws::Which;
use exact_plane::{Point, Span};
use no_memory::NoMemory;
use record_orders::VertexKey;
use slab_laws::{DartId, FaceLists, Sequence, VertexId};
use std::alloc::Global;

// Whether it is the outermost one of its wall. Those of one wall stand together, from the lowest to the highest.
fn is_outermost(which: Which, ends: &[VertexKey], place: usize) -> bool
    requires { place < length ends.now }
    ensures { result ≡ is_outer which ends.now place }
{
    match which {
        Which::Lower => place == 0 || !is_on_wall(&ends[place - 1].point, &ends[place].point),
        Which::Upper => {
            place + 1 == ends.len() || !is_on_wall(&ends[place].point, &ends[place + 1].point)
        }
    }
}

// Whether the edge passes further out than the point.
fn passes_beyond(which: Which, edge: &Span, point: &Point) -> bool
    ensures { result ≡ edge_beyond which (edge_of edge.now) point.now }
{
    match which {
        Which::Lower => is_under(edge, point),
        Which::Upper => is_over(edge, point),
    }
}

// Whether the edge at a place, if there is one, passes further out than the point.
fn is_hidden(which: Which, slabs: &SlabEdges, stands: Option<usize>, point: &Point) -> bool
    requires { (a : ℕ) → stands ≡ Some a → a < length slabs.now.edges.items }
    ensures { result ≡ hides which (edge_at slabs.now.edges.items stands) point.now }
{
    match stands {
        Some(place) => passes_beyond(which, &slabs.edges[place], point),
        None => false,
    }
}

// The place of the outermost edge of the slab on the right of an end.
fn place_right(ends: &[VertexKey], slabs: &SlabEdges, place: usize) -> Option<usize>
    requires fitted { AreFitted slabs.now }
    requires points { slabs.now.points.items ≡ map (λ k. k.point) ends.now }
    requires place { place < length ends.now }
    ensures { result ≡ stands_right slabs.now.points.items slabs.now.outermost.items (key_at ends.now place).point }
{
    stands_at(&slabs.outermost, slab_beyond(&slabs.points, place))
}

// Its dart.
fn dart_of(slabs: &SlabEdges, stands: Option<usize>) -> Option<DartId>
    requires { (a : ℕ) → stands ≡ Some a → a < length slabs.now.darts.items }
    ensures { result ≡ dart_at slabs.now.darts.items stands }
{
    match stands {
        Some(place) => Some(slabs.darts[place]),
        None => None,
    }
}

// The end at a place, if it is on the envelope, with the edge on its right.
fn corner_of(which: Which, ends: &[VertexKey], slabs: &SlabEdges, place: usize) -> Option<Corner>
    requires fitted { AreFitted slabs.now }
    requires points { slabs.now.points.items ≡ map (λ k. k.point) ends.now }
    requires place { place < length ends.now }
    ensures { result ≡ corner_at which ends.now slabs.now place }
{
    let end = ends[place];
    let stands = place_right(ends, slabs, place);
    if is_outermost(which, ends, place) && !is_hidden(which, slabs, stands, &end.point) {
        Some(Corner {
            vertex: end.name,
            edge: dart_of(slabs, stands),
        })
    } else {
        None
    }
}

// The vertices of the envelope, each with the edge on its right.
fn corners_of(
    alloc: Global,
    which: Which,
    ends: &[VertexKey],
    slabs: &SlabEdges,
) -> Result<Vec<Corner>, NoMemory>
    requires fitted { AreFitted slabs.now }
    requires points { slabs.now.points.items ≡ map (λ k. k.point) ends.now }
    ensures { IfOk result (λ v. v.items ≡ corners_upto (corner_at which ends.now slabs.now) (length ends.now)) }
{
    let mut corners = Vec::new(alloc);
    for place in 0..ends.len() {
        if let Some(corner) = corner_of(which, ends, slabs, place) {
            corners.push(corner)?;
        }
    }
    Ok(corners)
}

fn vertices_of(alloc: Global, corners: &[Corner]) -> Result<Sequence<VertexId>, NoMemory>
    ensures { IfOk result (λ v. v ≡ map (λ c. c.vertex) corners.now) }
{
    let mut vertices = Sequence::new(alloc);
    for corner in corners {
        vertices.push(corner.vertex)?;
    }
    Ok(vertices)
}

// What stands on the right of each but the last.
fn between_of(alloc: Global, corners: &[Corner]) -> Result<Sequence<Option<DartId>>, NoMemory>
    ensures { IfOk result (λ v. v ≡ map (λ c. c.edge) (all_but_last corners.now)) }
{
    let mut between = Sequence::new(alloc);
    for place in 1..corners.len() {
        between.push(corners[place - 1].edge)?;
    }
    Ok(between)
}

/// The lower or the upper envelope of what records draw: its vertices and what stands between them, from left to right (CGAL
/// manual, envelopes). Isolated vertices don't count.
///
/// It goes once along the boundaries of the unbounded face, sorts the vertices there by their points, finds the outermost edge of each
/// slab between their walls, and looks on each wall at the outermost of them: it is on the envelope where the outermost edge on its
/// right doesn't pass further out. No other edge and no other vertex is looked at.
///
/// # Errors
///
/// There was no memory.
pub fn envelope_of<R: FaceLists>(
    alloc: Global,
    records: &R,
    which: Which,
) -> Result<Envelope, NoMemory>
    requires sound { IsSound (R.graph records.now) (R.faces records.now) }
    requires listed { AreFacesListed (R.faces records.now) (R.lists records.now) }
    requires darts { AreDartsOn (R.graph records.now) (R.faces records.now) (R.lists records.now) }
    ensures { IfOk result (IsEnvelopeOf which (R.graph records.now)) }
{
    let boundary = outer_boundary(alloc, records)?;
    let ends = ends_of(alloc, records, &boundary)?;
    let slabs = slab_edges_of(alloc, records, which, &boundary, &ends)?;
    let corners = corners_of(alloc, which, &ends, &slabs)?;
    Ok(Envelope {
        vertices: vertices_of(alloc, &corners)?,
        between: between_of(alloc, &corners)?,
    })
}
