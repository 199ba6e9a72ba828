ghost use Rattle.std.specs.Prelude.{◌≡◌, ◌&&◌, IfOk};
ghost use Rattle.std.specs.List.{range_with_len};
ghost use Rattle.std.specs.Option.{option_map};
ghost use lib.Dec.{ltb};
ghost use Rattle.slab_laws.specs.Skeleton.{same_point};
ghost use Rattle.slab_laws.specs.Tables.{name_after};
ghost use Rattle.slab_laws.specs.View.{vertex_id, dart_id, cycle_id, face_id};
ghost use Rattle.subdivision_rows.specs.Curves.{curves_along};

use crate::rows::Rows;
use edge_predicates::is_same;
use exact_plane::{Line, Point};
use no_memory::NoMemory;
use present_graphs::Mark;
use slab_laws::{
    CurveId, Curved, CycleId, CycleKind, DartId, Darts, FaceId, Faced, ListedDart, VertexId,
};
use std::alloc::Global;

// The first number of those below a count, or the one after a number.
fn number_after(count: usize, number: Option<usize>) -> Option<usize>
    ensures { result ≡ name_after (range_with_len 0 count) number }
{
    let next = match number {
        None => 0,
        Some(n) if n < count => n + 1,
        Some(_) => count,
    };
    if next < count { Some(next) } else { None }
}

fn vertex_name_after(count: usize, name: Option<VertexId>) -> Option<VertexId>
    ensures { result ≡ option_map vertex_id (name_after (range_with_len 0 count) (option_map (λ n. n.0) name)) }
{
    number_after(count, name.map(|n| n.0)).map(VertexId)
}

fn dart_name_after(count: usize, name: Option<DartId>) -> Option<DartId>
    ensures { result ≡ option_map dart_id (name_after (range_with_len 0 count) (option_map (λ n. n.0) name)) }
{
    number_after(count, name.map(|n| n.0)).map(DartId)
}

fn cycle_name_after(count: usize, name: Option<CycleId>) -> Option<CycleId>
    ensures { result ≡ option_map cycle_id (name_after (range_with_len 0 count) (option_map (λ n. n.0) name)) }
{
    number_after(count, name.map(|n| n.0)).map(CycleId)
}

fn face_name_after(count: usize, name: Option<FaceId>) -> Option<FaceId>
    ensures { result ≡ option_map face_id (name_after (range_with_len 0 count) (option_map (λ n. n.0) name)) }
{
    number_after(count, name.map(|n| n.0)).map(FaceId)
}

// Whether a dart goes out of a vertex that comes before another one.
fn is_before(dart: &ListedDart, vertex: usize) -> bool
    ensures { result ≡ ltb dart.now.source vertex }
{
    dart.source < vertex
}

// Whether a mark is of the edge between two points.
fn is_between(mark: &Mark, low: &Point, high: &Point) -> bool
    ensures { result ≡ (same_point mark.now.low low.now && same_point mark.now.high high.now) }
{
    is_same(&mark.low, low) && is_same(&mark.high, high)
}

// The curves of the marks along an edge, in their order.
fn curves_along(
    alloc: Global,
    marks: &[Mark],
    low: &Point,
    high: &Point,
) -> Result<Vec<CurveId>, NoMemory>
    ensures { IfOk result (λ v. v.items ≡ curves_along marks.now low.now high.now) }
{
    // A loop, since the proof of two adaptors with a closure each takes twice as long.
    let mut curves = Vec::new(alloc);
    for mark in marks {
        if is_between(mark, low, high) {
            curves.push(mark.curve)?;
        }
    }
    Ok(curves)
}

impl Darts for Rows {
    ghost use Rattle.subdivision_rows.specs.Listed.{view_of};

    ghost graph = { view_of };

    fn source(&self, d: DartId) -> VertexId {
        VertexId(self.lists.darts[d.0].source)
    }

    fn target(&self, d: DartId) -> VertexId {
        VertexId(self.lists.darts[d.0].target)
    }

    fn twin(&self, d: DartId) -> DartId {
        DartId(self.lists.twins[d.0])
    }

    fn next(&self, d: DartId) -> DartId {
        DartId(self.lists.nexts[d.0])
    }

    fn point(&self, v: VertexId) -> Point {
        self.lists.points[v.0]
    }

    fn line(&self, d: DartId) -> Line {
        let edge = self.lists.darts[d.0].edge;
        self.lists.edges[edge].line()
    }

    fn pinned(&self, v: VertexId) -> bool {
        self.lists.pinned[v.0]
    }

    fn out_of(&self, v: VertexId) -> Option<DartId> {
        // The darts of one source stand side by side, so one search tells.
        let darts = &self.lists.darts;
        let place = darts.partition_point(|dart| is_before(dart, v.0));
        if place < darts.len() && darts[place].source == v.0 {
            return Some(DartId(place));
        }
        None
    }

    fn vertex_after(&self, v: Option<VertexId>) -> Option<VertexId> {
        vertex_name_after(self.lists.points.len(), v)
    }

    fn dart_after(&self, d: Option<DartId>) -> Option<DartId> {
        dart_name_after(self.lists.darts.len(), d)
    }
}

impl Curved for Rows {
    ghost use Rattle.subdivision_rows.specs.Curves.{curves_at};

    ghost curve_list = { curves_at };

    fn curves(&self, alloc: Global, d: DartId) -> Result<Vec<CurveId>, NoMemory> {
        let edge = &self.lists.edges[self.lists.darts[d.0].edge];
        let curves = curves_along(alloc, &self.lists.marks, &edge.lower(), &edge.upper())?;
        Ok(curves)
    }
}

impl Faced for Rows {
    ghost use Rattle.subdivision_rows.specs.Listed.{faces_of};

    ghost faces = { faces_of };

    fn cycle(&self, d: DartId) -> CycleId {
        CycleId(self.lists.in_cycles[d.0])
    }

    fn face(&self, c: CycleId) -> FaceId {
        FaceId(self.lists.cycle_ranks[c.0])
    }

    fn kind(&self, c: CycleId) -> CycleKind {
        self.lists.kinds[c.0]
    }

    fn bare_face(&self, v: VertexId) -> FaceId {
        FaceId(self.lists.bare_ranks[v.0])
    }

    fn cycle_after(&self, c: Option<CycleId>) -> Option<CycleId> {
        cycle_name_after(self.lists.kinds.len(), c)
    }

    fn face_after(&self, f: Option<FaceId>) -> Option<FaceId> {
        face_name_after(self.lists.faces, f)
    }
}
