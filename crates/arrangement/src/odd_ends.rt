ghost use Rattle.std.specs.Prelude.{◌≡◌, ◌↔◌, ◌%◌, ◌==◌, not, cond, None, IfSome};
ghost use Rattle.set_laws.specs.PolygonLaws.{IsOddEnd};
ghost use Rattle.set_laws.specs.PolygonSets.{IsClosedLayer, is_odd_end, odd_end, pieces_along};
ghost use Rattle.slab_laws.specs.Sound.{edge_in};
ghost use Rattle.slab_laws.specs.View.{HasDart, HasVertex, point_in, source_in};
ghost use Rattle.told_steps.specs.RecordLayers.{IsLayer, layer_of};
ghost use Rattle.arrangement.specs.Arranged.{arranged, layer_in};
ghost use Rattle.arrangement.specs.OddEnds.{lesser_of};

use crate::arrangement::Arrangement;
use curve_history::History;
use dcel_records::Records;
use exact_plane::Point;
use slab_laws::{DartId, Darts, VertexId};
use sound_views::forward_dart;

// Whether the pieces along the edge of a dart are odd in number. They are as many as the sides of curves that the history has along
// it, since no two pieces of one side touch.
fn is_odd_edge(records: &Records, history: &History, dart: DartId) -> bool
    requires layer { IsLayer records.now.graph history.now }
    requires dart { HasDart records.now.graph dart }
    ensures { result ≡ (pieces_along (layer_of records.now.graph history.now).present (edge_in records.now.graph dart) % 2 == 1) }
{
    history.count_on(forward_dart(records, dart)) % 2 == 1
}

fn changed(odd: bool, more: bool) -> bool
    ensures { result ≡ cond more (not odd) odd }
{
    odd != more
}

// Whether the vertex that a dart leaves is an end of an odd number of pieces. A piece that ends there runs along one edge of the vertex,
// and one that passes along two; so the pieces are summed up over the edges, once round the vertex.
fn is_odd_round(records: &Records, history: &History, first: DartId) -> bool
    requires layer { IsLayer records.now.graph history.now }
    requires first { HasDart records.now.graph first }
    ensures { let v = records.now.graph in result ≡ is_odd_end (layer_of v history.now).present (point_in v (source_in v first)) }
{
    let mut odd = false;
    let mut dart = first;
    'ring: loop {
        odd = changed(odd, is_odd_edge(records, history, dart));
        dart = records.next(records.twin(dart));
        if dart == first {
            return odd;
        }
    }
}

// Whether a vertex is an end of an odd number of pieces.
fn is_odd_at(records: &Records, history: &History, vertex: VertexId) -> bool
    requires layer { IsLayer records.now.graph history.now }
    requires vertex { HasVertex records.now.graph vertex }
    ensures { let v = records.now.graph in result ≡ is_odd_end (layer_of v history.now).present (point_in v vertex) }
{
    match records.out_of(vertex) {
        Some(first) => is_odd_round(records, history, first),
        None => false,
    }
}

// The lesser of the least point so far and one more.
fn lesser(least: Option<Point>, point: Point) -> Point
    ensures { result ≡ lesser_of least point }
{
    match least {
        Some(other) => { if other < point { other } else { point } }
        None => point,
    }
}

// The least point that is an end of an odd number of pieces.
fn least_odd(records: &Records, history: &History) -> Option<Point>
    requires { IsLayer records.now.graph history.now }
    ensures { result ≡ odd_end (layer_of records.now.graph history.now).present }
{
    let mut least = None;
    let mut last = None;
    'vertices: while let Some(vertex) = records.vertex_after(last) {
        if is_odd_at(records, history, vertex) {
            least = Some(lesser(least, records.point(vertex)));
        }
        last = Some(vertex);
    }
    least
}

impl Arrangement {
    /// The least point that is an end of an odd number of the layer's pieces, or `None` where the layer is closed: where each point is an end
    /// of an even number of them (this project; closed polygons: CGAL manual, Boolean set operations).
    ///
    /// It goes once round each vertex, and takes no memory.
    pub fn odd_end(&self) -> Option<Point>
        ensures end { result ≡ odd_end (layer_in (arranged Observer-dyn self.now)).present }
        ensures least { IfSome result (IsOddEnd (layer_in (arranged Observer-dyn self.now)).present) }
        ensures closed { (result ≡ None) ↔ IsClosedLayer (layer_in (arranged Observer-dyn self.now)).present }
    {
        least_odd(&self.layer.records, &self.layer.history)
    }
}
