ghost use Rattle.slab_laws.specs.Sound.{IsGraphSound, edge_between};
ghost use Rattle.locate_naive.specs.Found.{IsDartBetween, IsDartOfEdge};

use dcel_records::Records;
use exact_plane::Point;
use rotation_order::dart_to;
use slab_laws::DartId;

// A dart from one point to another.
fn dart_between(records: &Records, from: &Point, to: &Point) -> Option<DartId>
    requires { IsGraphSound records.now.graph }
    ensures { IsDartBetween records.now.graph from.now to.now result }
{
    let from = records.vertex_at(from)?;
    dart_to(records, from, to)
}

/// The edge between two points, which come in either order, by its dart from the lower to the upper end; `None` where no
/// edge runs between them. It takes no memory (CGAL manual, a halfedge is told by its direction).
pub fn edge_dart(records: &Records, p: &Point, q: &Point) -> Option<DartId>
    requires { IsGraphSound records.now.graph }
    ensures { IsDartOfEdge records.now.graph (edge_between p.now q.now) result }
{
    if p < q {
        dart_between(records, p, q)
    } else {
        dart_between(records, q, p)
    }
}
