ghost use Rattle.std.specs.Prelude.{◌≡◌, true, false};
ghost use Rattle.slab_laws.specs.Sound.{IsGraphSound};
ghost use Rattle.slab_laws.specs.View.{HasVertex, IsOutOf};
ghost use Rattle.arr_notes.specs.Curves.{AreCurvesOf};
ghost use Rattle.curve_history.specs.Past.{curves_on};
ghost use Rattle.told_steps.specs.Tidied.{AreStraight, AreJoinable, IsMergeableAt};

use curve_history::History;
use dcel_records::Records;
use slab_laws::{DartId, Darts, VertexId};

// The dart that comes into the vertex from its lower end and the dart that goes on to its upper end, where these two are on
// one line and no other edge ends at the vertex.
fn straight_through(records: &Records, w: VertexId, first: DartId) -> Option<(DartId, DartId)>
    requires sound { IsGraphSound records.now.graph }
    requires first { IsOutOf records.now.graph w first }
    ensures { AreStraight records.now.graph w result }
{
    let into_first = records.twin(first);
    let second = records.next(into_first);
    let into_second = records.twin(second);
    if records.next(into_second) != first {
        return None;
    }
    if records.line(second) != records.line(first) {
        return None;
    }
    let here = records.point(w);
    let first_goes_up = here < records.point(records.target(first));
    let second_goes_up = here < records.point(records.target(second));
    match (first_goes_up, second_goes_up) {
        (true, false) => Some((into_second, first)),
        (false, true) => Some((into_first, second)),
        // Both go up, or both down.
        (true, true) => None,
        (false, false) => None,
    }
}

// The darts of two edges that may become one at the vertex: they go straight through it, have the same sides of curves, and no
// other edge ends there.
pub(crate) fn joinable(
    records: &Records,
    history: &History,
    w: VertexId,
    first: DartId,
) -> Option<(DartId, DartId)>
    requires sound { IsGraphSound records.now.graph }
    requires first { IsOutOf records.now.graph w first }
    ensures { AreJoinable records.now.graph history.now w result }
{
    let (d, n) = straight_through(records, w, first)?;
    if history.same_strands(d, n) {
        Some((d, n))
    } else {
        None
    }
}

/// Whether two edges go straight through the vertex with the same sides of curves, and no other edge ends there: but for a pin,
/// nothing calls for such a vertex (CGAL manual, the premise of `merge_edge`).
///
/// It looks at the vertex's darts and at the curves of two edges, and takes no memory.
pub fn is_mergeable(records: &Records, history: &History, w: VertexId) -> bool
    requires sound { IsGraphSound records.now.graph }
    requires curves { AreCurvesOf records.now.graph (curves_on history.now) }
    requires vertex { HasVertex records.now.graph w }
    ensures passed { result ≡ true → IsMergeableAt records.now.graph history.now w }
    ensures not_passed { result ≡ false → ¬ IsMergeableAt records.now.graph history.now w }
{
    let Some(first) = records.out_of(w) else {
        return false;
    };
    match joinable(records, history, w, first) {
        Some(_) => true,
        None => false,
    }
}
