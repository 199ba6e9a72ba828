ghost use Rattle.std.specs.Prelude.{◌≡◌, ◌≤◌, ◌==◌, cond};
ghost use Rattle.slab_laws.specs.Sound.{IsGraphSound};
ghost use Rattle.slab_laws.specs.View.{cycle_in, twin_in};
ghost use Rattle.dcel_records.specs.RecordsView.{IsSpare};
ghost use Rattle.arr_notes.specs.FaceWriters.{on_cycle};
ghost use Rattle.arr_notes.specs.Step.{split_edge};
ghost use Rattle.edge_split_merge.specs.Splits.{CanSplit, IsNewPlace};

use dcel_records::Records;
use exact_plane::Point;
use rotation_order::previous_around_source;
use slab_laws::{DartId, Darts, Faced, VertexId};

// What follows a dart that ends where another did: what followed that one, or, where this was its twin, the twin's new name.
pub(crate) fn onward(follower: DartId, twin: DartId, new_twin: DartId) -> DartId
    ensures { result ≡ cond (follower.0 == twin.0) new_twin follower }
{
    if follower == twin { new_twin } else { follower }
}

/// The names of a split: the vertex that came, and the darts of the upper part, `n` from there to the upper end and its twin `m`.
#[derive(Clone, Copy)]
pub struct SplitNames {
    pub v: VertexId,
    pub n: DartId,
    pub m: DartId,
}

/// The edge of the dart, which goes from its lower to its upper end, is split at a new vertex at the point: the dart and
/// its twin keep the lower part; the names of what came (CGAL manual, `split_edge`).
pub(crate) fn split_at(records: &mut Records, d: DartId, p: Point) -> SplitNames
    requires sound { IsGraphSound records.old.graph }
    requires fits { CanSplit records.old.graph d p }
    requires vertices { 1 ≤ records.old.spare_vertices }
    requires darts { 2 ≤ records.old.spare_darts }
    ensures new_names { IsNewPlace records.old.graph result.v result.n result.m }
    ensures graph { records.new.graph ≡ split_edge records.old.graph d result.v p result.n result.m }
    ensures sound { IsGraphSound records.new.graph }
    ensures spare { IsSpare records.new records.old 1 2 }
    ensures faces { records.new.faces ≡ record records.old.faces { tables = on_cycle result.m (cycle_in records.old.faces.tables (twin_in records.old.graph d)) (on_cycle result.n (cycle_in records.old.faces.tables d) records.old.faces.tables) } }
{
    p.laws();
    let t = records.twin(d);
    // Where the twin is alone at its end, the dart itself comes in before it, and its follower is written last.
    let before_t = previous_around_source(records, t);
    let into_t = records.twin(before_t);
    let follower = records.next(d);
    let end = records.source(t);
    let line = records.line(d);
    // Both parts are on the cycles on their sides.
    let cycle = records.cycle(d);
    let twin_cycle = records.cycle(t);
    let v = records.add_vertex_on_edge(p);
    let (n, m) = records.add_pair_on(v, end, line, cycle);
    let beyond = onward(follower, t, m);
    records.set_next(into_t, m);
    records.set_next(n, beyond);
    records.set_next(m, t);
    records.move_source(t, v, m);
    records.set_next(d, n);
    records.set_cycle(m, twin_cycle);
    SplitNames { v, n, m }
}
