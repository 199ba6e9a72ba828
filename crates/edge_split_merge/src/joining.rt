ghost use Rattle.std.specs.Prelude.{◌≡◌};
ghost use Rattle.slab_laws.specs.Sound.{IsGraphSound};
ghost use Rattle.slab_laws.specs.View.{twin_in};
ghost use Rattle.dcel_records.specs.ListChanges.{vertex_unlisted};
ghost use Rattle.dcel_records.specs.RecordsView.{IsSpare, IsSpareFaces, lists_of};
ghost use Rattle.arr_notes.specs.FaceWriters.{not_bare, off_cycles};
ghost use Rattle.arr_notes.specs.Step.{merge_edge};
ghost use Rattle.sound_changes.specs.ChangeFits.{FitsMerge};
ghost use Rattle.edge_split_merge.specs.Merges.{CanMerge};

use crate::parting::onward;
use dcel_records::Records;
use rotation_order::previous_around_source;
use slab_laws::{DartId, Darts, VertexId};

// The dart that comes into the vertex from the lower end of one edge, and the dart that goes on to the upper end of the other.
fn meeting(records: &Records, v: VertexId) -> (DartId, DartId)
    requires sound { IsGraphSound records.now.graph }
    requires fits { CanMerge records.now.graph v }
    ensures { FitsMerge records.now.graph v result.0 result.1 }
{
    let Some(first) = records.out_of(v) else {
        unreachable!()
    };
    let into_first = records.twin(first);
    let second = records.next(into_first);
    let into_second = records.twin(second);
    let here = records.point(v);
    let there = records.point(records.target(first));
    if here < there {
        (into_second, first)
    } else {
        (into_first, second)
    }
}

/// The names of a merge: the dart that came into the vertex from the lower end, which has the whole edge now, and the dart that
/// went on from there, which went.
#[derive(Clone, Copy)]
pub struct MergeNames {
    pub d: DartId,
    pub n: DartId,
}

/// The two edges that end at the vertex become one, and the vertex goes: the edge from the lower end keeps its darts; the names
/// of both edges' darts (CGAL manual, `merge_edge`).
pub(crate) fn merge_at(records: &mut Records, v: VertexId) -> MergeNames
    requires sound { IsGraphSound records.old.graph }
    requires fits { CanMerge records.old.graph v }
    ensures met { FitsMerge records.old.graph v result.d result.n }
    ensures graph { records.new.graph ≡ merge_edge records.old.graph v result.d result.n }
    ensures sound { IsGraphSound records.new.graph }
    ensures spare { IsSpare records.old records.new 1 2 }
    ensures tables { records.new.faces.tables ≡ not_bare v (off_cycles (twin_in records.old.graph result.n) (off_cycles result.n records.old.faces.tables)) }
    ensures lists { lists_of records.new ≡ vertex_unlisted v (lists_of records.old) }
    ensures spare_faces { IsSpareFaces records.old.faces records.new.faces 0 0 }
    ensures moved { records.new.faces.moved ≡ records.old.faces.moved }
{
    let (d, n) = meeting(records, v);
    let t = records.twin(d);
    let m = records.twin(n);
    // Where m is alone at its end, n itself comes in before it; what is written there goes with n.
    let before_m = previous_around_source(records, m);
    let into_m = records.twin(before_m);
    let follower = records.next(n);
    let beyond = onward(follower, m, t);
    let end = records.source(m);
    records.set_next(into_m, t);
    records.move_source(t, end, n);
    records.set_next(d, beyond);
    records.remove_pair(n, None, Some(t));
    records.remove_vertex(v);
    MergeNames { d, n }
}
