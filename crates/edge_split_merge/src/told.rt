ghost use Rattle.std.specs.Prelude.{◌≡◌, ◌≤◌};
ghost use Rattle.arr_notes.specs.MapView.{step_map};
ghost use Rattle.dcel_records.specs.SoundMaps.{IsSoundMap, map_of};
ghost use Rattle.edge_split_merge.specs.FacedParts.{IsSplitTold, IsMergeTold};
ghost use Rattle.edge_split_merge.specs.Merges.{CanMerge, TellsOfMerge};
ghost use Rattle.edge_split_merge.specs.Splits.{CanSplit, TellsOfSplit};

use crate::faces::{merge_in_cycles, split_in_cycles};
use arr_notes::Change;
use dcel_records::Records;
use exact_plane::Point;
use slab_laws::{DartId, VertexId};

/// The edge of the dart, which goes from its lower to its upper end, is split at a new vertex at the point: the dart and its
/// twin keep the lower part; the change (CGAL manual, `split_edge`).
pub fn split(records: &mut Records, d: DartId, p: Point) -> Change
    requires map { IsSoundMap records.old }
    requires fits { CanSplit records.old.graph d p }
    requires vertices { 1 ≤ records.old.spare_vertices }
    requires darts { 2 ≤ records.old.spare_darts }
    ensures change { TellsOfSplit result d p }
    ensures made { IsSplitTold records.old records.new result }
    ensures map { map_of records.new ≡ step_map (map_of records.old) result }
{
    let new = split_in_cycles(records, d, p);
    Change::SplitEdge {
        d,
        v: new.v,
        p,
        n: new.n,
        m: new.m,
    }
}

/// The two edges that end at the vertex become one, and the vertex goes: the edge from the lower end keeps its darts; the change
/// (CGAL manual, `merge_edge`).
pub fn merge(records: &mut Records, v: VertexId) -> Change
    requires map { IsSoundMap records.old }
    requires fits { CanMerge records.old.graph v }
    ensures change { TellsOfMerge records.old.graph result v }
    ensures made { IsMergeTold records.old records.new result }
    ensures map { map_of records.new ≡ step_map (map_of records.old) result }
{
    let met = merge_in_cycles(records, v);
    Change::MergeEdge {
        v,
        d: met.d,
        n: met.n,
    }
}
