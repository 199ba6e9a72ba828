ghost use Rattle.std.specs.Prelude.{◌≡◌, ◌⊎◌, ◌≤◌, Some, None};
ghost use Rattle.slab_laws.specs.View.{HasDart};
ghost use Rattle.arr_notes.specs.MapView.{step_map};
ghost use Rattle.arr_notes.specs.declared.change.Change.TheVariants.{AddEdge};
ghost use Rattle.dcel_records.specs.RecordsView.{IsReturned};
ghost use Rattle.dcel_records.specs.SoundMaps.{IsSoundMap, map_of};
ghost use Rattle.edge_link.specs.FacedLinks.{IsLinkTold};
ghost use Rattle.edge_link.specs.Links.{CanLink, CanLinkAtStart, CanLinkAtEnd, TellsOfLink};

use crate::faces::{FacedLink, grow_at_end, grow_at_start, link_both, new_hole};
use arr_notes::Change;
use dcel_records::Records;
use exact_plane::Line;
use slab_laws::{CurveId, DartId, Darts, VertexId};

// The change that tells of a link.
fn told(
    link: FacedLink,
    u: VertexId,
    v: VertexId,
    at_u: Option<DartId>,
    at_v: Option<DartId>,
    line: Line,
    curve: CurveId,
) -> Change
    ensures { result ≡ AddEdge link.names.d link.names.m u v at_u at_v line curve link.faces }
{
    let FacedLink { names, faces } = link;
    Change::AddEdge {
        d: names.d,
        m: names.m,
        u,
        v,
        at_u,
        at_v,
        line,
        curve,
        faces,
    }
}

/// One more edge between two bare vertices, inside a face: the change, which tells what became of cycles and faces too.
pub fn link_in_face(
    records: &mut Records,
    u: VertexId,
    v: VertexId,
    line: Line,
    curve: CurveId,
) -> Change
    requires map { IsSoundMap records.old }
    requires returned { IsReturned records.old }
    requires darts { 2 ≤ records.old.spare_darts }
    requires cycles { 1 ≤ records.old.faces.spare_cycles }
    requires fits { CanLink records.old.graph u v None None line }
    ensures change { TellsOfLink result u v None None line curve }
    ensures made { IsLinkTold records.old records.new result }
    ensures map { map_of records.new ≡ step_map (map_of records.old) result }
{
    let link = new_hole(records, u, v, line);
    told(link, u, v, None, None, line, curve)
}

/// One more edge between two vertices of which one is bare: at the other it comes directly after `at` clockwise. The change
/// tells what became of cycles and faces too.
pub fn link_at_one(
    records: &mut Records,
    u: VertexId,
    v: VertexId,
    at: DartId,
    line: Line,
    curve: CurveId,
) -> Change
    requires map { IsSoundMap records.old }
    requires returned { IsReturned records.old }
    requires darts { 2 ≤ records.old.spare_darts }
    requires fits { CanLinkAtStart records.old.graph u v at line ⊎ CanLinkAtEnd records.old.graph u v at line }
    ensures at_u { CanLinkAtStart records.old.graph u v at line → TellsOfLink result u v (Some at) None line curve }
    ensures at_v { CanLinkAtEnd records.old.graph u v at line → TellsOfLink result u v None (Some at) line curve }
    ensures made { IsLinkTold records.old records.new result }
    ensures map { map_of records.new ≡ step_map (map_of records.old) result }
{
    if records.source(at) == u {
        let link = grow_at_start(records, u, v, at, line);
        told(link, u, v, Some(at), None, line, curve)
    } else {
        let link = grow_at_end(records, u, v, at, line);
        told(link, u, v, None, Some(at), line, curve)
    }
}

/// One more edge between two vertices that have darts: it comes directly after `at_u` and `at_v` clockwise. It joins two cycles,
/// or splits a face and moves what it had; the change tells which.
pub fn link_at_two(
    records: &mut Records,
    u: VertexId,
    v: VertexId,
    at_u: DartId,
    at_v: DartId,
    line: Line,
    curve: CurveId,
) -> Change
    requires map { IsSoundMap records.old }
    requires returned { IsReturned records.old }
    requires darts { 2 ≤ records.old.spare_darts }
    requires cycles { 1 ≤ records.old.faces.spare_cycles }
    requires faces { 1 ≤ records.old.faces.spare_faces }
    requires fits { CanLink records.old.graph u v (Some at_u) (Some at_v) line }
    ensures change { TellsOfLink result u v (Some at_u) (Some at_v) line curve }
    ensures made { IsLinkTold records.old records.new result }
    ensures map { map_of records.new ≡ step_map (map_of records.old) result }
{
    let link = link_both(records, u, v, at_u, at_v, line);
    told(link, u, v, Some(at_u), Some(at_v), line, curve)
}
