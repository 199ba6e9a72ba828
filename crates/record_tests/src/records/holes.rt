// An edge that is a hole in the unbounded face, and an isolated vertex beside it, written row by row and read by the calls of
// a graph whose faces list their own.

ghost use Rattle.std.specs.Prelude.{◌≡◌, IfSome, IfOk};
ghost use Rattle.slab_laws.specs.View.{HasBareFace, HasDart};
ghost use Rattle.dcel_records.specs.ListChanges.{lone_face};
ghost use Rattle.record_tests.specs.Lone.{AreTwo, IsLone};

use crate::records::chains::{OTHER, UNBOUNDED, face_more, vertex_joins, vertex_more};
use crate::shapes::{line, point};
use dcel_records::{Records, Room};
use exact_plane::{Line, Point};
use no_memory::NoMemory;
use slab_laws::{CycleKind, DartId, FaceLists, VertexId};
use std::test::Fail;

// An edge comes between two vertices, on a new cycle of the unbounded face; `None` where a vertex has no record.
fn hole_more(
    records: &mut Records,
    u: VertexId,
    v: VertexId,
    line: Line,
) -> Result<Option<DartId>, NoMemory>
    requires two { AreTwo records.old }
    ensures bare { (w : _) → HasBareFace records.old.faces.tables w → HasBareFace records.new.faces.tables w }
    ensures dart { IfOk result (λ found. IfSome found (λ d. HasDart records.new.graph d)) }
{
    records.reserve(Room {
        vertices: 0,
        edges: 1,
        cycles: 1,
        faces: 0,
    })?;
    let cycle = records.add_cycle(CycleKind::Inner, UNBOUNDED, DartId(0));
    if records.cycle_of(cycle).is_none()
        || records.point_of(u).is_none()
        || records.point_of(v).is_none()
    {
        return Ok(None);
    }
    let (dart, _) = records.add_pair_on(u, v, line, cycle);
    if records.cycle_of(cycle).is_none() {
        return Ok(None);
    }
    records.set_dart(cycle, dart);
    if records.ends_of(dart).is_none() {
        return Ok(None);
    }
    Ok(Some(dart))
}

// Whether the dart is on the only cycle, a hole in the unbounded face, which keeps it; and whether just two faces are there.
fn has_hole<R: FaceLists>(records: &R, dart: DartId) -> bool
    requires { HasDart (R.graph records.now) dart }
{
    let cycle = records.cycle(dart);
    let face = records.face(cycle);
    let is_read = face == UNBOUNDED
        && records.kind(cycle) == CycleKind::Inner
        && records.dart_on(cycle) == dart;
    let is_listed = records.first_cycle_of(face) == Some(cycle)
        && records.cycle_after_in_face(cycle).is_none();
    let is_only = records.cycle_after(None) == Some(cycle)
        && records.cycle_after(Some(cycle)).is_none();
    let are_two = records.face_after(None) == Some(face)
        && records.face_after(Some(face)) == Some(OTHER)
        && records.face_after(Some(OTHER)).is_none();
    is_read && is_listed && is_only && are_two
}

// Whether the vertex is the only one in the list of the unbounded face.
fn has_isolated<R: FaceLists>(records: &R, v: VertexId) -> bool
    requires { HasBareFace (R.faces records.now) v }
{
    let face = records.bare_face(v);
    face == UNBOUNDED
        && records.first_isolated_in(face) == Some(v)
        && records.isolated_after_in_face(v).is_none()
}

// Whether three vertices, an edge's two darts, a cycle, two faces and an isolated vertex are counted.
fn are_counted(records: &Records) -> bool {
    let counts = records.counts();
    (
        counts.vertices,
        counts.darts,
        counts.cycles,
        counts.faces,
        counts.isolated,
    ) == (3, 2, 1, 2, 1)
}

// Whether an edge comes between the first two points and is read back, with a vertex at the third.
fn hole_comes(
    records: &mut Records,
    points: (Point, Point, Point),
    line: Line,
) -> Result<bool, NoMemory>
    requires unbounded { records.old.faces.tables ≡ lone_face }
    requires lone { IsLone records.old }
{
    if !face_more(records)? {
        return Ok(false);
    }
    let u = vertex_more(records, points.0, UNBOUNDED)?;
    let v = vertex_more(records, points.1, UNBOUNDED)?;
    let beside = vertex_more(records, points.2, UNBOUNDED)?;
    if u == v || u == beside || v == beside {
        return Ok(false);
    }
    vertex_joins(records, u);
    vertex_joins(records, v);
    let Some(dart) = hole_more(records, u, v, line)? else {
        return Ok(false);
    };
    Ok(has_hole(records, dart) && has_isolated(records, beside) && are_counted(records))
}

#[test]
fn a_hole_and_an_isolated_vertex_are_read(rt: HostRuntime) -> Result<(), Fail> {
    let points = (point((0, 0, 1))?, point((4, 0, 1))?, point((1, 2, 1))?);
    let through = line((0, 0, 4, 0))?;
    let mut records = Records::new(rt.alloc())?;
    let right = hole_comes(&mut records, points, through);
    drop(records);
    assert!(rt; right?);
    Ok(())
}
