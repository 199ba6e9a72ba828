// Cycles and isolated vertices in the lists of two faces: they come, move and go, and the lists are read back.

ghost use Rattle.std.specs.Prelude.{◌≡◌, ◌≢◌, IfOk, IsTrue};
ghost use Rattle.slab_laws.specs.View.{HasFace, HasBareFace};
ghost use Rattle.dcel_records.specs.ListChanges.{lone_face};
ghost use Rattle.record_tests.specs.Lone.{AreTwo, HasNoDarts, IsLone};

use crate::shapes::point;
use dcel_records::{Records, Room};
use exact_plane::Point;
use no_memory::NoMemory;
use slab_laws::{CycleId, CycleKind, DartId, FaceId, FaceLists, VertexId};
use std::test::Fail;

pub(crate) const UNBOUNDED: FaceId = FaceId(0);

pub(crate) const OTHER: FaceId = FaceId(1);

const NO_ROOM: Room = Room {
    vertices: 0,
    edges: 0,
    cycles: 0,
    faces: 0,
};

// Whether one face more is the other one.
pub(crate) fn face_more(records: &mut Records) -> Result<bool, NoMemory>
    requires { records.old.faces.tables ≡ lone_face }
    ensures two { IfOk result (λ right. IsTrue right → AreTwo records.new) }
    ensures lone { IsLone records.old → IsLone records.new }
    ensures darts { HasNoDarts records.old → HasNoDarts records.new }
{
    records.reserve(Room {
        faces: 1,
        ..NO_ROOM
    })?;
    Ok(records.add_face() == OTHER)
}

// Whether nothing is in the face, which isn't the unbounded one; then it goes.
fn face_goes(records: &mut Records, face: FaceId) -> bool
    requires { HasFace records.old.faces.tables face }
{
    if face == UNBOUNDED
        || records.first_cycle_of(face).is_some()
        || records.first_isolated_in(face).is_some()
    {
        return false;
    }
    records.remove_face(face);
    true
}

// ---- cycles
pub(crate) fn cycle_more(
    records: &mut Records,
    face: FaceId,
    dart: DartId,
) -> Result<CycleId, NoMemory>
    requires face { HasFace records.old.faces.tables face }
    requires two { AreTwo records.old }
    requires darts { HasNoDarts records.old }
    ensures two { AreTwo records.new }
    ensures darts { HasNoDarts records.new }
{
    records.reserve(Room {
        cycles: 1,
        ..NO_ROOM
    })?;
    Ok(records.add_cycle(CycleKind::Inner, face, dart))
}

// Whether there is such a cycle; then it is moved to the face.
fn cycle_moves(records: &mut Records, cycle: CycleId, face: FaceId) -> bool
    requires face { HasFace records.old.faces.tables face }
    requires two { AreTwo records.old }
    requires darts { HasNoDarts records.old }
    ensures two { AreTwo records.new }
    ensures darts { HasNoDarts records.new }
{
    if records.cycle_of(cycle).is_none() {
        return false;
    }
    records.move_cycle(cycle, face);
    records.cycle_of(cycle) == Some((CycleKind::Inner, face))
}

// Whether there is such a cycle; then it keeps the dart.
fn cycle_keeps(records: &mut Records, cycle: CycleId, dart: DartId) -> bool
    requires two { AreTwo records.old }
    requires darts { HasNoDarts records.old }
    ensures two { AreTwo records.new }
    ensures darts { HasNoDarts records.new }
{
    if records.cycle_of(cycle).is_none() {
        return false;
    }
    records.set_dart(cycle, dart);
    records.dart_on(cycle) == dart
}

// Whether there is such a cycle; then it goes.
fn cycle_goes(records: &mut Records, cycle: CycleId) -> bool
    requires two { AreTwo records.old }
    requires darts { HasNoDarts records.old }
    ensures two { AreTwo records.new }
    ensures darts { HasNoDarts records.new }
{
    if records.cycle_of(cycle).is_none() {
        return false;
    }
    records.remove_cycle(cycle);
    records.cycle_of(cycle).is_none()
}

fn cycle_after(records: &Records, cycle: CycleId) -> Option<CycleId> {
    if records.cycle_of(cycle).is_none() {
        return None;
    }
    records.cycle_after_in_face(cycle)
}

// Whether the face lists these cycles.
fn has_cycles(records: &Records, face: FaceId, wanted: &[CycleId]) -> bool
    requires { HasFace records.now.faces.tables face }
{
    let mut at = records.first_cycle_of(face);
    for cycle in wanted {
        if at != Some(*cycle) {
            return false;
        }
        at = cycle_after(records, *cycle);
    }
    at.is_none()
}

// Whether the two faces list these cycles.
fn have_cycles(records: &Records, unbounded: &[CycleId], other: &[CycleId]) -> bool
    requires { AreTwo records.now }
{
    has_cycles(records, UNBOUNDED, unbounded) && has_cycles(records, OTHER, other)
}

// Whether three cycles of the unbounded face, listed from the third on, move to the other one: the middle one, and then the
// last.
fn cycles_move(records: &mut Records, first: CycleId, second: CycleId, third: CycleId) -> bool
    requires two { AreTwo records.old }
    requires darts { HasNoDarts records.old }
    ensures two { AreTwo records.new }
    ensures darts { HasNoDarts records.new }
{
    let kept = cycle_keeps(records, second, DartId(4))
        && have_cycles(records, &[third, second, first], &[]);
    let middle = cycle_moves(records, second, OTHER)
        && have_cycles(records, &[third, first], &[second]);
    let last = cycle_moves(records, first, OTHER)
        && have_cycles(records, &[third], &[first, second]);
    kept && middle && last
}

// Whether then the first one goes, the second moves within its face and goes, and the other face is empty.
fn cycles_go(records: &mut Records, first: CycleId, second: CycleId, third: CycleId) -> bool
    requires two { AreTwo records.old }
    requires darts { HasNoDarts records.old }
{
    let front = cycle_goes(records, first) && have_cycles(records, &[third], &[second]);
    let within = cycle_moves(records, second, OTHER) && have_cycles(records, &[third], &[second]);
    let only = cycle_goes(records, second) && have_cycles(records, &[third], &[]);
    front && within && only && face_goes(records, OTHER)
}

fn cycles_come(records: &mut Records) -> Result<bool, NoMemory>
    requires unbounded { records.old.faces.tables ≡ lone_face }
    requires darts { HasNoDarts records.old }
{
    if !face_more(records)? {
        return Ok(false);
    }
    let first = cycle_more(records, UNBOUNDED, DartId(1))?;
    let second = cycle_more(records, UNBOUNDED, DartId(2))?;
    let third = cycle_more(records, UNBOUNDED, DartId(3))?;
    Ok(
        have_cycles(records, &[third, second, first], &[])
            && cycles_move(records, first, second, third)
            && cycles_go(records, first, second, third),
    )
}

#[test]
fn cycles_come_move_and_go(rt: HostRuntime) -> Result<(), Fail> {
    let mut records = Records::new(rt.alloc())?;
    let right = cycles_come(&mut records);
    drop(records);
    assert!(rt; right?);
    Ok(())
}

// ---- isolated vertices
pub(crate) fn vertex_more(
    records: &mut Records,
    at: Point,
    face: FaceId,
) -> Result<VertexId, NoMemory>
    requires face { HasFace records.old.faces.tables face }
    requires two { AreTwo records.old }
    requires lone { IsLone records.old }
    ensures two { AreTwo records.new }
    ensures lone { IsLone records.new }
    ensures bare { (v : _) → HasBareFace records.old.faces.tables v → HasBareFace records.new.faces.tables v }
    ensures new { IfOk result (λ v. HasBareFace records.new.faces.tables v) }
{
    records.reserve(Room {
        vertices: 1,
        ..NO_ROOM
    })?;
    let vertex = records.add_vertex(at, face);
    records.face_laws();
    Ok(vertex)
}

fn vertex_moves(records: &mut Records, v: VertexId, face: FaceId)
    requires face { HasFace records.old.faces.tables face }
    requires two { AreTwo records.old }
    requires lone { IsLone records.old }
    requires bare { HasBareFace records.old.faces.tables v }
    ensures two { AreTwo records.new }
    ensures lone { IsLone records.new }
    ensures bare { (w : _) → HasBareFace records.old.faces.tables w → HasBareFace records.new.faces.tables w }
{
    records.move_bare(v, face);
}

// The vertex stays, but is in no face's list.
pub(crate) fn vertex_joins(records: &mut Records, v: VertexId)
    requires two { AreTwo records.old }
    requires lone { IsLone records.old }
    requires bare { HasBareFace records.old.faces.tables v }
    ensures two { AreTwo records.new }
    ensures lone { IsLone records.new }
    ensures bare { (w : _) → w ≢ v → HasBareFace records.old.faces.tables w → HasBareFace records.new.faces.tables w }
{
    records.clear_bare(v);
}

// The vertex goes, out of its face's list too.
fn vertex_goes(records: &mut Records, v: VertexId)
    requires two { AreTwo records.old }
    requires lone { IsLone records.old }
    requires bare { HasBareFace records.old.faces.tables v }
    ensures two { AreTwo records.new }
    ensures bare { (w : _) → w ≢ v → HasBareFace records.old.faces.tables w → HasBareFace records.new.faces.tables w }
{
    records.remove_vertex(v);
}

// Whether the face lists this vertex alone.
fn has_one(records: &Records, face: FaceId, only: VertexId) -> bool
    requires face { HasFace records.now.faces.tables face }
    requires bare { HasBareFace records.now.faces.tables only }
{
    records.first_isolated_in(face) == Some(only) && records.isolated_after_in_face(only).is_none()
}

// Whether the face lists these two vertices.
fn has_pair(records: &Records, face: FaceId, front: VertexId, last: VertexId) -> bool
    requires face { HasFace records.now.faces.tables face }
    requires front { HasBareFace records.now.faces.tables front }
    requires last { HasBareFace records.now.faces.tables last }
{
    records.first_isolated_in(face) == Some(front)
        && records.isolated_after_in_face(front) == Some(last)
        && records.isolated_after_in_face(last).is_none()
}

// Whether three isolated vertices of the unbounded face, listed from the third on, move and go as they are told to.
fn vertices_move_and_go(
    records: &mut Records,
    first: VertexId,
    second: VertexId,
    third: VertexId,
) -> bool
    requires two { AreTwo records.old }
    requires lone { IsLone records.old }
    requires first { HasBareFace records.old.faces.tables first }
    requires second { HasBareFace records.old.faces.tables second }
    requires third { HasBareFace records.old.faces.tables third }
{
    if first == second || first == third || second == third {
        return false;
    }
    vertex_moves(records, second, OTHER);
    let middle = has_pair(records, UNBOUNDED, third, first) && has_one(records, OTHER, second);
    vertex_moves(records, first, OTHER);
    let last = has_one(records, UNBOUNDED, third) && has_pair(records, OTHER, first, second);
    vertex_joins(records, first);
    let front = has_one(records, UNBOUNDED, third) && has_one(records, OTHER, second);
    vertex_goes(records, second);
    let only = has_one(records, UNBOUNDED, third) && face_goes(records, OTHER);
    middle && last && front && only
}

fn vertices_come(records: &mut Records, at: Point) -> Result<bool, NoMemory>
    requires unbounded { records.old.faces.tables ≡ lone_face }
    requires lone { IsLone records.old }
{
    if !face_more(records)? {
        return Ok(false);
    }
    let first = vertex_more(records, at, UNBOUNDED)?;
    let second = vertex_more(records, at, UNBOUNDED)?;
    let third = vertex_more(records, at, UNBOUNDED)?;
    let came = records.first_isolated_in(UNBOUNDED) == Some(third)
        && records.isolated_after_in_face(third) == Some(second)
        && records.isolated_after_in_face(second) == Some(first)
        && records.isolated_after_in_face(first).is_none()
        && records.first_isolated_in(OTHER).is_none();
    Ok(came && vertices_move_and_go(records, first, second, third))
}

#[test]
fn isolated_vertices_come_move_and_go(rt: HostRuntime) -> Result<(), Fail> {
    let at = point((1, 2, 1))?;
    let mut records = Records::new(rt.alloc())?;
    let right = vertices_come(&mut records, at);
    drop(records);
    assert!(rt; right?);
    Ok(())
}
