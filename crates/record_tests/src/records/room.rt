use crate::shapes::point;
use dcel_records::{Records, Room};
use exact_plane::Point;
use no_memory::NoMemory;
use slab_laws::{DartId, FaceId, VertexId};
use std::test::Fail;

// Whether a vertex comes, where there is room for it, and goes with all.
fn comes_and_goes(records: &mut Records, point: Point) -> Result<bool, NoMemory> {
    records.reserve(Room {
        vertices: 7,
        edges: 9,
        cycles: 0,
        faces: 0,
    })?;
    records.face_laws();
    let vertex = records.add_vertex(point, FaceId(0));
    let is_there = records.point_of(vertex) == Some(point);
    records.clear();
    Ok(is_there && records.point_of(vertex).is_none())
}

#[test]
fn makes_room(rt: HostRuntime) -> Result<(), Fail> {
    let mut records = Records::new(rt.alloc())?;
    let right = comes_and_goes(&mut records, point((1, 2, 1))?);
    drop(records);
    assert!(rt; right?);
    Ok(())
}

// Whether the map from points to vertices is whole until two vertices have one point, and again once all are gone.
fn maps_points(records: &mut Records, point: Point) -> Result<bool, NoMemory> {
    records.reserve(Room {
        vertices: 2,
        edges: 0,
        cycles: 0,
        faces: 0,
    })?;
    records.face_laws();
    let vertex = records.add_vertex(point, FaceId(0));
    let by_one = records.is_mapped() && records.vertex_at(&point) == Some(vertex);
    records.face_laws();
    let _other = records.add_vertex(point, FaceId(0));
    let by_two = records.is_mapped();
    records.clear();
    Ok(by_one && !by_two && records.is_mapped())
}

#[test]
fn the_map_of_points_is_whole(rt: HostRuntime) -> Result<(), Fail> {
    let mut records = Records::new(rt.alloc())?;
    let right = maps_points(&mut records, point((1, 2, 1))?);
    drop(records);
    assert!(rt; right?);
    Ok(())
}

// More vertices or darts than any memory holds.
const TOO_MUCH: [(usize, usize); 4] = [
    (usize::MAX, 0),
    (0, usize::MAX),
    (0, usize::MAX / 2),
    (usize::MAX, usize::MAX),
];

fn has_no_room(records: &mut Records, vertices: usize, edges: usize) -> bool {
    records.reserve(Room {
        vertices,
        edges,
        cycles: 0,
        faces: 0,
    }) == Err(NoMemory)
}

// Whether the vertex is all that there is.
fn is_alone(records: &Records, vertex: VertexId, point: Point) -> bool {
    records.point_of(vertex) == Some(point)
        && records.point_of(VertexId(1)).is_none()
        && records.ends_of(DartId(0)).is_none()
}

// Whether records of one vertex have no room for so much, and are then as before.
fn stay(records: &mut Records, point: Point) -> Result<bool, NoMemory> {
    records.reserve(Room {
        vertices: 1,
        edges: 0,
        cycles: 0,
        faces: 0,
    })?;
    records.face_laws();
    let vertex = records.add_vertex(point, FaceId(0));
    for (vertices, edges) in TOO_MUCH {
        if !has_no_room(records, vertices, edges) {
            return Ok(false);
        }
    }
    Ok(is_alone(records, vertex, point))
}

#[test]
fn records_stay_without_room(rt: HostRuntime) -> Result<(), Fail> {
    let mut records = Records::new(rt.alloc())?;
    let right = stay(&mut records, point((1, 2, 1))?);
    drop(records);
    assert!(rt; right?);
    Ok(())
}
