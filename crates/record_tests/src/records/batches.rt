// Where many points lie, beside a look at all edges for each, and what is said of the places.

ghost use Rattle.slab_laws.specs.View.{HasDart, HasFace, HasVertex};
ghost use Rattle.arrangement.specs.Arranged.{arranged, IsWatched};
ghost use Rattle.dcel_records.specs.SoundMaps.{IsSoundMap};

use crate::records::looks::pin_between;
use crate::records::squares::{at, dart, draw, draw_squares, nothing};
use crate::records::vertical::{write_ends, write_number, write_vertex};
use crate::shapes::{At, point};
use arrangement::{Arrangement, Cell, Strategy};
use dcel_records::{Records, Spot};
use exact_plane::Point;
use locate_naive::locate;
use no_memory::NoMemory;
use slab_laws::{DartId, FaceId, VertexId};
use std::alloc::Global;
use std::test::Fail;
use vertical_parts::locate_all;

// Appends the points of a vertical, at halves, from the upper end down.
fn push_column(points: &mut Vec<Point>, x: i64) -> Result<(), NoMemory> {
    for down in 0..22_u8 {
        if let Ok(point) = Point::new(i128::from(x), 20 - i128::from(down), 2) {
            points.push(point)?;
        }
    }
    Ok(())
}

// Points in, round and on the squares, from right to left, and those of one vertical twice.
fn points_round(alloc: Global) -> Result<Vec<Point>, NoMemory> {
    let mut points = Vec::new(alloc);
    push_column(&mut points, 4)?;
    for left in 0..22_u8 {
        push_column(&mut points, 20 - i64::from(left))?;
    }
    Ok(points)
}

// Whether a look at all edges finds each point at its spot.
fn are_alike(records: &Records, points: &[Point], spots: &[Spot]) -> bool
    requires { IsSoundMap records.now }
{
    for (point, spot) in points.iter().zip(spots) {
        if locate(records, point) != *spot {
            return false;
        }
    }
    points.len() == spots.len()
}

fn are_located(alloc: Global, records: &Records) -> Result<bool, NoMemory>
    requires { IsSoundMap records.now }
{
    let points = points_round(alloc)?;
    let spots = locate_all(alloc, records, &points)?;
    Ok(points.len() > 400 && are_alike(records, &points, &spots))
}

#[test]
fn a_batch_is_located_as_each_point_is(rt: HostRuntime) -> Result<(), Fail> {
    let mut layer = nothing(rt.alloc())?;
    let empty = are_located(rt.alloc(), layer.records());
    draw_squares(&mut layer);
    pin_between(&mut layer);
    let right = are_located(rt.alloc(), layer.records());
    drop(layer);
    assert!(rt; empty?);
    assert!(rt; right?);
    Ok(())
}

// Upright segments beside one another, each an edge: so many that three points are walked to.
fn draw_fence(layer: &mut Arrangement)
    requires watched { IsWatched (arranged Observer-dyn layer.old) }
    ensures watched { IsWatched (arranged Observer-dyn layer.new) }
{
    'posts: for x in 0..60 {
        draw(layer, (x, 0, x, 4));
    }
}

// Whether a batch says of each point what its own location says.
fn is_answered(layer: &mut Arrangement, points: &[Point]) -> Result<bool, NoMemory> {
    let cells = layer.locate_all(points)?;
    for (point, cell) in points.iter().zip(&cells) {
        if layer.locate(Strategy::Naive, point)? != *cell {
            return Ok(false);
        }
    }
    Ok(points.len() == cells.len())
}

// Few points beside many edges are walked to, and many are swept over.
#[test]
fn a_batch_is_answered_as_each_point_is(rt: HostRuntime) -> Result<(), Fail> {
    let few = points_of(rt.alloc(), &[(2, 1, 1), (31, 2, 3), (200, 0, 1)])?;
    let many = points_round(rt.alloc())?;
    let mut layer = nothing(rt.alloc())?;
    draw_fence(&mut layer);
    let by_walks = is_answered(&mut layer, &few);
    let by_sweep = is_answered(&mut layer, &many);
    drop(layer);
    assert!(rt; by_walks?);
    assert!(rt; by_sweep?);
    Ok(())
}

fn points_of(alloc: Global, numbers: &[At]) -> Result<Vec<Point>, Fail> {
    let mut points = Vec::new(alloc);
    for at in numbers {
        points.push(point(*at)?)?;
    }
    Ok(points)
}

// A face by its name, which is 0 of the unbounded one alone.
fn write_spot(text: &mut Vec<u8>, records: &Records, spot: Spot) -> Result<(), NoMemory> {
    match spot {
        Spot::Vertex(vertex) => {
            text.extend_from_slice(b"vertex")?;
            write_vertex(text, records, vertex)?;
        }
        Spot::Edge(dart) => {
            text.extend_from_slice(b"edge")?;
            write_ends(text, records, dart)?;
        }
        Spot::Face(face) => {
            text.extend_from_slice(b"face")?;
            write_number(text, face.0)?;
        }
    }
    text.push(b'\n')?;
    Ok(())
}

fn batch_text(alloc: Global, records: &Records, points: &[Point]) -> Result<Vec<u8>, NoMemory>
    requires { IsSoundMap records.now }
{
    let spots = locate_all(alloc, records, points)?;
    let mut text = Vec::new(alloc);
    for spot in &spots {
        write_spot(&mut text, records, *spot)?;
    }
    Ok(text)
}

// A point on the segment, twice, its lower end, and a point above it.
const BATCH: [At; 4] = [(2, 0, 1), (2, 0, 1), (0, 0, 7), (1, 1, 1)];

#[test]
fn a_repeated_point_is_answered_twice(rt: HostRuntime) -> Result<(), Fail> {
    let points = points_of(rt.alloc(), &BATCH)?;
    let mut layer = nothing(rt.alloc())?;
    draw(&mut layer, (0, 0, 4, 0));
    let text = batch_text(rt.alloc(), layer.records(), &points);
    drop(layer);
    let wanted: &[u8] = b"edge 0 0 1 4 0 1\nedge 0 0 1 4 0 1\nvertex 0 0 1\nface 0\n";
    assert!(rt; text?.as_slice() == wanted);
    Ok(())
}

fn cell_of_dart(layer: &Arrangement, dart: DartId) -> Cell
    requires dart { HasDart (arranged Observer-dyn layer.now).graph dart }
{
    layer.cell_of(Spot::Edge(dart))
}

fn cell_of_vertex(layer: &Arrangement, vertex: VertexId) -> Cell
    requires vertex { HasVertex (arranged Observer-dyn layer.now).graph vertex }
{
    layer.cell_of(Spot::Vertex(vertex))
}

fn cell_of_face(layer: &Arrangement, face: FaceId) -> Cell
    requires face { HasFace (arranged Observer-dyn layer.now).faces face }
{
    layer.cell_of(Spot::Face(face))
}

// Whether a vertex is told by its point, and an edge by its lower and its upper end, by either dart.
fn are_told(layer: &Arrangement) -> Option<bool> {
    let (lower, upper) = (at(0, 0)?, at(4, 0)?);
    let vertex = layer.records().vertex_at(&upper)?;
    let along = dart(layer.records(), (0, 0, 4, 0))?;
    let back = dart(layer.records(), (4, 0, 0, 0))?;
    let edge = Cell::Edge(lower, upper);
    Some(
        cell_of_vertex(layer, vertex) == Cell::Vertex(upper)
            && cell_of_dart(layer, along) == edge
            && cell_of_dart(layer, back) == edge,
    )
}

#[test]
fn an_edge_is_told_by_either_dart(rt: HostRuntime) -> Result<(), Fail> {
    let mut layer = nothing(rt.alloc())?;
    draw(&mut layer, (0, 0, 4, 0));
    let right = are_told(&layer);
    drop(layer);
    assert_eq!(rt; right, Some(true));
    Ok(())
}

// Whether the face that a point is in is told by this rank.
fn is_ranked(layer: &Arrangement, place: (i64, i64), rank: usize) -> Option<bool> {
    let (x, y) = place;
    let face = layer.face_at(&at(x, y)?)?;
    Some(cell_of_face(layer, face) == Cell::Face(rank))
}

// Whether the faces outside, between and within the squares have their ranks.
fn are_ranked(layer: &Arrangement) -> Option<bool> {
    let outside = is_ranked(layer, (9, 9), 0)?;
    let between = is_ranked(layer, (1, 5), 1)?;
    let within = is_ranked(layer, (3, 3), 2)?;
    Some(outside && between && within)
}

// Whether location finds the inner square's face at its rank.
fn is_within(layer: &mut Arrangement) -> Option<bool> {
    let point = at(3, 3)?;
    let cell = layer.locate(Strategy::Naive, &point).ok()?;
    Some(cell == Cell::Face(2))
}

// Before a location in a face, after one, and after two: what is kept of ranks differs.
#[test]
fn a_face_has_its_rank_whatever_is_kept(rt: HostRuntime) -> Result<(), Fail> {
    let mut layer = nothing(rt.alloc())?;
    draw_squares(&mut layer);
    let first = are_ranked(&layer);
    let once = is_within(&mut layer);
    let second = are_ranked(&layer);
    let twice = is_within(&mut layer);
    let third = are_ranked(&layer);
    drop(layer);
    assert_eq!(rt; [first, once, second, twice, third], [Some(true); 5]);
    Ok(())
}
