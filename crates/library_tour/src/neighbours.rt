ghost use Rattle.std.specs.Prelude.{◌≡◌};
ghost use Rattle.plane_graphs.specs.Ascending.{Member};
ghost use Rattle.slab_laws.specs.View.{HasDart, HasFace, HasVertex};
ghost use Rattle.arrangement.specs.Arranged.{arranged, IsWatched};

use crate::maps::{dig, draw_all, new_map};
use anyhow::Context;
use arrangement::{
    Arrangement, CycleKind, DartId, Darts, FaceId, NoMemory, Point, Segment, VertexId, edge_dart,
};
use std::alloc::Global;

// Two parcels, side by side, a road across both, a pond in the left one above the road, and a well beside the pond.
fn draw_map(map: &mut Arrangement) -> anyhow::Result<()>
    requires watched { IsWatched (arranged Observer-dyn map.old) }
    ensures watched { IsWatched (arranged Observer-dyn map.new) }
{
    let segments = [
        (0, 0, 6, 0),
        (6, 0, 6, 4),
        (6, 4, 0, 4),
        (0, 4, 0, 0),
        (3, 0, 3, 4),
        (-2, 1, 8, 3),
        (1, 2, 2, 2),
        (2, 2, 2, 3),
        (2, 3, 1, 2),
    ];
    draw_all(map, &segments)?;
    dig(map, 1, 3, 1)
}

// The point at which a dart starts.
fn corner_of(map: &Arrangement, dart: DartId) -> Point
    requires dart { HasDart (arranged Observer-dyn map.now).graph dart }
{
    let records = map.records();
    records.point(records.source(dart))
}

// The first corner of the boundary that a dart is on, by x and then by y. What the loop asks of each dart is its invariant: those that are
// still to come have records (`proofs/neighbours/first_corner/`, one line).
fn first_corner(map: &Arrangement, dart: DartId) -> Point
    requires dart { HasDart (arranged Observer-dyn map.now).graph dart }
{
    let mut first = corner_of(map, dart);
    'boundary: for dart in map.along(dart) {
        first = first.min(corner_of(map, dart));
    }
    first
}

// How many edges each of the boundaries has that these darts are on, and its first corner.
fn put_lengths(
    alloc: Global,
    out: &mut String,
    map: &Arrangement,
    word: &str,
    boundaries: &[DartId],
) -> Result<(), NoMemory>
    requires darts { (d : _) → Member d boundaries.now → HasDart (arranged Observer-dyn map.now).graph d }
{
    'boundaries: for dart in boundaries {
        let edges = map.darts_along(*dart)?.len();
        let corner = first_corner(map, *dart);
        out.push_str(&format!(in alloc; "{word}: {edges} edges, from {corner}\n")?)?;
    }
    Ok(())
}

// The boundaries of the face: the outer one, then those of its holes.
fn put_boundaries(
    alloc: Global,
    out: &mut String,
    map: &Arrangement,
    face: FaceId,
) -> Result<(), NoMemory>
    requires face { HasFace (arranged Observer-dyn map.now).faces face }
{
    let outer = map.boundaries_of(face, CycleKind::Outer)?;
    put_lengths(alloc, out, map, "outside", &outer)?;
    let holes = map.boundaries_of(face, CycleKind::Inner)?;
    put_lengths(alloc, out, map, "hole", &holes)
}

// The points of vertices.
fn put_points(
    alloc: Global,
    out: &mut String,
    map: &Arrangement,
    vertices: &[VertexId],
) -> Result<(), NoMemory>
    requires vertices { (w : _) → Member w vertices.now → HasVertex (arranged Observer-dyn map.now).graph w }
{
    'vertices: for vertex in vertices {
        let point = map.records().point(*vertex);
        let (x, y, w) = (point.x(), point.y(), point.w());
        out.push_str(&format!(in alloc; "isolated: {x} {y} {w}\n")?)?;
    }
    Ok(())
}

// The isolated vertices in the face.
fn put_isolated(
    alloc: Global,
    out: &mut String,
    map: &Arrangement,
    face: FaceId,
) -> Result<(), NoMemory>
    requires face { HasFace (arranged Observer-dyn map.now).faces face }
{
    // An isolated vertex is one that has a record.
    map.laws();
    let isolated = map.isolated_in(face)?;
    put_points(alloc, out, map, &isolated)
}

// The face on the other side of the edge.
fn face_across(map: &Arrangement, dart: DartId) -> FaceId
    requires dart { HasDart (arranged Observer-dyn map.now).graph dart }
    ensures has { HasFace (arranged Observer-dyn map.now).faces result }
{
    let twin = map.records().twin(dart);
    map.face_left_of(twin)
}

// The number of the face across each of the darts. Ranking the faces changes nothing that the map means: the loop's invariant
// (`proofs/neighbours/numbers_across/`).
fn numbers_across(
    alloc: Global,
    map: &mut Arrangement,
    darts: &[DartId],
) -> Result<Vec<usize>, NoMemory>
    requires darts { (d : _) → Member d darts.now → HasDart (arranged Observer-dyn map.old).graph d }
    ensures same { map.new ≡ map.old }
{
    let mut numbers = Vec::new(alloc);
    'darts: for dart in darts {
        let across = face_across(map, *dart);
        numbers.push(map.number_of(across))?;
    }
    Ok(numbers)
}

// A word, and the numbers of faces that are among these.
fn put_numbers(
    alloc: Global,
    out: &mut String,
    word: &str,
    numbers: &[usize],
    faces: usize,
) -> Result<(), NoMemory> {
    out.push_str(word)?;
    for number in 0..faces {
        if numbers.contains(&number) {
            out.push_str(&format!(in alloc; " {number}")?)?;
        }
    }
    out.push_str("\n")?;
    Ok(())
}

// The faces across the edges of the boundary that the dart is on, and the faces round the vertex that it leaves: those across the edges
// that end there.
fn put_neighbours(
    alloc: Global,
    out: &mut String,
    map: &mut Arrangement,
    dart: DartId,
) -> Result<(), NoMemory>
    requires dart { HasDart (arranged Observer-dyn map.old).graph dart }
{
    let faces = map.counts().faces;
    map.laws();
    let along = map.darts_along(dart)?;
    let source = map.records().source(dart);
    let round = map.darts_round(source)?;
    put_numbers(
        alloc,
        out,
        "neighbours:",
        &numbers_across(alloc, map, &along)?,
        faces,
    )?;
    put_numbers(
        alloc,
        out,
        "round the corner:",
        &numbers_across(alloc, map, &round)?,
        faces,
    )
}

// What is round the upper part of the fence.
fn put_fence(
    alloc: Global,
    out: &mut String,
    map: &mut Arrangement,
    fence: &Segment,
) -> Result<(), NoMemory> {
    match edge_dart(map.records(), &fence.lower(), &fence.upper()) {
        Some(dart) => put_neighbours(alloc, out, map, dart),
        None => Ok(()),
    }
}

// What the face at a point has.
fn put_face(
    alloc: Global,
    out: &mut String,
    map: &mut Arrangement,
    p: &Point,
) -> Result<(), NoMemory> {
    let Some(face) = map.face_at(p) else {
        return Ok(());
    };
    let number = map.number_of(face);
    out.push_str(&format!(in alloc; "face {number}\n")?)?;
    put_boundaries(alloc, out, map, face)?;
    put_isolated(alloc, out, map, face)
}

fn put_all(alloc: Global, out: &mut String, map: &mut Arrangement) -> anyhow::Result<()>
    requires watched { IsWatched (arranged Observer-dyn map.old) }
{
    draw_map(map)?;
    let inside = Point::new(1, 7, 2).context("there is no such point")?;
    put_face(alloc, out, map, &inside)?;
    let fence = Segment::new(3, 2, 3, 4).context("the fence is no segment")?;
    put_fence(alloc, out, map, &fence)?;
    Ok(())
}

/// What a face has on its boundaries and in it, which faces are across its edges, and which are round one of its corners.
pub fn told_neighbours(alloc: Global) -> anyhow::Result<String> {
    let mut out = String::new(alloc);
    let mut map = new_map(alloc)?;
    let put = put_all(alloc, &mut out, &mut map);
    drop(map);
    put?;
    Ok(out)
}
