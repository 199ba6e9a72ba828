ghost use Rattle.arrangement.specs.Arranged.{arranged, IsWatched};

use crate::maps::{draw_all, new_map};
use anyhow::Context;
use arrangement::{Arrangement, Point, Segment, Spot};
use std::alloc::Global;

// A lake, and a dam that ends in it.
fn draw_map(map: &mut Arrangement) -> anyhow::Result<()>
    requires watched { IsWatched (arranged Observer-dyn map.old) }
    ensures watched { IsWatched (arranged Observer-dyn map.new) }
{
    let sides = [
        (0, 0, 4, 0),
        (4, 0, 4, 4),
        (4, 4, 0, 4),
        (0, 4, 0, 0),
        (0, 2, 2, 2),
    ];
    draw_all(map, &sides)
}

fn word_of(spot: Spot) -> &'static str {
    match spot {
        Spot::Vertex(_) => "a vertex",
        Spot::Edge(_) => "an edge",
        Spot::Face(_) => "a face",
    }
}

// Where a road would meet the map, and what it would go along or through from there.
fn put_zone(
    alloc: Global,
    out: &mut String,
    map: &Arrangement,
    road: &Segment,
) -> anyhow::Result<()> {
    let zone = map.zone(road)?;
    for meeting in zone.meetings.as_slice() {
        let (x, y, w) = (meeting.point.x(), meeting.point.y(), meeting.point.w());
        let word = word_of(meeting.spot);
        out.push_str(&format!(in alloc; "road at {x} {y} {w}: {word}\n")?)?;
    }
    for spot in zone.between.as_slice() {
        let word = word_of(*spot);
        out.push_str(&format!(in alloc; "road along: {word}\n")?)?;
    }
    Ok(())
}

// Whether a road would meet anything.
fn put_meets(out: &mut String, map: &Arrangement, road: &Segment) -> anyhow::Result<()> {
    let word = if map.meets(road)? {
        "road: meets\n"
    } else {
        "road: free\n"
    };
    out.push_str(word)?;
    Ok(())
}

// The curves that run along an edge.
fn put_curves(alloc: Global, out: &mut String, map: &Arrangement) -> anyhow::Result<()> {
    out.push_str("curves:")?;
    for curve in &map.curves()? {
        let number = curve.0;
        out.push_str(&format!(in alloc; " {number}")?)?;
    }
    out.push_str("\n")?;
    Ok(())
}

// The edges, by their ends, which are whole points here, and how many faces there are.
fn put_edges(alloc: Global, out: &mut String, map: &Arrangement) -> anyhow::Result<()> {
    for (lower, upper) in &map.edges()? {
        let (x, y) = (lower.x(), lower.y());
        let (u, v) = (upper.x(), upper.y());
        out.push_str(&format!(in alloc; "edge: {x} {y}, {u} {v}\n")?)?;
    }
    let faces = map.faces()?.len();
    out.push_str(&format!(in alloc; "faces: {faces}\n")?)?;
    Ok(())
}

// The dam goes, and with it the only edge of its curve.
fn open_dam(map: &mut Arrangement) -> anyhow::Result<()>
    requires watched { IsWatched (arranged Observer-dyn map.old) }
    ensures watched { IsWatched (arranged Observer-dyn map.new) }
{
    let bank = Point::new(0, 2, 1).context("the dam has no bank")?;
    let end = Point::new(2, 2, 1).context("the dam has no end")?;
    map.remove_edge(&bank, &end).context("there is no dam")
}

// A road through the dam's end, one along the dam, one in the lake, and one from there to the shore; nothing is built.
fn put_roads(alloc: Global, out: &mut String, map: &Arrangement) -> anyhow::Result<()> {
    let across = Segment::new(-1, 1, 5, 3).context("the road is no segment")?;
    put_zone(alloc, out, map, &across)?;
    let along = Segment::new(-1, 2, 3, 2).context("the road is no segment")?;
    put_zone(alloc, out, map, &along)?;
    let afloat = Segment::new(1, 3, 3, 3).context("the road is no segment")?;
    put_meets(out, map, &afloat)?;
    let ashore = Segment::new(3, 1, 4, 1).context("the road is no segment")?;
    put_meets(out, map, &ashore)
}

fn put_all(alloc: Global, out: &mut String, map: &mut Arrangement) -> anyhow::Result<()>
    requires watched { IsWatched (arranged Observer-dyn map.old) }
{
    draw_map(map)?;
    put_roads(alloc, out, map)?;
    put_edges(alloc, out, map)?;
    put_curves(alloc, out, map)?;
    open_dam(map)?;
    put_curves(alloc, out, map)
}

/// What roads would meet of a map, and what the map lists.
pub fn told_roads(alloc: Global) -> anyhow::Result<String> {
    let mut out = String::new(alloc);
    let mut map = new_map(alloc)?;
    let told = put_all(alloc, &mut out, &mut map);
    drop(map);
    told?;
    Ok(out)
}
