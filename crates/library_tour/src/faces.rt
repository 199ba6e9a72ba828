ghost use Rattle.arrangement.specs.Arranged.{arranged, IsWatched};

use crate::maps::{draw_all, new_map};
use crate::walk::walk;
use crate::words::put_corners;
use anyhow::Context;
use arrangement::{Arrangement, Darts, NoMemory, Segment, edge_dart};
use std::alloc::Global;

// Two parcels, side by side, and a road across both.
fn draw_map(map: &mut Arrangement) -> anyhow::Result<()>
    requires watched { IsWatched (arranged Observer-dyn map.old) }
    ensures watched { IsWatched (arranged Observer-dyn map.new) }
{
    let segments = [
        (0, 0, 6, 0),
        (6, 0, 6, 4),
        (6, 4, 0, 4),
        (0, 4, 0, 0),
        (3, 0, 3, 4),
        (-2, 1, 8, 3),
    ];
    draw_all(map, &segments)
}

// The corners of the faces on both sides of an edge: the one on its left, going from its lower to its upper end, then the other.
fn put_sides(
    alloc: Global,
    out: &mut Vec<u8>,
    map: &Arrangement,
    edge: &Segment,
) -> Result<(), NoMemory> {
    let darts = map.counts().edges.saturating_mul(2);
    // The walk asks for sound records, which those of all arrangements are.
    map.laws();
    let records = map.records();
    if let Some(dart) = edge_dart(records, &edge.lower(), &edge.upper()) {
        put_corners(out, "left", &walk(alloc, records, dart, darts)?)?;
        let back = walk(alloc, records, records.twin(dart), darts)?;
        put_corners(out, "right", &back)?;
    }
    Ok(())
}

// The corners of the faces on both sides of the lower part of the fence between the parcels.
fn sides_of_fence(alloc: Global, map: &mut Arrangement) -> anyhow::Result<Vec<u8>>
    requires watched { IsWatched (arranged Observer-dyn map.old) }
{
    draw_map(map)?;
    let mut out = Vec::new(alloc);
    let fence = Segment::new(3, 0, 3, 2).context("the fence is no segment")?;
    put_sides(alloc, &mut out, map, &fence)?;
    Ok(out)
}

/// The corners of the two faces at a fence.
pub fn corners_at_fence(alloc: Global) -> anyhow::Result<Vec<u8>> {
    let mut map = new_map(alloc)?;
    let lines = sides_of_fence(alloc, &mut map);
    drop(map);
    lines
}
