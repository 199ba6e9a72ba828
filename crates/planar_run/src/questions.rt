ghost use Rattle.std.specs.Prelude.{◌≡◌, ◌++◌, [], Ok, map, OnOk, OnErr};
ghost use Rattle.std.specs.List.{flat_map};
ghost use Rattle.script_lines.specs.declared.command.Command.TheVariants.{Locate, Edge, Curve, Count, Show, Overlay, Region, Vertical, Batch, Envelope};
ghost use Rattle.slab_laws.specs.Subdivision.{holds};
ghost use Rattle.planar_run.specs.Answer.{subdivision_of, IsAnswered, MayTake};
ghost use Rattle.planar_run.specs.Rows.{world_row};
ghost use Rattle.planar_run.specs.Text.{line_of, cell_text};

use crate::reply::Reply;
use crate::text::{add_cell, add_counts, put_cell, put_curve, put_curves, put_head, put_region};
use crate::world::World;
use arrangement::{EdgeError, HistoryError, Op, RegionError, Which};
use exact_plane::Point;
use no_memory::NoMemory;
use script_lines::BatchPoints;
use slab_laws::CurveId;

/// Tells where a point lies. The reply fits in the room that is there, so only the search may want memory.
pub fn locate(world: &mut World, point: &Point, reply: &mut Reply) -> Result<(), NoMemory>
    requires { reply.old ≡ [] }
    ensures answered { OnOk result (IsAnswered (world_row Observer-dyn world.old) (Ok (Locate point.now)) reply.new (world_row Observer-dyn world.old)) }
    ensures err { OnErr result (MayTake (world_row Observer-dyn world.old) (Ok (Locate point.now))) }
    ensures same { world.new ≡ world.old }
{
    add_cell(reply, world.locate(point)?);
    reply.add_text("\n");
    Ok(())
}

/// Tells the curves along an edge.
pub fn edge(world: &World, p: &Point, q: &Point, reply: &mut Reply) -> Result<(), NoMemory>
    requires { reply.old ≡ [] }
    ensures answered { OnOk result (IsAnswered (world_row Observer-dyn world.now) (Ok (Edge p.now q.now)) reply.new (world_row Observer-dyn world.now)) }
    ensures err { OnErr result (MayTake (world_row Observer-dyn world.now) (Ok (Edge p.now q.now))) }
{
    match world.curves_of(p, q) {
        Ok(curves) => return put_curves(reply, &curves),
        Err(EdgeError::NoEdge) => reply.set("refused 9\n"),
        Err(EdgeError::NoMemory) => return Err(NoMemory),
    }
    Ok(())
}

/// Tells the edges along which a curve runs.
pub fn curve(world: &World, curve: u32, reply: &mut Reply) -> Result<(), NoMemory>
    requires { reply.old ≡ [] }
    ensures answered { OnOk result (IsAnswered (world_row Observer-dyn world.now) (Ok (Curve curve)) reply.new (world_row Observer-dyn world.now)) }
    ensures err { OnErr result (MayTake (world_row Observer-dyn world.now) (Ok (Curve curve))) }
{
    match world.edges_of(CurveId(curve)) {
        Ok(edges) => return put_curve(world.alloc, reply, curve, &edges),
        Err(HistoryError::Unknown) => reply.set("refused 8\n"),
        Err(HistoryError::NoMemory) => return Err(NoMemory),
    }
    Ok(())
}

/// Tells how many cells of each kind there are, and how many curves. It takes no memory.
pub fn count(world: &World, reply: &mut Reply)
    requires { reply.old ≡ [] }
    ensures { IsAnswered (world_row Observer-dyn world.now) (Ok Count) reply.new (world_row Observer-dyn world.now) }
{
    add_counts(reply, &world.counts());
}

/// Tells the whole subdivision.
pub fn show(world: &World, reply: &mut Reply) -> Result<(), NoMemory>
    requires { reply.old ≡ [] }
    ensures { OnOk result (IsAnswered (world_row Observer-dyn world.now) (Ok Show) reply.new (world_row Observer-dyn world.now)) }
{
    reply.set_bytes(world.text()?);
    Ok(())
}

/// Tells the whole overlay of both layers.
pub fn overlay(world: &World, reply: &mut Reply) -> Result<(), NoMemory>
    requires { reply.old ≡ [] }
    ensures { OnOk result (IsAnswered (world_row Observer-dyn world.now) (Ok Overlay) reply.new (world_row Observer-dyn world.now)) }
{
    reply.set_bytes(world.overlay_text()?);
    Ok(())
}

/// Tells the border of what an operation makes of the red and the blue set.
pub fn region(world: &World, op: Op, reply: &mut Reply) -> Result<(), NoMemory>
    requires { reply.old ≡ [] }
    ensures answered { OnOk result (IsAnswered (world_row Observer-dyn world.now) (Ok (Region op)) reply.new (world_row Observer-dyn world.now)) }
    ensures err { OnErr result (MayTake (world_row Observer-dyn world.now) (Ok (Region op))) }
{
    match world.region(op) {
        Ok(region) => return put_region(world.alloc, reply, region.darts()),
        Err(RegionError::Open(_, _)) => reply.set("refused 19\n"),
        Err(RegionError::NoMemory) => return Err(NoMemory),
    }
    Ok(())
}

/// Tells what is directly above and below each vertex.
pub fn vertical(world: &World, reply: &mut Reply) -> Result<(), NoMemory>
    requires { reply.old ≡ [] }
    ensures { OnOk result (IsAnswered (world_row Observer-dyn world.now) (Ok Vertical) reply.new (world_row Observer-dyn world.now)) }
{
    reply.set_bytes(world.vertical_text()?);
    Ok(())
}

// Appends for each of the points the line of the cell that holds it, which is made in the room of another reply.
fn put_cells(
    world: &mut World,
    points: &[Point],
    line: &mut Reply,
    reply: &mut Reply,
) -> Result<(), NoMemory>
    ensures cells { OnOk result (reply.new ≡ reply.old ++ flat_map (λ c. line_of (cell_text c)) (map (holds (subdivision_of (world_row Observer-dyn world.old))) points.now)) }
    ensures same { world.new ≡ world.old }
{
    for point in points {
        let cell = world.locate(point)?;
        put_cell(reply, line, cell)?;
    }
    Ok(())
}

/// Tells where points lie, one after the other.
pub fn batch(world: &mut World, points: &BatchPoints, reply: &mut Reply) -> Result<(), NoMemory>
    requires { reply.old ≡ [] }
    ensures answered { OnOk result (IsAnswered (world_row Observer-dyn world.old) (Ok (Batch points.now)) reply.new (world_row Observer-dyn world.old)) }
    ensures same { world.new ≡ world.old }
{
    let mut line = Reply::new(world.alloc)?;
    let points = points.as_slice();
    put_head(reply, "batch ", points.len())?;
    put_cells(world, points, &mut line, reply)?;
    reply.put_text("end\n")
}

/// Tells the lower or the upper envelope.
pub fn envelope(world: &World, which: Which, reply: &mut Reply) -> Result<(), NoMemory>
    requires { reply.old ≡ [] }
    ensures { OnOk result (IsAnswered (world_row Observer-dyn world.now) (Ok (Envelope which)) reply.new (world_row Observer-dyn world.now)) }
{
    reply.set_bytes(world.envelope_text(which)?);
    Ok(())
}
