ghost use Rattle.std.specs.Prelude.{◌≡◌, [], ◌∷◌, ◌++◌, Ok, codes, decimal, OnOk, OnErr};
ghost use Rattle.script_lines.specs.declared.command.Command.TheVariants.{Segment as AddSegment, Path as AddPath, Drop, Cut, Pin, Unpin, Split, Merge, Clear};
ghost use Rattle.planar_run.specs.Answer.{IsAnswered, IsDrawn, MayDraw, MayTake};
ghost use Rattle.planar_run.specs.Rounds.{AreFew};
ghost use Rattle.planar_run.specs.Rows.{arranged_row, world_row, IsKeptWorld};
ghost use Rattle.planar_run.specs.Text.{line_of, went_text};

use crate::reply::Reply;
use crate::went::tell_went;
use crate::world::World;
use arrangement::{CutError, DropError, InsertError, MergeError, PinError, SplitError};
use exact_plane::{Path, PathError, Point, Segment, SegmentError};
use no_memory::NoMemory;
use script_lines::PathPoints;
use slab_laws::CurveId;

// The reply to an edit that is done. It takes no memory.
fn tell_done(world: &World, reply: &mut Reply)
    requires { AreFew (arranged_row Observer-dyn world.now).bus.went }
    ensures { reply.new ≡ line_of (codes "ok" ++ went_text (arranged_row Observer-dyn world.now).bus.went) }
{
    reply.set("ok");
    tell_went(reply, world.went());
}

// The reply to a new curve. It takes no memory, since the curve is there already.
fn tell_curve(world: &World, curve: CurveId, reply: &mut Reply)
    requires { AreFew (arranged_row Observer-dyn world.now).bus.went }
    ensures { reply.new ≡ line_of ((codes "ok " ++ decimal curve.0) ++ went_text (arranged_row Observer-dyn world.now).bus.went) }
{
    reply.set("ok ");
    reply.add_number(curve.0);
    tell_went(reply, world.went());
}

// Makes a segment a new curve where there is room for one more and a number left.
fn insert(world: &mut World, segment: Segment, reply: &mut Reply) -> Result<(), NoMemory>
    requires kept { IsKeptWorld Observer-dyn world.old }
    ensures answered { OnOk result (IsDrawn (Ok (segment ∷ [])) (world_row Observer-dyn world.old) reply.new (world_row Observer-dyn world.new)) }
    ensures err { OnErr result (MayDraw (Ok (segment ∷ [])) (world_row Observer-dyn world.old) × (world_row Observer-dyn world.new ≡ world_row Observer-dyn world.old)) }
    ensures kept { IsKeptWorld Observer-dyn world.new }
{
    match world.insert(segment) {
        Ok(curve) => tell_curve(world, curve, reply),
        Err(InsertError::Full(_)) => reply.set("refused 17\n"),
        Err(InsertError::Spent) => reply.set("refused 18\n"),
        Err(InsertError::NoMemory) => return Err(NoMemory),
    }
    Ok(())
}

/// Makes the segment between two points a new curve.
pub fn segment(
    world: &mut World,
    x1: i64,
    y1: i64,
    x2: i64,
    y2: i64,
    reply: &mut Reply,
) -> Result<(), NoMemory>
    requires kept { IsKeptWorld Observer-dyn world.old }
    ensures answered { OnOk result (IsAnswered (world_row Observer-dyn world.old) (Ok (AddSegment x1 y1 x2 y2)) reply.new (world_row Observer-dyn world.new)) }
    ensures err { OnErr result (MayTake (world_row Observer-dyn world.old) (Ok (AddSegment x1 y1 x2 y2)) × (world_row Observer-dyn world.new ≡ world_row Observer-dyn world.old)) }
    ensures kept { IsKeptWorld Observer-dyn world.new }
{
    match Segment::new(x1, y1, x2, y2) {
        Ok(segment) => return insert(world, segment, reply),
        Err(SegmentError::Range) => reply.set("refused 4\n"),
        Err(SegmentError::Equal) => reply.set("refused 7\n"),
    }
    Ok(())
}

// Makes a path a new curve where there is room for its sides and a number left.
fn insert_path(world: &mut World, path: &Path, reply: &mut Reply) -> Result<(), NoMemory>
    requires kept { IsKeptWorld Observer-dyn world.old }
    ensures answered { OnOk result (IsDrawn (Ok path.now) (world_row Observer-dyn world.old) reply.new (world_row Observer-dyn world.new)) }
    ensures err { OnErr result (MayDraw (Ok path.now) (world_row Observer-dyn world.old) × (world_row Observer-dyn world.new ≡ world_row Observer-dyn world.old)) }
    ensures kept { IsKeptWorld Observer-dyn world.new }
{
    match world.insert_path(path) {
        Ok(number) => tell_curve(world, number, reply),
        Err(InsertError::Full(_)) => reply.set("refused 17\n"),
        Err(InsertError::Spent) => reply.set("refused 18\n"),
        Err(InsertError::NoMemory) => return Err(NoMemory),
    }
    Ok(())
}

/// Makes the polyline along points a new curve.
pub fn path(world: &mut World, points: &PathPoints, reply: &mut Reply) -> Result<(), NoMemory>
    requires kept { IsKeptWorld Observer-dyn world.old }
    ensures answered { OnOk result (IsAnswered (world_row Observer-dyn world.old) (Ok (AddPath points.now)) reply.new (world_row Observer-dyn world.new)) }
    ensures err { OnErr result (MayTake (world_row Observer-dyn world.old) (Ok (AddPath points.now)) × (world_row Observer-dyn world.new ≡ world_row Observer-dyn world.old)) }
    ensures kept { IsKeptWorld Observer-dyn world.new }
{
    match Path::new(points.as_slice()) {
        Ok(path) => return insert_path(world, &path, reply),
        Err(PathError::Count) => reply.set("refused 2\n"),
        Err(PathError::Range) => reply.set("refused 4\n"),
        Err(PathError::Equal) => reply.set("refused 7\n"),
    }
    Ok(())
}

/// Takes a curve away.
pub fn drop_curve(world: &mut World, curve: u32, reply: &mut Reply) -> Result<(), NoMemory>
    requires kept { IsKeptWorld Observer-dyn world.old }
    ensures answered { OnOk result (IsAnswered (world_row Observer-dyn world.old) (Ok (Drop curve)) reply.new (world_row Observer-dyn world.new)) }
    ensures err { OnErr result (MayTake (world_row Observer-dyn world.old) (Ok (Drop curve)) × (world_row Observer-dyn world.new ≡ world_row Observer-dyn world.old)) }
    ensures kept { IsKeptWorld Observer-dyn world.new }
{
    match world.remove_curve(CurveId(curve)) {
        Ok(()) => tell_done(world, reply),
        Err(DropError::Unknown) => reply.set("refused 8\n"),
        Err(DropError::NoMemory) => return Err(NoMemory),
    }
    Ok(())
}

/// Takes an edge from its curves.
pub fn cut(world: &mut World, p: &Point, q: &Point, reply: &mut Reply) -> Result<(), NoMemory>
    requires kept { IsKeptWorld Observer-dyn world.old }
    ensures answered { OnOk result (IsAnswered (world_row Observer-dyn world.old) (Ok (Cut p.now q.now)) reply.new (world_row Observer-dyn world.new)) }
    ensures err { OnErr result (MayTake (world_row Observer-dyn world.old) (Ok (Cut p.now q.now)) × (world_row Observer-dyn world.new ≡ world_row Observer-dyn world.old)) }
    ensures kept { IsKeptWorld Observer-dyn world.new }
{
    match world.remove_edge(p, q) {
        Ok(()) => tell_done(world, reply),
        Err(CutError::NoEdge) => reply.set("refused 9\n"),
        Err(CutError::Full(_)) => reply.set("refused 17\n"),
        Err(CutError::NoMemory) => return Err(NoMemory),
    }
    Ok(())
}

/// Pins a point.
pub fn pin(world: &mut World, point: &Point, reply: &mut Reply) -> Result<(), NoMemory>
    requires kept { IsKeptWorld Observer-dyn world.old }
    ensures answered { OnOk result (IsAnswered (world_row Observer-dyn world.old) (Ok (Pin point.now)) reply.new (world_row Observer-dyn world.new)) }
    ensures err { OnErr result (MayTake (world_row Observer-dyn world.old) (Ok (Pin point.now)) × (world_row Observer-dyn world.new ≡ world_row Observer-dyn world.old)) }
    ensures kept { IsKeptWorld Observer-dyn world.new }
{
    match world.pin(point) {
        Ok(()) => tell_done(world, reply),
        Err(PinError::Pinned) => reply.set("refused 13\n"),
        Err(PinError::Full(_)) => reply.set("refused 17\n"),
        Err(PinError::NoMemory) => return Err(NoMemory),
    }
    Ok(())
}

/// Unpins a point. It takes no memory.
pub fn unpin(world: &mut World, point: &Point, reply: &mut Reply)
    requires kept { IsKeptWorld Observer-dyn world.old }
    ensures answered { IsAnswered (world_row Observer-dyn world.old) (Ok (Unpin point.now)) reply.new (world_row Observer-dyn world.new) }
    ensures kept { IsKeptWorld Observer-dyn world.new }
{
    match world.unpin(point) {
        Ok(()) => tell_done(world, reply),
        Err(_) => reply.set("refused 10\n"),
    }
}

/// Pins a point inside an edge.
pub fn split(
    world: &mut World,
    p: &Point,
    q: &Point,
    r: &Point,
    reply: &mut Reply,
) -> Result<(), NoMemory>
    requires kept { IsKeptWorld Observer-dyn world.old }
    ensures answered { OnOk result (IsAnswered (world_row Observer-dyn world.old) (Ok (Split p.now q.now r.now)) reply.new (world_row Observer-dyn world.new)) }
    ensures err { OnErr result (MayTake (world_row Observer-dyn world.old) (Ok (Split p.now q.now r.now)) × (world_row Observer-dyn world.new ≡ world_row Observer-dyn world.old)) }
    ensures kept { IsKeptWorld Observer-dyn world.new }
{
    match world.split_edge(p, q, r) {
        Ok(()) => tell_done(world, reply),
        Err(SplitError::NoEdge) => reply.set("refused 9\n"),
        Err(SplitError::NotInside) => reply.set("refused 11\n"),
        Err(SplitError::Full(_)) => reply.set("refused 17\n"),
        Err(SplitError::NoMemory) => return Err(NoMemory),
    }
    Ok(())
}

/// Joins the two edges at a point that its pin alone makes a vertex. It takes no memory.
pub fn merge(world: &mut World, r: &Point, reply: &mut Reply)
    requires kept { IsKeptWorld Observer-dyn world.old }
    ensures answered { IsAnswered (world_row Observer-dyn world.old) (Ok (Merge r.now)) reply.new (world_row Observer-dyn world.new) }
    ensures kept { IsKeptWorld Observer-dyn world.new }
{
    match world.merge_edge(r) {
        Ok(()) => tell_done(world, reply),
        Err(MergeError::NoVertex) => reply.set("refused 10\n"),
        Err(MergeError::NotMergeable) => reply.set("refused 12\n"),
    }
}

/// Takes every segment and pin away. It takes no memory.
pub fn clear(world: &mut World, reply: &mut Reply)
    requires kept { IsKeptWorld Observer-dyn world.old }
    ensures answered { IsAnswered (world_row Observer-dyn world.old) (Ok Clear) reply.new (world_row Observer-dyn world.new) }
    ensures kept { IsKeptWorld Observer-dyn world.new }
{
    world.clear();
    tell_done(world, reply);
}
