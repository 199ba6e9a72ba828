ghost use Rattle.std.specs.Prelude.{IfOk};
ghost use Rattle.arrangement.specs.Arranged.{arranged, IsWatched};

use anyhow::Context;
use arrangement::{Arrangement, Bus, Limits, NoMemory, Observer, Point, SEATS, Segment};
use std::alloc::Global;

/// A map of nothing, with room for observers. Each edit asks that its observers have followed it so far (`IsWatched`), and each call
/// keeps that.
pub fn new_map(alloc: Global) -> Result<Arrangement, NoMemory>
    ensures watched { IfOk result (λ a. IsWatched (arranged Observer-dyn a)) }
{
    let bus = Bus::new(alloc, Vec::with_capacity(alloc, SEATS)?)?;
    Arrangement::new(alloc, Limits::FULL, bus)
}

/// Draws a segment.
///
/// # Errors
///
/// The numbers are no segment's, or the map doesn't let it in.
pub fn draw(map: &mut Arrangement, x1: i64, y1: i64, x2: i64, y2: i64) -> anyhow::Result<()>
    requires watched { IsWatched (arranged Observer-dyn map.old) }
    ensures watched { IsWatched (arranged Observer-dyn map.new) }
{
    let segment = Segment::new(x1, y1, x2, y2).context("a side is no segment")?;
    let _curve = map.insert(segment).context("a side isn't let in")?;
    Ok(())
}

/// Draws segments, each by its two ends, one after the other, up to the first that isn't drawn. What lasts from one to the next is that
/// observers have followed the map: the loop's invariant says it in one line (`proofs/maps/draw_all/`).
pub fn draw_all(map: &mut Arrangement, segments: &[(i64, i64, i64, i64)]) -> anyhow::Result<()>
    requires watched { IsWatched (arranged Observer-dyn map.old) }
    ensures watched { IsWatched (arranged Observer-dyn map.new) }
{
    'segments: for (x1, y1, x2, y2) in segments {
        draw(map, *x1, *y1, *x2, *y2)?;
    }
    Ok(())
}

/// Pins a point.
///
/// # Errors
///
/// The numbers are no point's, or the map doesn't pin it.
pub fn dig(map: &mut Arrangement, x: i128, y: i128, w: i128) -> anyhow::Result<()>
    requires watched { IsWatched (arranged Observer-dyn map.old) }
    ensures watched { IsWatched (arranged Observer-dyn map.new) }
{
    let well = Point::new(x, y, w).context("the well is no point")?;
    map.pin(&well).context("the well isn't pinned")
}

/// Seats an observer under a name.
///
/// # Errors
///
/// The map doesn't take it.
pub fn seat(map: &mut Arrangement, name: u32, observer: Box<dyn Observer>) -> anyhow::Result<()>
    requires watched { IsWatched (arranged Observer-dyn map.old) }
    ensures watched { IsWatched (arranged Observer-dyn map.new) }
{
    match map.attach(name, observer, None) {
        Ok(()) => Ok(()),
        Err((_observer, error)) => Err(error).context("the observer isn't seated"),
    }
}
