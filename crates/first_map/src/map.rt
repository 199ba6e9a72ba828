ghost use Rattle.std.specs.Prelude.{IfOk};
ghost use Rattle.arrangement.specs.Arranged.{arranged, IsWatched};

use anyhow::Context;
use arrangement::{Arrangement, Bus, Limits, NoMemory, SEATS, Segment};
use std::alloc::Global;

/// A map of nothing, with room for observers.
pub fn new_map(alloc: Global) -> Result<Arrangement, NoMemory>
    ensures watched { IfOk result (λ a. IsWatched (arranged Observer-dyn a)) }
{
    let bus = Bus::new(alloc, Vec::with_capacity(alloc, SEATS)?)?;
    Arrangement::new(alloc, Limits::FULL, bus)
}

/// Draws segments, each by its two ends, one after the other, up to the first that is refused.
pub fn draw_all(map: &mut Arrangement, sides: &[(i64, i64, i64, i64)]) -> anyhow::Result<()>
    requires watched { IsWatched (arranged Observer-dyn map.old) }
    ensures watched { IsWatched (arranged Observer-dyn map.new) }
{
    'sides: for (x1, y1, x2, y2) in sides {
        let side = Segment::new(*x1, *y1, *x2, *y2).context("a side is no segment")?;
        let _curve = map.insert(side).context("a side isn't let in")?;
    }
    Ok(())
}
