ghost use Rattle.slab_laws.specs.Sound.{IsGraphSound};
ghost use Rattle.slab_laws.specs.View.{HasDart};

use arrangement::{DartId, Darts, NoMemory, Point};
use std::alloc::Global;

/// The corners of the boundary that a dart is on, from its source on; the face lies on its left. A boundary has no more
/// darts than there are.
pub fn walk<R: Darts>(
    alloc: Global,
    records: &R,
    first: DartId,
    darts: usize,
) -> Result<Vec<Point>, NoMemory>
    requires sound { IsGraphSound (R.graph records.now) }
    requires first { HasDart (R.graph records.now) first }
{
    let mut corners = Vec::new(alloc);
    let mut dart = first;
    // Each call on a dart asks that the dart has a record. The loop's invariant says it (`proofs/walk/walk/Invariants.antt`),
    // and sound records keep it from a dart to the next.
    'boundary: for _ in 0..darts {
        corners.push(records.point(records.source(dart)))?;
        dart = records.next(dart);
        if dart == first {
            break;
        }
    }
    Ok(corners)
}
