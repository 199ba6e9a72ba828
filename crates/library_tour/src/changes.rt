ghost use Rattle.arrangement.specs.Arranged.{arranged, IsWatched};

use crate::maps::{dig, draw, new_map, seat};
use crate::narrator::Narrator;
use anyhow::Context;
use arrangement::{Arrangement, CurveId, Observer};
use std::alloc::Global;

// The number under which the narrator is seated.
const NARRATOR: u32 = 1;

// Two roads that cross, a well at the crossing, and the second road is given up.
fn edit(map: &mut Arrangement) -> anyhow::Result<()>
    requires watched { IsWatched (arranged Observer-dyn map.old) }
    ensures watched { IsWatched (arranged Observer-dyn map.new) }
{
    draw(map, 0, 0, 4, 0)?;
    draw(map, 1, -1, 2, 1)?;
    dig(map, 3, 0, 2)?;
    map.remove_curve(CurveId(2))
        .context("there is no second road")
}

// Edits the map while the observer is seated, and tells what that has to report.
fn narrated(map: &mut Arrangement, observer: Box<dyn Observer>) -> anyhow::Result<Vec<u8>>
    requires watched { IsWatched (arranged Observer-dyn map.old) }
{
    seat(map, NARRATOR, observer)?;
    edit(map)?;
    map.report(NARRATOR).context("the narrator tells nothing")
}

/// What a narrator tells of some edits.
pub fn told_changes(alloc: Global) -> anyhow::Result<Vec<u8>> {
    let narrator = Box::new(alloc, Narrator::new(alloc))?;
    let mut map = new_map(alloc)?;
    let words = narrated(&mut map, narrator);
    drop(map);
    words
}
