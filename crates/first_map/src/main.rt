//! Two parcels and a road: how many faces there are, and where a point lies.
#![tactic(auto)]

mod map;

use crate::map::{draw_all, new_map};
use anyhow::Context;
use arrangement::{Arrangement, Point, Strategy};

// Tells how large the map is, and where a point lies.
fn tell(rt: &impl Print, map: &mut Arrangement) -> anyhow::Result<()> {
    let counts = map.counts();
    println!(rt;
        "{} vertices, {} edges, {} faces",
        counts.vertices, counts.edges, counts.faces
    )?;
    let well = Point::new(1, 3, 1).context("the well is no point")?;
    let cell = map.locate(Strategy::Walk, &well)?;
    println!(rt; "the well: {cell}")?;
    Ok(())
}

fn main(rt: HostRuntime) -> anyhow::Result<()> {
    let sides = [
        (0, 0, 6, 0),
        (6, 0, 6, 4),
        (6, 4, 0, 4),
        (0, 4, 0, 0),
        (3, 0, 3, 4),
        (-2, 1, 8, 3),
    ];
    let mut map = new_map(rt.alloc())?;
    let drawn = draw_all(&mut map, &sides);
    let told = tell(&rt, &mut map);
    drop(map);
    drawn?;
    told
}
