// A square with a square hole, and a vertex between the two, drawn in an arrangement.

ghost use Rattle.std.specs.Prelude.{IfOk, IfSome};
ghost use Rattle.arrangement.specs.Arranged.{arranged, IsWatched};
ghost use Rattle.slab_laws.specs.Sound.{IsGraphSound};
ghost use Rattle.slab_laws.specs.View.{HasDart};

use crate::shapes::Ends;
use arrangement::{Arrangement, Bus, Limits, SEATS};
use dcel_records::Records;
use exact_plane::{Point, Segment};
use locate_naive::edge_dart;
use no_memory::NoMemory;
use slab_laws::{DartId, Darts};
use std::alloc::Global;

/// A layer of nothing, without observers.
pub(crate) fn nothing(alloc: Global) -> Result<Arrangement, NoMemory>
    ensures watched { IfOk result (λ a. IsWatched (arranged Observer-dyn a)) }
{
    let bus = Bus::new(alloc, Vec::with_capacity(alloc, SEATS)?)?;
    Arrangement::new(alloc, Limits::FULL, bus)
}

pub(crate) fn draw(layer: &mut Arrangement, ends: Ends)
    requires watched { IsWatched (arranged Observer-dyn layer.old) }
    ensures watched { IsWatched (arranged Observer-dyn layer.new) }
{
    let (x1, y1, x2, y2) = ends;
    if let Ok(segment) = Segment::new(x1, y1, x2, y2) {
        let _ = layer.insert(segment);
    }
}

/// The square from (0, 0) to (8, 8), and within it the one from (2, 2) to (4, 4).
pub(crate) fn draw_squares(layer: &mut Arrangement)
    requires watched { IsWatched (arranged Observer-dyn layer.old) }
    ensures watched { IsWatched (arranged Observer-dyn layer.new) }
{
    draw(layer, (0, 0, 8, 0));
    draw(layer, (8, 0, 8, 8));
    draw(layer, (8, 8, 0, 8));
    draw(layer, (0, 8, 0, 0));
    draw(layer, (2, 2, 4, 2));
    draw(layer, (4, 2, 4, 4));
    draw(layer, (4, 4, 2, 4));
    draw(layer, (2, 4, 2, 2));
}

pub(crate) fn at(x: i64, y: i64) -> Option<Point> {
    Point::new(i128::from(x), i128::from(y), 1).ok()
}

/// The dart from one point to the other.
pub(crate) fn dart(records: &Records, ends: Ends) -> Option<DartId>
    requires { IsGraphSound records.now.graph }
    ensures { IfSome result (λ d. HasDart records.now.graph d) }
{
    let (x1, y1, x2, y2) = ends;
    let (from, to) = (at(x1, y1)?, at(x2, y2)?);
    let forward = edge_dart(records, &from, &to)?;
    if from < to {
        Some(forward)
    } else {
        Some(records.twin(forward))
    }
}
