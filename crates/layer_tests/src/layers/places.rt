ghost use Rattle.arrangement.specs.Arranged.{arranged, IsWatched};

use crate::layers::edits::at;
use arrangement::Arrangement;
use slab_laws::{Cell, Strategy};
use std::test::Fail;

const STRATEGIES: [Strategy; 4] = [
    Strategy::Naive,
    Strategy::Walk,
    Strategy::Landmarks,
    Strategy::Trapezoid,
];

fn edge(x: i128, z: i128) -> Result<Cell, Fail> {
    Ok(Cell::Edge(at(x, 0)?, at(z, 0)?))
}

/// Whether a point of the abscissa lies inside the edge between two others, under each strategy.
pub fn lies_in(layer: &mut Arrangement, y: i128, x: i128, z: i128) -> Result<bool, Fail>
    requires watched { IsWatched (arranged Observer-dyn layer.old) }
    ensures watched { IsWatched (arranged Observer-dyn layer.new) }
{
    let point = at(y, 0)?;
    let wanted = edge(x, z)?;
    for strategy in &STRATEGIES {
        if layer.locate(*strategy, &point)? != wanted {
            return Ok(false);
        }
    }
    Ok(true)
}
