ghost use Rattle.arrangement.specs.Arranged.{arranged, IsWatched};

use crate::layers::asked::counted;
use crate::layers::edits::{Under, layer_under};
use crate::layers::looks::draw;
use arrangement::Arrangement;
use std::test::Fail;

// Short segments one above another, one more than a script's layer holds.
fn draw_rungs(layer: &mut Arrangement) -> Result<(), Fail>
    requires watched { IsWatched (arranged Observer-dyn layer.old) }
    ensures watched { IsWatched (arranged Observer-dyn layer.new) }
{
    'rungs: for y in 0..2001 {
        draw(layer, (0, y, 1, y))?;
    }
    Ok(())
}

// Whether the layer has what they make: each is an edge of its own, and the one face has a hole for each.
fn has_rungs(layer: &mut Arrangement) -> Result<bool, Fail>
    requires watched { IsWatched (arranged Observer-dyn layer.old) }
{
    draw_rungs(layer)?;
    Ok(counted(layer)? == [4002, 2001, 1, 2001, 0, 2001])
}

#[test]
fn a_layer_holds_what_its_limits_say(rt: HostRuntime) -> Result<(), Fail> {
    let mut layer = layer_under(rt.alloc(), Under::OneMore)?;
    let holds = has_rungs(&mut layer);
    drop(layer);
    assert!(rt; holds?);
    Ok(())
}
