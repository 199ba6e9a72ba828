ghost use Rattle.std.specs.Prelude.{◌≡◌, true, codes, map, IfErr, IfOk, OnOk};
ghost use Rattle.arrangement.specs.Arranged.{arranged, layer_in};
ghost use Rattle.polygon_sets.specs.Regions.{dart_ends};
ghost use Rattle.set_laws.specs.PolygonSets.{region};
ghost use Rattle.slab_laws.specs.OverlayText.{presents_text};
ghost use Rattle.planar_run.specs.Premises.{are_closed};
ghost use Rattle.planar_run.specs.Refusals.{BarsRegion};
ghost use Rattle.planar_run.specs.Rows.{world_row, IsKeptWorld};
ghost use Rattle.planar_run.specs.Text.{line_of};
ghost use Rattle.planar_run.specs.World.{blue_of, red_of, turned};

use crate::reply::Reply;
use crate::world::World;
use arrangement::{Arrangement, Op, Region, RegionError, overlay, region};
use no_memory::NoMemory;
use std::alloc::Global;
use std::mem::swap;

impl World {
    /// Later lines mean the blue arrangement, or the red one. What the other holds stays, its observers and their plans too.
    pub fn turn(&mut self, blue: bool)
        requires kept { IsKeptWorld Observer-dyn self.old }
        ensures turned { world_row Observer-dyn self.new ≡ turned blue (world_row Observer-dyn self.old) }
        ensures kept { IsKeptWorld Observer-dyn self.new }
    {
        if self.is_blue != blue {
            swap(&mut self.arrangement, &mut self.other);
            self.is_blue = blue;
        }
    }

    /// The text of the overlay of both arrangements.
    pub fn overlay_text(&self) -> Result<Vec<u8>, NoMemory>
        ensures { IfOk result (λ bytes. bytes.items ≡ presents_text (red_of (world_row Observer-dyn self.now)).layer.present (blue_of (world_row Observer-dyn self.now)).layer.present) }
    {
        if self.is_blue {
            text_of_both(self.alloc, &self.other, &self.arrangement)
        } else {
            text_of_both(self.alloc, &self.arrangement, &self.other)
        }
    }

    /// What an operation makes of the red and the blue set, by the darts on its border.
    pub fn region(&self, op: Op) -> Result<Region, RegionError>
        ensures darts { IfOk result (λ r. r ≡ map dart_ends (region op (red_of (world_row Observer-dyn self.now)).layer.present (blue_of (world_row Observer-dyn self.now)).layer.present)) }
        ensures allowed { OnOk result (are_closed (world_row Observer-dyn self.now) ≡ true) }
        ensures barred { IfErr result (λ e. BarsRegion e (world_row Observer-dyn self.now)) }
    {
        if self.is_blue {
            region(self.alloc, &self.other, &self.arrangement, op)
        } else {
            region(self.alloc, &self.arrangement, &self.other, op)
        }
    }
}

// The text of the overlay of a red arrangement and a blue one. A call drops the overlay, since what a scope drops at its end is
// proved there anew, in all its parts.
fn text_of_both(alloc: Global, red: &Arrangement, blue: &Arrangement) -> Result<Vec<u8>, NoMemory>
    ensures { IfOk result (λ bytes. bytes.items ≡ presents_text (layer_in (arranged Observer-dyn red.now)).present (layer_in (arranged Observer-dyn blue.now)).present) }
{
    let both = overlay(alloc, red, blue)?;
    let text = both.text();
    drop(both);
    text
}

/// Lets later lines mean the blue layer, or the red one. It takes no memory.
pub fn layer(world: &mut World, blue: bool, reply: &mut Reply)
    requires kept { IsKeptWorld Observer-dyn world.old }
    ensures told { reply.new ≡ line_of (codes "ok") }
    ensures turned { world_row Observer-dyn world.new ≡ turned blue (world_row Observer-dyn world.old) }
    ensures kept { IsKeptWorld Observer-dyn world.new }
{
    world.turn(blue);
    reply.set("ok\n");
}
