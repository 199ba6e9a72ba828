ghost use Rattle.plane_graphs.specs.Fit.{IsFit};
ghost use Rattle.slab_laws.specs.Pieces.{present_of};

use crate::layers::presents::present_of;
use arr_text::overlay_text;
use arrangement::{Arrangement, overlay};
use no_memory::NoMemory;
use plain_slabs::subdivide_both;
use slab_laws::Present;
use std::alloc::Global;

fn text_of_presents(alloc: Global, red: &Present, blue: &Present) -> Result<Vec<u8>, NoMemory>
    requires red { IsFit (present_of red.now) }
    requires blue { IsFit (present_of blue.now) }
{
    let both = subdivide_both(alloc, red, blue)?;
    let text = overlay_text(alloc, &both);
    drop(both);
    text
}

// The text of the overlay by slabs.
fn text_by_slabs(
    alloc: Global,
    red: &Arrangement,
    blue: &Arrangement,
) -> Result<Vec<u8>, NoMemory> {
    let of_red = present_of(alloc, red)?;
    let of_blue = present_of(alloc, blue)?;
    let text = text_of_presents(alloc, &of_red, &of_blue);
    drop(of_red);
    drop(of_blue);
    text
}

// That of the overlay by sweeps.
fn text_by_sweeps(
    alloc: Global,
    red: &Arrangement,
    blue: &Arrangement,
) -> Result<Vec<u8>, NoMemory> {
    let both = overlay(alloc, red, blue)?;
    let text = both.text();
    drop(both);
    text
}

/// Whether both texts are one, byte for byte.
///
/// # Errors
///
/// There was no memory for them.
pub fn overlays_are_alike(
    alloc: Global,
    red: &Arrangement,
    blue: &Arrangement,
) -> Result<bool, NoMemory> {
    let by_sweeps = text_by_sweeps(alloc, red, blue)?;
    let by_slabs = text_by_slabs(alloc, red, blue)?;
    Ok(by_sweeps == by_slabs)
}
