ghost use Rattle.std.specs.Prelude.{IfOk, IfErr};
ghost use Rattle.plane_graphs.specs.Fit.{IsFit};
ghost use Rattle.polygon_sets.specs.Regions.{AreCountsOf, IsRegionOfLayers, IsErrorOfLayers};
ghost use Rattle.arrangement.specs.Arranged.{arranged, layer_in};

use crate::arrangement::Arrangement;
use crate::presents::present_of;
use no_memory::NoMemory;
use overlay_sweep::{CountedRows, counted_rows};
use polygon_sets::{Colour, Op, Region, RegionError, region_by};
use std::alloc::Global;

// The subdivision by both layers, and of each of its edges how many pieces of each hold it.
fn counted_between(
    alloc: Global,
    red: &Arrangement,
    blue: &Arrangement,
) -> Result<CountedRows, NoMemory>
    ensures red { IfOk result (λ _. IsFit (layer_in (arranged Observer-dyn red.now)).present) }
    ensures blue { IfOk result (λ _. IsFit (layer_in (arranged Observer-dyn blue.now)).present) }
    ensures pieces { IfOk result (λ c.
        AreCountsOf (layer_in (arranged Observer-dyn red.now)).present (layer_in (arranged Observer-dyn blue.now)).present c.rows c.red.items c.blue.items) }
{
    let of_red = present_of(alloc, &red.layer)?;
    let of_blue = present_of(alloc, &blue.layer)?;
    let counted = counted_rows(alloc, &of_red, &of_blue);
    // What a scope drops at its end is proved there anew, in all its parts.
    drop(of_red);
    drop(of_blue);
    let counted = counted?;
    Ok(counted)
}

/// The border of what two layers make as even-odd sets, each as it is at this moment: the darts of the subdivision by both on whose left
/// the operation holds and on whose right it doesn't (CGAL manual, Boolean set operations).
///
/// It is that of their overlay, which isn't made: once round each vertex of both to see that they are closed, one plane sweep of both
/// together, and passes over what it leaves; n log n steps in all.
///
/// # Errors
///
/// A layer isn't closed, whatever memory there is; red is asked first, and its least odd end is told. Where both are closed there was
/// no memory.
pub fn region(
    alloc: Global,
    red: &Arrangement,
    blue: &Arrangement,
    op: Op,
) -> Result<Region, RegionError>
    ensures region { IfOk result (λ r.
        IsRegionOfLayers op (layer_in (arranged Observer-dyn red.now)).present (layer_in (arranged Observer-dyn blue.now)).present r) }
    ensures error { IfErr result (λ e.
        IsErrorOfLayers (layer_in (arranged Observer-dyn red.now)).present (layer_in (arranged Observer-dyn blue.now)).present e) }
{
    if let Some(end) = red.odd_end() {
        return Err(RegionError::Open(Colour::Red, end));
    }
    if let Some(end) = blue.odd_end() {
        return Err(RegionError::Open(Colour::Blue, end));
    }
    match counted_between(alloc, red, blue) {
        Ok(counted) => region_by(alloc, &counted.rows, &counted.red, &counted.blue, op),
        Err(NoMemory) => Err(RegionError::NoMemory),
    }
}
