ghost use Rattle.std.specs.Prelude.{IfOk, IfErr};
ghost use Rattle.plane_graphs.specs.Fit.{IsFit};
ghost use Rattle.plane_graphs.specs.Piece.{Present as Pieces};
ghost use Rattle.polygon_sets.specs.Regions.{IsRegionIn, IsErrorOf, TellsPiecesOf, IsRegionOfLayers, IsErrorOfLayers};

use crate::overlaid::Overlay;
use polygon_sets::{Op, Region, RegionError};

/// The border of what both layers of an overlay make as even-odd sets: the darts on whose left the operation holds and on whose right it
/// doesn't (CGAL manual, Boolean set operations). It takes as many steps as the overlay has darts.
///
/// # Errors
///
/// A layer isn't closed, whatever memory there is; red is asked first, and its least odd end is told. Where both are closed there was
/// no memory.
pub fn region_of(overlay: &Overlay, op: Op) -> Result<Region, RegionError>
    ensures region { IfOk result (λ r. IsRegionIn op overlay.now r) }
    ensures error { IfErr result (λ e. IsErrorOf overlay.now e) }

    // The same, of the layers.
    ensures region_of_layers { (red blue : Pieces) → IsFit red → IsFit blue → TellsPiecesOf red blue overlay.now → IfOk result (λ r. IsRegionOfLayers op red blue r) }
    ensures error_of_layers { (red blue : Pieces) → IsFit red → IsFit blue → TellsPiecesOf red blue overlay.now → IfErr result (λ e. IsErrorOfLayers red blue e) }
{
    polygon_sets::region_of(&overlay.both, op)
}
