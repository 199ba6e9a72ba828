ghost use Rattle.std.specs.Prelude.{◌≡◌, ◌≤◌};
ghost use Rattle.edit_steps.specs.EditLaws.{curve_of as curve_number};
ghost use Rattle.plane_graphs.specs.Strands.{strand as strand_number};

use slab_laws::CurveId;

/// The number of a side of a curve among all sides of all curves, 16 for each curve.
#[inline(always)]
pub(crate) fn strand(curve: CurveId, side: u32) -> usize
    requires { side ≤ 8 }
    ensures { result ≡ strand_number curve.0 side }
{
    curve.0 as usize * 16 + side as usize
}

/// The number of the curve that a side is of.
#[inline(always)]
pub(crate) fn curve_of(strand: usize) -> usize
    ensures { result ≡ curve_number strand }
{
    strand / 16
}
