ghost use Rattle.std.specs.Prelude.{◌≡◌, ◌↔◌, pos, ◌<ℤ◌};
ghost use Rattle.std.specs.declared.cmp.Ordering.TheVariants.{Equal};
ghost use Rattle.exact_plane.specs.MeetOf.{weight_of};
ghost use Rattle.exact_plane.specs.Slope.{slope_cmp, fraction_cmp, rise_cmp, IsVerticalLast};

use crate::line::Line;
use crate::meets::cross_weight;
use std::cmp::Ordering;

/// Compares the slopes of two lines (CGAL, `Compare_slope_2`): `Greater` where the first is steeper.
///
/// The slope of a line with the numbers a, b, c is -a / b; a falling line has a negative one. A vertical line is steeper
/// than all that aren't, and parallel lines are equal.
pub fn slope_order(first: &Line, second: &Line) -> Ordering
    ensures value { result ≡ slope_cmp first.now second.now }
    ensures parallel { (result ≡ Equal) ↔ (weight_of first.now second.now ≡ pos 0) }
    ensures slopes { pos 0 <ℤ first.now.b → pos 0 <ℤ second.now.b → result ≡ fraction_cmp first.now second.now }
    ensures vertical_last { IsVerticalLast first.now second.now result }
    ensures by_rise { result ≡ rise_cmp first.now second.now }
{
    let weight = cross_weight(first.a, first.b, second.a, second.b);
    0.cmp(&weight)
}
