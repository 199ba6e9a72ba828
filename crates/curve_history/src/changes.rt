ghost use Rattle.std.specs.Prelude.{◌≡◌, ◌≢◌, ◌≤◌, [], length};
ghost use Rattle.plane_graphs.specs.Ascending.{Member};
ghost use Rattle.curve_history.specs.Past.{curves_on, strands_on, SameCurves, SameLayer, SameHistoryCapacity, GainsCurve, GainsStrand, LosesCurve, LosesCurves, LosesSides, LosesStrand, LosesStrands, CopiesCurves, CopiesStrands, IsSpare, SpendsPairs};
ghost use Rattle.edit_steps.specs.EditLaws.{curve_of};
ghost use Rattle.plane_graphs.specs.Strands.{strand as strand_number};

use crate::history::History;
use crate::pairs::tidy;
use crate::strands::strand;
use crate::walks::{copy_pairs, hold_pair, release_curve, release_each, release_one};
use slab_laws::{CurveId, DartId};

impl History {
    /// One more side of a curve, from 1 to 8, runs along an edge, new or not, in room that is there.
    pub fn hold(&mut self, d: DartId, curve: CurveId, side: u32)
        requires named { Member curve.0 self.old.names }
        requires side { side ≤ 8 }
        requires new { ¬ Member (strand_number curve.0 side) (strands_on self.old d) }
        requires room { 1 ≤ self.old.spare_pairs }
        ensures strands { GainsStrand self.old self.new d (strand_number curve.0 side) }
        ensures curves { GainsCurve self.old self.new d curve.0 }
        ensures layer { SameLayer self.old self.new }
        ensures spare { SpendsPairs self.old self.new 1 }
    {
        hold_pair(
            &mut self.by_edge,
            &mut self.by_curve,
            d.0,
            strand(curve, side),
        );
    }

    /// One side of a curve fewer, from 1 to 8, runs along an edge. The curve runs there still where another side does.
    pub fn release(&mut self, d: DartId, curve: CurveId, side: u32)
        requires side { side ≤ 8 }
        requires runs { Member (strand_number curve.0 side) (strands_on self.old d) }
        ensures strands { LosesStrand self.old self.new d (strand_number curve.0 side) }
        ensures last { ((z : _) → Member z (strands_on self.old d) → curve_of z ≡ curve.0 → z ≡ strand_number curve.0 side) → LosesCurve self.old self.new d curve.0 }
        ensures stays { (z : _) → Member z (strands_on self.old d) → curve_of z ≡ curve.0 → z ≢ strand_number curve.0 side → SameCurves self.old self.new }
        ensures layer { SameLayer self.old self.new }
        ensures spare { IsSpare self.old self.new 0 0 0 }
        ensures capacity { SameHistoryCapacity self.old self.new }
    {
        release_one(
            &mut self.by_edge,
            &mut self.by_curve,
            d.0,
            strand(curve, side),
        );
        tidy(&mut self.by_edge, d.0);
    }

    /// No side of a curve runs along an edge any more.
    pub fn release_sides(&mut self, d: DartId, curve: CurveId)
        ensures strands { LosesSides self.old self.new d curve.0 }
        ensures curves { LosesCurve self.old self.new d curve.0 }
        ensures layer { SameLayer self.old self.new }
        ensures spare { IsSpare self.old self.new 0 0 0 }
        ensures capacity { SameHistoryCapacity self.old self.new }
    {
        release_curve(&mut self.by_edge, &mut self.by_curve, d.0, curve.0 as usize);
        tidy(&mut self.by_edge, d.0);
    }

    /// No curve is left along an edge.
    pub fn release_all(&mut self, d: DartId)
        ensures strands { LosesStrands self.old self.new d }
        ensures curves { LosesCurves self.old self.new d }
        ensures layer { SameLayer self.old self.new }
        ensures spare { IsSpare self.old self.new 0 0 0 }
        ensures capacity { SameHistoryCapacity self.old self.new }
    {
        release_each(&mut self.by_edge, &mut self.by_curve, d.0);
        tidy(&mut self.by_edge, d.0);
    }

    /// The edge of d went in two: along the part n run the same sides of curves, in room that is there.
    pub fn part(&mut self, d: DartId, n: DartId)
        requires two { d ≢ n }
        requires new { curves_on self.old n ≡ [] }
        requires room { length (strands_on self.old d) ≤ self.old.spare_pairs }
        ensures strands { CopiesStrands self.old self.new d n }
        ensures curves { CopiesCurves self.old self.new d n }
        ensures layer { SameLayer self.old self.new }
        ensures spare { SpendsPairs self.old self.new (length (strands_on self.old d)) }
    {
        // Each side is one node.
        self.by_edge.laws();
        copy_pairs(&mut self.by_edge, &mut self.by_curve, d.0, n.0);
    }

    /// The edges of d and n, along which the same sides of curves run, are one, that of d.
    pub fn join(&mut self, d: DartId, n: DartId)
        requires { strands_on self.old d ≡ strands_on self.old n }
        ensures strands { LosesStrands self.old self.new n }
        ensures curves { LosesCurves self.old self.new n }
        ensures layer { SameLayer self.old self.new }
        ensures spare { IsSpare self.old self.new 0 0 0 }
        ensures capacity { SameHistoryCapacity self.old self.new }
    {
        self.release_all(n);
    }
}
