ghost use Rattle.std.specs.Prelude.{◌≡◌, ◌+◌, Some};
ghost use Rattle.exact_plane.specs.WholeParts.{excludes, is_above_or_below, is_left_or_right_of, whole_parts};
ghost use Rattle.slab_laws.specs.View.{HasDart};
ghost use Rattle.counted_looks.specs.Looks.{IsLookOf};
ghost use Rattle.dcel_records.specs.declared.spot.Spot.TheVariants.{Edge};

use dcel_records::Records;
use exact_plane::{BoundingBox, Line, Point, WholeParts};
use slab_laws::{DartId, Darts};
use std::marker::Model;
use std::sync::ledger::Ledger;
use work_steps::Steps;

/// One look at a dart, of which a part is read where it is asked for: what isn't asked for costs nothing.
#[derive(Drop)]
pub struct Glimpse<'a> {
    records: &'a Records,
    dart: DartId,
}

impl<'a> Model for Glimpse<'a> {
    ghost use Rattle.counted_looks.specs.declared.glance.Looked.{Looked};

    ghost Value = { Looked };

    ghost use Rattle.slab_laws.specs.View.{HasDart};
    ghost use Rattle.counted_looks.specs.Looks.{looked_at};

    ghost view = { λ g. looked_at g.records.now.graph g.dart };

    ghost invariant = { λ g. HasDart g.records.now.graph g.dart };
}

impl<'a> Glimpse<'a> {
    // A look at a dart of these records, which is one step.
    #[inline(always)]
    pub(crate) fn at<L: Ledger>(
        records: &'a Records,
        dart: DartId,
        steps: &mut Steps<L>,
    ) -> Glimpse<'a>
        requires { HasDart records.now.graph dart }
        ensures look { IsLookOf records.now.graph (Edge dart) result }
        ensures one { steps.new ≡ steps.old + 1 }
    {
        steps.tick();
        Glimpse { records, dart }
    }

    /// The point that the dart leaves.
    pub fn source(&self) -> Point
        ensures { result ≡ self.now.source }
    {
        // The source of a dart has a record.
        self.records.laws();
        self.records.point(Darts::source(self.records, self.dart))
    }

    /// The point that the dart reaches.
    pub fn target(&self) -> Point
        ensures { result ≡ self.now.target }
    {
        // Twins are twins, and the source of a dart has a record.
        self.records.laws();
        self.records.point(Darts::target(self.records, self.dart))
    }

    /// The whole parts of the point that the dart leaves. No vertex is read.
    #[inline(always)]
    pub fn source_parts(&self) -> WholeParts
        ensures { result ≡ whole_parts self.now.source }
    {
        self.records.source_parts(self.dart)
    }

    /// The whole parts of the point that the dart reaches. No vertex is read.
    #[inline(always)]
    pub fn target_parts(&self) -> WholeParts
        ensures { result ≡ whole_parts self.now.target }
    {
        self.records.target_parts(self.dart)
    }

    /// Whether both ends are to the left of a place, or both to its right, by whole parts. No vertex is read.
    #[inline(always)]
    pub fn is_left_or_right_of(&self, at: WholeParts) -> bool
        ensures { result ≡ is_left_or_right_of at (whole_parts self.now.source) (whole_parts self.now.target) }
    {
        at.is_left_or_right_of(
            self.records.source_parts(self.dart),
            self.records.target_parts(self.dart),
        )
    }

    /// Whether both ends are below a place, or both above it, by whole parts. No vertex is read.
    #[inline(always)]
    pub fn is_above_or_below(&self, at: WholeParts) -> bool
        ensures { result ≡ is_above_or_below at (whole_parts self.now.source) (whole_parts self.now.target) }
    {
        at.is_above_or_below(
            self.records.source_parts(self.dart),
            self.records.target_parts(self.dart),
        )
    }

    /// Whether both ends are beyond one side of a box, by whole parts. No vertex is read.
    #[inline(always)]
    pub fn is_outside(&self, bounds: &BoundingBox) -> bool
        ensures { result ≡ excludes bounds.now (whole_parts self.now.source) (whole_parts self.now.target) }
    {
        bounds.excludes(
            self.records.source_parts(self.dart),
            self.records.target_parts(self.dart),
        )
    }

    /// The line of the dart's edge.
    pub fn line(&self) -> Line
        ensures { self.now.line ≡ Some result }
    {
        self.records.line(self.dart)
    }
}
