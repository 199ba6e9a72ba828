ghost use Rattle.std.specs.Prelude.{◌≡◌, ◌↔◌, IfSome, IsNone};
ghost use Rattle.exact_plane.specs.Span.{are_on_way, span_of_segment, AreOnWay, IsSpan};
ghost use Rattle.exact_plane.specs.SpanOf.{span_of};

use crate::line::{Line, line_of};
use crate::point::Point;
use crate::segment::Segment;
use std::marker::Model;

/// The part of a line between two of its points, which it includes.
#[derive(Clone, Copy)]
pub struct Span {
    pub(crate) lower: Point,
    pub(crate) upper: Point,
    pub(crate) line: Line,
}

impl Model for Span {
    ghost use Rattle.exact_plane.specs.Span.{Span as Ends, IsSpan};

    ghost Value = { Ends };

    ghost view = { λ s. record { lower = s.lower; upper = s.upper; line = s.line } };

    ghost invariant = { λ s. IsSpan (record { lower = s.lower; upper = s.upper; line = s.line }) };

    ghost inverse = { λ s. record { lower = s.lower; upper = s.upper; line = s.line } };
}

fn on_way(lower: &Point, upper: &Point, line: &Line) -> bool
    ensures { result ≡ are_on_way lower.now upper.now line.now }
{
    lower.cmp(upper).is_lt() && line.holds(lower) && line.holds(upper)
}

impl Span {
    /// The part of a line from its lower point to its upper point.
    ///
    /// `None` where the two don't ascend in point order, or one isn't on the line.
    pub fn new(lower: Point, upper: Point, line: Line) -> Option<Span>
        ensures value { result ≡ span_of lower upper line }
        ensures span { IfSome result (λ s. s ≡ record { lower = lower; upper = upper; line = line }) }
        ensures none { IsNone result ↔ ¬ AreOnWay lower upper line }
    {
        if !on_way(&lower, &upper, &line) {
            return None;
        }
        lower.laws();
        upper.laws();
        line.laws();
        Some(Span { lower, upper, line })
    }

    /// The part of a line between two of its points, which are known to be in order.
    pub fn between(lower: Point, upper: Point, line: Line) -> Span
        requires { AreOnWay lower upper line }
        ensures { result ≡ record { lower = lower; upper = upper; line = line } }
    {
        lower.laws();
        upper.laws();
        line.laws();
        Span { lower, upper, line }
    }

    /// What is true of all spans: the ends are two points of the line, in order.
    pub fn laws(&self)
        ensures { IsSpan self.now }
    {
        // Any use of a field tells what is kept.
        let _ = &self.line;
    }

    /// Its lesser end.
    pub fn lower(&self) -> Point
        ensures value { result ≡ self.now.lower }
        ensures span { IsSpan self.now }
    {
        self.lower
    }

    /// Its greater end.
    pub fn upper(&self) -> Point
        ensures { result ≡ self.now.upper }
    {
        self.upper
    }

    /// The line that it is a part of.
    pub fn line(&self) -> Line
        ensures { result ≡ self.now.line }
    {
        self.line
    }

    // All of a segment.
    pub(crate) fn of(segment: &Segment) -> Span
        ensures { result ≡ span_of_segment segment.now }
    {
        let lower = segment.lower();
        let upper = segment.upper();
        let line = line_of(segment);
        lower.laws();
        upper.laws();
        Span { lower, upper, line }
    }
}
