ghost use Rattle.std.specs.Prelude.{◌≡◌, ◌&&◌, not};
ghost use Rattle.exact_plane.specs.Line.{IsLine};
ghost use Rattle.exact_plane.specs.Segment.{line_of_segment};
ghost use Rattle.exact_plane.specs.WholeParts.{bounding_box, excludes, whole_parts};
ghost use Rattle.plane_graphs.specs.Line.{is_on as is_on_line, precedes};
ghost use Rattle.side_parts.specs.SideParts.{holds as holds_point};

use exact_plane::{BoundingBox, Line, Point, Segment, Span, line_of};
use std::marker::Model;

/// A side of a curve with its line and its box, each made once; contracts see the side.
#[derive(Drop)]
pub struct Side {
    segment: Segment,
    line: Line,
    bounds: BoundingBox,
}

impl Model for Side {
    ghost use Rattle.std.specs.Prelude.{◌≡◌};
    ghost use Rattle.exact_plane.specs.Segment.{Segment as Ends, line_of_segment};
    ghost use Rattle.exact_plane.specs.Span.{span_of_segment, IsSpan};
    ghost use Rattle.exact_plane.specs.WholeParts.{bounding_box};

    ghost Value = { Ends };

    ghost view = { λ s. s.segment };

    ghost invariant = { λ s. (s.line ≡ line_of_segment s.segment) × (s.bounds ≡ bounding_box (span_of_segment s.segment)) × IsSpan (span_of_segment s.segment) };
}

// Whether a point is on a line.
fn is_on(line: &Line, point: &Point) -> bool
    ensures { result ≡ is_on_line line.now point.now }
{
    line.holds(point)
}

fn comes_before(p: &Point, q: &Point) -> bool
    ensures { result ≡ precedes p.now q.now }
{
    *p < *q
}

// Whether a point is neither before the lower nor behind the upper end.
fn is_within(side: &Segment, point: &Point) -> bool
    ensures { result ≡ (not (precedes point.now side.now.lower) && not (precedes side.now.upper point.now)) }
{
    !comes_before(point, &side.lower()) && !comes_before(&side.upper(), point)
}

// Whether a point is beyond one side of a box.
fn is_outside(bounds: &BoundingBox, point: &Point) -> bool
    ensures { result ≡ excludes bounds.now (whole_parts point.now) (whole_parts point.now) }
{
    let parts = point.whole_parts();
    bounds.excludes(parts, parts)
}

impl Side {
    /// The side between the ends of a segment.
    pub fn of(segment: &Segment) -> Side
        ensures { result ≡ segment.now }
    {
        let line = line_of(segment);
        let span = Span::between(segment.lower(), segment.upper(), line);
        span.laws();
        Side {
            segment: *segment,
            line,
            bounds: BoundingBox::of(&span),
        }
    }

    /// The segment that it is.
    pub fn segment(&self) -> Segment
        ensures { result ≡ self.now }
    {
        self.segment
    }

    /// Its line, which runs from its lower to its upper end.
    pub fn line(&self) -> Line
        ensures value { result ≡ line_of_segment self.now }
        ensures line { IsLine result }
    {
        self.line.laws();
        self.line
    }

    /// Whether a point is on it. Of most points that aren't, its box tells.
    pub fn holds(&self, point: &Point) -> bool
        ensures { result ≡ holds_point self.now point.now }
    {
        // The weight of a point is positive.
        point.laws();
        if is_outside(&self.bounds, point) {
            return false;
        }
        is_on(&self.line, point) && is_within(&self.segment, point)
    }
}
