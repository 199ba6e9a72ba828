//! Looks at the records.
ghost use Rattle.std.specs.Prelude.{◌≡◌, ◌+◌};
ghost use Rattle.exact_plane.specs.Meet.{IsMeeting};
ghost use Rattle.exact_plane.specs.Point.{Point as Coordinates};
ghost use Rattle.exact_plane.specs.Sign.{sign_of};
ghost use Rattle.exact_plane.specs.Span.{IsSpan, span_of_segment};
ghost use Rattle.slab_laws.specs.Sound.{IsGraphSound};
ghost use Rattle.slab_laws.specs.View.{HasVertex, HasDart, point_in, source_in, target_in};
ghost use Rattle.zone_walk.specs.Sights.{IsVertexMet, span_in, is_on_span, side_from, other_side, degree};

use crate::sight::{Seen, Sight};
use counted_looks::{CycleGlimpse, Glance, Glimpse};
use dcel_records::{Records, Spot};
use exact_plane::{Direction, Meet, Point, Segment, Sign, Span, line_of, side, span_meeting};
use rotation_order::{Place, place_at};
use slab_laws::{CycleId, DartId, Darts, VertexId};
use sound_views::span_of;
use std::sync::ledger::Ledger;
use work_steps::Steps;

// The whole segment as a span.
pub(crate) fn whole(segment: &Segment) -> Span
    ensures { result ≡ span_of_segment segment.now }
{
    Span::between(segment.lower(), segment.upper(), line_of(segment))
}

// What the segment has in common with the edge of a dart, its ends included.
fn meet_of(records: &Records, dart: DartId, segment: &Segment) -> Meet
    requires sound { IsGraphSound records.now.graph }
    requires dart { HasDart records.now.graph dart }
    ensures { IsMeeting (span_of_segment segment.now) (span_in records.now.graph dart) result }
{
    let span = span_of(records, dart);
    span_meeting(&whole(segment), &span)
}

// A vertex's point, where a span has it.
fn point_at_vertex(records: &Records, vertex: VertexId, whole: &Span) -> Option<Point>
    requires { HasVertex records.now.graph vertex }
    ensures { IsVertexMet records.now.graph whole.now vertex result }
{
    let point = records.point(vertex);
    if lies_on(whole, &point) {
        Some(point)
    } else {
        None
    }
}

fn turned(side: Sign) -> Sign
    ensures { result ≡ other_side side }
{
    match side {
        Sign::Minus => Sign::Plus,
        Sign::Zero => Sign::Zero,
        Sign::Plus => Sign::Minus,
    }
}

// The side of a dart between two points on which a point is, and that its edge is a span.
fn side_of_dart(
    records: &Records,
    dart: DartId,
    source: &Point,
    target: &Point,
    point: &Point,
) -> Sign
    requires sound { IsGraphSound records.now.graph }
    requires dart { HasDart records.now.graph dart }
    requires source { source.now ≡ point_in records.now.graph (source_in records.now.graph dart) }
    requires target { target.now ≡ point_in records.now.graph (target_in records.now.graph dart) }
    ensures side { result ≡ sign_of (side_from records.now.graph dart point.now) }
    ensures span { IsSpan (span_in records.now.graph dart) }
{
    let line = records.line(dart);
    source.laws();
    target.laws();
    line.laws();
    let along = side(&line, point);
    if *source < *target {
        along
    } else {
        turned(along)
    }
}

// Whether a point lies on a span.
fn lies_on(whole: &Span, point: &Point) -> bool
    ensures { result ≡ is_on_span whole.now point.now }
{
    whole.line().holds(point) && (!(*point < whole.lower()) && !(whole.upper() < *point))
}

// One step for each dart out of the vertex.
fn count_round<L: Ledger>(records: &Records, vertex: VertexId, steps: &mut Steps<L>)
    requires sound { IsGraphSound records.now.graph }
    requires vertex { HasVertex records.now.graph vertex }
    ensures { steps.new ≡ steps.old + degree records.now.graph vertex }
{
    let Some(first) = records.out_of(vertex) else {
        return;
    };
    // The round begins just after the first dart, and so ends with it.
    let mut dart = records.next(records.twin(first));
    'ring: loop {
        steps.tick();
        if dart == first {
            return;
        }
        dart = records.next(records.twin(dart));
    }
}

impl Sight for Records {
    fn see<L: Ledger>(&self, at: Spot, segment: &Segment, steps: &mut Steps<L>) -> Seen {
        steps.tick();
        match at {
            Spot::Edge(dart) => {
                let source = self.point(Darts::source(self, dart));
                let target = self.point(Darts::target(self, dart));
                Seen {
                    meet: meet_of(self, dart, segment),
                    side: side_of_dart(self, dart, &source, &target, &segment.upper()),
                    source,
                    target,
                }
            }
            Spot::Vertex(vertex) => {
                let point = self.point(vertex);
                let meet = if lies_on(&whole(segment), &point) {
                    Meet::At(point)
                } else {
                    Meet::Apart
                };
                Seen {
                    meet,
                    side: Sign::Zero,
                    source: point,
                    target: point,
                }
            }
            Spot::Face(_) => unreachable!(),
        }
    }

    #[inline(always)]
    fn glimpse<L: Ledger>(&self, dart: DartId, steps: &mut Steps<L>) -> Glimpse<'_> {
        Glance::of(self).glimpse(dart, steps)
    }

    #[inline(always)]
    fn glimpse_cycle<L: Ledger>(&self, cycle: CycleId, steps: &mut Steps<L>) -> CycleGlimpse<'_> {
        Glance::of(self).glimpse_cycle(cycle, steps)
    }

    fn meet_at_vertex<L: Ledger>(
        &self,
        vertex: VertexId,
        whole: &Span,
        steps: &mut Steps<L>,
    ) -> Option<Point> {
        steps.tick();
        point_at_vertex(self, vertex, whole)
    }

    fn turn_to<L: Ledger>(
        &self,
        vertex: VertexId,
        direction: Direction,
        steps: &mut Steps<L>,
    ) -> Place {
        count_round(self, vertex, steps);
        place_at(self, vertex, direction)
    }

    fn turn<L: Ledger>(&self, vertex: VertexId, segment: &Segment, steps: &mut Steps<L>) -> Place {
        self.turn_to(vertex, Direction::along(&line_of(segment)), steps)
    }
}
