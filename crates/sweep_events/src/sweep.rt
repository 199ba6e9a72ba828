ghost use Rattle.std.specs.Prelude.{◌≡◌, ◌↔◌, ◌<◌, ◌≤◌, [], Some, None, IfOk, OnOk, OnErr, IfSome, IfNone, length};
ghost use Rattle.exact_plane.specs.Point.{Point};
ghost use Rattle.exact_plane.specs.Span.{Span, IsAtMost};
ghost use Rattle.plane_graphs.specs.Ascending.{Member, IsAscending};
ghost use Rattle.sweep_events.specs.Begun.{queue_of, IsFirstOf, IsPassed};
ghost use Rattle.sweep_events.specs.Starts.{start_cmp};
ghost use Rattle.sweep_events.specs.Events.{AreMeeting};
ghost use Rattle.sweep_events.specs.EventList.{events_left};
ghost use Rattle.sweep_events.specs.Exchange.{exchanged};
ghost use Rattle.sweep_events.specs.Places.{ArePlaces, AreSpans};
ghost use Rattle.sweep_events.specs.Seams.{IsGrown, AreThere, MeetAt, MeetBelowRun, MeetAboveRun, MeetAtRun};
ghost use Rattle.sweep_events.specs.Sweep.{Swept, IsNextEvent, IsOver, HasStatus, HasSlab};
ghost use Rattle.sweep_events.specs.Below.{IsBelowLast};
ghost use Rattle.sweep_events.specs.FirstQueue.{HasEnds, HasPins};

use crate::event::Event;
use crate::exchange::{Exchange, exchange_at, place_after};
use crate::places::{PlacedLine, Start, at_place, count_begun, starts_of};
use exact_plane::{Meet, Point, Span, span_meeting};
use no_memory::NoMemory;
use std::alloc::Global;
use std::collections::BTreeSet;
use std::marker::Model;
use sweep_status::replace;

/// A sweep over pieces and pins, from left to right and, on one abscissa, from below.
///
/// Contracts see the pieces and pins, the last event, and the status (`Swept`). It keeps copies of both lists; pieces are told by
/// their places in the list that was given, of which there may be any number.
#[derive(Drop)]
pub struct Sweep {
    alloc: Global,
    pieces: Vec<Span>,
    pins: Vec<Point>,
    starts: Vec<Start>,
    queue: BTreeSet<Point>,
    status: Vec<usize>,
    last: Option<Point>,
    // How many of the starts, the first ones, are no later than the last event.
    begun: usize,
    // How many places of the status, the first ones, are of pieces that pass below the last event.
    below: usize,
    // Room for the run that an event brings, and for its lines, kept from one event to the next.
    run: Vec<usize>,
    lines: Vec<PlacedLine>,
}

impl Model for Sweep {
    ghost use Rattle.sweep_events.specs.Sweep.{Swept, swept, HasParts};

    ghost Value = { Swept };

    ghost view = { λ s. swept s.pieces.items s.pins.items s.last s.status.items };

    ghost invariant = { λ s.
        HasParts (swept s.pieces.items s.pins.items s.last s.status.items) s.starts.items s.queue.keys s.begun s.below };
}

// The common point of two pieces of different lines.
fn crossing(first: &Span, second: &Span) -> Option<Point>
    ensures { (r : Point) → (AreMeeting first.now second.now r ↔ (result ≡ Some r)) }
{
    if first.line() == second.line() {
        return None;
    }
    match span_meeting(first, second) {
        Meet::At(point) => Some(point),
        Meet::Apart | Meet::Along(_, _) => None,
    }
}

// Puts the meeting of two pieces into the queue where it comes after the point.
fn await_meeting(
    queue: &mut BTreeSet<Point>,
    first: &Span,
    second: &Span,
    point: &Point,
) -> Result<(), NoMemory>
    ensures grown { IsGrown (AreMeeting first.now second.now) point.now queue.old.keys queue.new.keys }
    ensures there { OnOk result (AreThere (AreMeeting first.now second.now) point.now queue.new.keys) }
{
    if let Some(meeting) = crossing(first, second) {
        if *point < meeting {
            queue.insert(meeting)?;
        }
    }
    Ok(())
}

// That of the two pieces that are to stand on either side of a seam of the status.
fn await_seam(
    queue: &mut BTreeSet<Point>,
    pieces: &[Span],
    status: &[usize],
    exchange: &Exchange,
    run: &[usize],
    seam: usize,
    point: &Point,
) -> Result<(), NoMemory>
    requires in_turn { exchange.now.low ≤ exchange.now.high }
    requires in_bounds { exchange.now.high ≤ length status.now }
    requires places { ArePlaces pieces.now (exchanged status.now exchange.now run.now) }
    ensures grown { IsGrown (MeetAt pieces.now status.now exchange.now run.now seam) point.now queue.old.keys queue.new.keys }
    ensures there { OnOk result (AreThere (MeetAt pieces.now status.now exchange.now run.now seam) point.now queue.new.keys) }
{
    if seam == 0 {
        return Ok(());
    }
    let Some(below) = place_after(status, exchange, run, seam - 1) else {
        return Ok(());
    };
    let Some(above) = place_after(status, exchange, run, seam) else {
        return Ok(());
    };
    await_meeting(
        queue,
        at_place(pieces, below),
        at_place(pieces, above),
        point,
    )
}

// Those at both seams.
fn await_seams(
    queue: &mut BTreeSet<Point>,
    pieces: &[Span],
    status: &[usize],
    exchange: &Exchange,
    run: &[usize],
    point: &Point,
) -> Result<(), NoMemory>
    requires in_turn { exchange.now.low ≤ exchange.now.high }
    requires in_bounds { exchange.now.high ≤ length status.now }
    requires places { ArePlaces pieces.now (exchanged status.now exchange.now run.now) }
    ensures grown { IsGrown (MeetAtRun pieces.now status.now exchange.now run.now) point.now queue.old.keys queue.new.keys }
    ensures first { OnOk result (AreThere (MeetBelowRun pieces.now status.now exchange.now run.now) point.now queue.new.keys) }
    ensures second { OnOk result (AreThere (MeetAboveRun pieces.now status.now exchange.now run.now) point.now queue.new.keys) }
{
    await_seam(queue, pieces, status, exchange, run, exchange.low, point)?;
    await_seam(queue, pieces, status, exchange, run, exchange.top, point)
}

// Puts the upper end of each piece into the queue. The lower ends stand in their order elsewhere.
fn add_ends(queue: &mut BTreeSet<Point>, pieces: &[Span]) -> Result<(), NoMemory>
    ensures { OnOk result (HasEnds pieces.now (length pieces.now) queue.old.keys queue.new.keys) }
{
    for piece in pieces {
        queue.insert(piece.upper())?;
    }
    Ok(())
}

// The first point of a queue.
fn first_of(queue: &BTreeSet<Point>) -> Option<Point>
    ensures some { IfSome result (λ q. IsFirstOf q queue.now.keys) }
    ensures none { IfNone result (queue.now.keys ≡ []) }
{
    let Some(first) = queue.first() else {
        return None;
    };
    Some(*first)
}

// The first of the points in a queue and the lower ends of all pieces but so many.
fn next_point(queue: &BTreeSet<Point>, starts: &[Start], begun: usize) -> Option<Point>
    requires { IsAscending start_cmp starts.now }
    ensures some { IfSome result (λ q. IsFirstOf q (queue_of queue.now.keys starts.now begun)) }
    ensures none { IfNone result (queue_of queue.now.keys starts.now begun ≡ []) }
{
    let Some(start) = starts.get(begun) else {
        return first_of(queue);
    };
    let Some(point) = first_of(queue) else {
        return Some(start.lower);
    };
    if point < start.lower {
        return Some(point);
    }
    Some(start.lower)
}

// Takes a point out of a queue, where it is the first one, and no point of the queue comes before it.
fn pass(queue: &mut BTreeSet<Point>, point: &Point)
    requires { (r : Point) → Member r queue.old.keys → IsAtMost point.now r }
    ensures { IsPassed point.now queue.old.keys queue.new.keys }
{
    let Some(first) = first_of(queue) else {
        return;
    };
    if *point < first {
        return;
    }
    let _ = queue.pop_first();
}

// Puts the pins into the queue.
fn add_pins(queue: &mut BTreeSet<Point>, pins: &[Point]) -> Result<(), NoMemory>
    ensures { OnOk result (HasPins pins.now (length pins.now) queue.old.keys queue.new.keys) }
{
    for pin in pins {
        pin.laws();
        queue.insert(*pin)?;
    }
    Ok(())
}

impl Sweep {
    /// A sweep that is before its first event. Pieces may overlap, and pins may stand twice.
    ///
    /// # Errors
    ///
    /// There was no memory.
    pub fn new(alloc: Global, pieces: &[Span], pins: &[Point]) -> Result<Sweep, NoMemory>
        ensures starts { IfOk result (λ s. s ≡ record { pieces = pieces.now; pins = pins.now; last = None; status = [] }) }
        ensures spans { OnOk result (AreSpans pieces.now) }
    {
        let mut kept = Vec::new(alloc);
        kept.extend_from_slice(pieces)?;
        let mut kept_pins = Vec::new(alloc);
        kept_pins.extend_from_slice(pins)?;
        let mut queue = BTreeSet::new(alloc);
        add_ends(&mut queue, pieces)?;
        add_pins(&mut queue, pins)?;
        let starts = starts_of(alloc, pieces)?;
        Ok(Sweep {
            alloc,
            pieces: kept,
            pins: kept_pins,
            starts,
            queue,
            status: Vec::new(alloc),
            last: None,
            begun: 0,
            below: 0,
            run: Vec::new(alloc),
            lines: Vec::new(alloc),
        })
    }

    /// The next event, with the pieces that end, start and pass there; `None` where none is left. The events are the vertices of the
    /// arrangement (`events_are_vertices`), each once, in the order of points.
    ///
    /// # Errors
    ///
    /// There was no memory. The sweep is as it was, and may be asked again.
    pub fn next_event(&mut self) -> Result<Option<Event>, NoMemory>
        ensures next { IfOk result (λ o. IfSome o (λ e. IsNextEvent self.old e)) }
        ensures moves { IfOk result (λ o. IfSome o (λ e. self.new.last ≡ Some e.point)) }
        ensures falls { IfOk result (λ o. IfSome o (λ _. events_left self.new < events_left self.old)) }
        ensures none { IfOk result (λ o. IfNone o (IsOver self.old × (self.new ≡ self.old))) }
        ensures stays { (self.new.pieces ≡ self.old.pieces) × (self.new.pins ≡ self.old.pins) }
        ensures err { OnErr result (self.new ≡ self.old) }
    {
        let Some(point) = next_point(&self.queue, &self.starts, self.begun) else {
            return Ok(None);
        };
        let exchange = exchange_at(
            self.alloc,
            &mut self.run,
            &mut self.lines,
            &self.pieces,
            &self.starts,
            self.begun,
            &self.status,
            &point,
        )?;
        await_seams(
            &mut self.queue,
            &self.pieces,
            &self.status,
            &exchange,
            &self.run,
            &point,
        )?;
        replace(&mut self.status, exchange.low, exchange.high, &self.run)?;
        pass(&mut self.queue, &point);
        self.begun = count_begun(&self.starts, self.begun, &point);
        self.last = Some(point);
        self.below = exchange.low;
        Ok(Some(Event {
            point,
            ends: exchange.ends,
            starts: exchange.starts,
            passes: exchange.passes,
        }))
    }

    /// The places of the pieces that the sweep meets just after its last event, from bottom to top, those of one line side by side
    /// in order of place. After the last event of an abscissa they are the pieces that span the slab on the right
    /// (`edges_of_status`).
    pub fn status(&self) -> &[usize]
        ensures places { result.now ≡ self.now.status }
        ensures status { HasStatus self.now }
        ensures slab { HasSlab self.now }
    {
        &self.status
    }

    /// The place of the piece directly below the last event: the highest of those that the sweep meets strictly below it. `None`
    /// where there is none, and before the first event.
    pub fn below(&self) -> Option<usize>
        ensures { IsBelowLast self.now result }
    {
        if self.below == 0 {
            return None;
        }
        Some(self.status[self.below - 1])
    }
}
