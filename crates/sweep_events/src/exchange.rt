ghost use Rattle.std.specs.Prelude.{◌≡◌, ◌≤◌, ◌+◌, length, IfOk, slice_get};
ghost use Rattle.exact_plane.specs.Point.{IsPoint};
ghost use Rattle.sweep_events.specs.Begun.{IsCutBefore};
ghost use Rattle.sweep_events.specs.Places.{piece_at, AreSpans};
ghost use Rattle.sweep_events.specs.Starts.{AreStarts};
ghost use Rattle.sweep_events.specs.Status.{IsWaiting};
ghost use Rattle.sweep_events.specs.Sweep.{IsEventAt};
ghost use Rattle.sweep_events.specs.Exchange.{IsExchangeAt, exchanged};

use crate::places::{
    PlacedLine, Start, count_below, count_upto, fill_places, parted_at, sort_by_slope, starts_at,
};
use exact_plane::{Point, Span};
use no_memory::NoMemory;
use slab_laws::Sequence;
use std::alloc::Global;

// What an event makes of the status: the pieces through it, which stand from `low` up to `high`, go, and those of a run come, which
// then stand from `low` up to `top`.
#[derive(Drop)]
pub(crate) struct Exchange {
    pub(crate) ends: Sequence<usize>,
    pub(crate) starts: Sequence<usize>,
    pub(crate) passes: Sequence<usize>,
    pub(crate) low: usize,
    pub(crate) high: usize,
    pub(crate) top: usize,
}

// The run is written over what a list had; another one has room for the lines.
pub(crate) fn exchange_at(
    alloc: Global,
    run: &mut Vec<usize>,
    lines: &mut Vec<PlacedLine>,
    pieces: &[Span],
    starts: &[Start],
    begun: usize,
    status: &[usize],
    point: &Point,
) -> Result<Exchange, NoMemory>
    requires spans { AreSpans pieces.now }
    requires point { IsPoint point.now }
    requires starts { AreStarts pieces.now starts.now }
    requires begun { IsCutBefore starts.now point.now begun }
    requires waits { IsWaiting (piece_at pieces.now) (length pieces.now) point.now status.now }
    ensures in_turn { IfOk result (λ t. t.low ≤ t.high) }
    ensures in_bounds { IfOk result (λ t. t.high ≤ length status.now) }
    ensures exchange { IfOk result (λ t. IsExchangeAt pieces.now point.now status.now t run.new.items) }
    ensures event { IfOk result (λ t. IsEventAt pieces.now point.now t.ends t.starts t.passes) }
{
    let low = count_below(pieces, status, point);
    let high = count_upto(pieces, status, point, low);
    let (_, rest) = status.split_at(low);
    let (through, _) = rest.split_at(high - low);
    let (ends, passes) = parted_at(alloc, run, pieces, through, point)?;
    let begun = starts_at(alloc, starts, begun, point)?;
    sort_by_slope(lines, pieces, passes.as_slice(), begun.as_slice())?;
    fill_places(run, lines)?;
    let top = low + run.len();
    Ok(Exchange {
        ends,
        starts: begun,
        passes,
        low,
        high,
        top,
    })
}

// The place that is to stand at an index of the status.
pub(crate) fn place_after(
    status: &[usize],
    exchange: &Exchange,
    run: &[usize],
    index: usize,
) -> Option<usize>
    requires in_turn { exchange.now.low ≤ exchange.now.high }
    requires in_bounds { exchange.now.high ≤ length status.now }
    ensures { result ≡ slice_get (exchanged status.now exchange.now run.now) index }
{
    if index < exchange.low {
        return Some(status[index]);
    }
    let (_, above) = status.split_at(exchange.high);
    let further = index - exchange.low;
    if further < run.len() {
        return Some(run[further]);
    }
    let place = above.get(further - run.len())?;
    Some(*place)
}
