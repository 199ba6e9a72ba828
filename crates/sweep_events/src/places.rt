ghost use Rattle.std.specs.Prelude.{◌≡◌, ◌≤◌, ◌+◌, ◌++◌, ℕ, ◌<◌, length, map, drop, filter, not, IfOk, OnOk};
ghost use Rattle.std.specs.List.{prefix_len};
ghost use Rattle.std.specs.List.Sorted.{IsPartitionedBy};
ghost use Rattle.std.specs.Ordering.{nat_cmp, is_le};
ghost use Rattle.exact_plane.specs.PointOrder.{point_cmp};
ghost use Rattle.exact_plane.specs.Point.{IsPoint};
ghost use Rattle.plane_graphs.specs.Ascending.{ascending, Member, IsAscending};
ghost use Rattle.sweep_events.specs.Places.{piece_at, is_below, is_upto, IsCutBelow, IsCutUpto, AreSpans, ArePlaces, ArePlacesOfBoth};
ghost use Rattle.sweep_events.specs.Status.{waiting_cmp, run_cmp};
ghost use Rattle.sweep_events.specs.Begun.{IsCutBefore};
ghost use Rattle.sweep_events.specs.Starts.{AreStarts, AreStartingAt};
ghost use Rattle.sweep_events.specs.Runs.{placed_line_cmp, placed_line, line_places, ends_there, ending_of, others_of};

use exact_plane::{Line, Point, Sign, Span, side, slope_order};
use no_memory::NoMemory;
use slab_laws::Sequence;
use std::alloc::Global;
use std::cmp::Ordering;

// A piece that begins somewhere.
#[derive(Clone, Copy, PartialEq, Eq, PartialOrd, Ord)]
pub(crate) struct Start {
    pub(crate) lower: Point,
    pub(crate) place: usize,
}

// The line of a piece, with its place.
#[derive(Clone, Copy)]
pub(crate) struct PlacedLine {
    pub(crate) line: Line,
    pub(crate) place: usize,
}

// The piece at a place.
pub(crate) fn at_place(pieces: &[Span], place: usize) -> &Span
    requires { place < length pieces.now }
    ensures { result.now ≡ piece_at pieces.now place }
{
    &pieces[place]
}

// Whether the piece passes below the point.
pub(crate) fn passes_below(pieces: &[Span], place: usize, point: &Point) -> bool
    ensures { result ≡ is_below pieces.now point.now place }
{
    match pieces.get(place) {
        Some(piece) => side(&piece.line(), point) == Sign::Plus,
        None => false,
    }
}

// Whether the piece passes below the point or through it.
pub(crate) fn passes_upto(pieces: &[Span], place: usize, point: &Point) -> bool
    ensures { result ≡ is_upto pieces.now point.now place }
{
    match pieces.get(place) {
        Some(piece) => side(&piece.line(), point) != Sign::Minus,
        None => true,
    }
}

// How many pieces of a list pass below the point, where they stand before all others.
pub(crate) fn count_below(pieces: &[Span], status: &[usize], point: &Point) -> usize
    requires { IsPartitionedBy (is_below pieces.now point.now) status.now }
    ensures bound { result ≤ length status.now }
    ensures cut { IsCutBelow pieces.now point.now status.now result }
{
    status.partition_point(|place| passes_below(pieces, *place, point))
}

// How many of them stand first and pass below it or through it.
fn count_through(pieces: &[Span], places: &[usize], point: &Point) -> usize
    ensures { result ≡ prefix_len (is_upto pieces.now point.now) places.now }
{
    places
        .iter()
        .take_while(|place| passes_upto(pieces, **place, point))
        .count()
}

// How many pass below it or through it, where those that pass below it are known. Few pass through it, so that they are met one by
// one.
pub(crate) fn count_upto(pieces: &[Span], status: &[usize], point: &Point, below: usize) -> usize
    requires known { below ≤ length status.now }
    requires below { IsCutBelow pieces.now point.now status.now below }
    requires spans { AreSpans pieces.now }
    requires places { ArePlaces pieces.now status.now }
    requires waits { IsAscending (waiting_cmp (piece_at pieces.now) point.now) status.now }
    ensures bound { result ≤ length status.now }
    ensures cut { IsCutUpto pieces.now point.now status.now result }
{
    let (_, rest) = status.split_at(below);
    below + count_through(pieces, rest, point)
}

// All pieces by their lower ends.
pub(crate) fn starts_of(alloc: Global, pieces: &[Span]) -> Result<Vec<Start>, NoMemory>
    ensures starts { IfOk result (λ v. AreStarts pieces.now v.items) }
    ensures spans { OnOk result (AreSpans pieces.now) }
{
    let mut starts = Vec::new(alloc);
    for piece in pieces {
        starts.push(Start {
            lower: piece.lower(),
            place: starts.len(),
        })?;
    }
    starts.sort_unstable();
    Ok(starts)
}

// Whether the piece starts before the point, or there.
fn starts_upto(start: &Start, point: &Point) -> bool
    ensures { result ≡ is_le (point_cmp start.now.lower point.now) }
{
    start.lower <= *point
}

// How many of them stand first and start no later than the point. Few do, so that they are met one by one.
fn count_starting(starts: &[Start], point: &Point) -> usize
    ensures { result ≡ prefix_len (λ s. is_le (point_cmp s.lower point.now)) starts.now }
{
    starts
        .iter()
        .take_while(|start| starts_upto(start, point))
        .count()
}

// How many start no later than the point, where so many, the first ones, have begun before.
pub(crate) fn count_begun(starts: &[Start], begun: usize, point: &Point) -> usize
    requires { begun ≤ length starts.now }
    ensures { result ≡ begun + prefix_len (λ s. is_le (point_cmp s.lower point.now)) (drop begun starts.now) }
{
    let (_, rest) = starts.split_at(begun);
    begun + count_starting(rest, point)
}

// The places of the pieces that start at the point, where so many, the first ones, start before it.
pub(crate) fn starts_at(
    alloc: Global,
    starts: &[Start],
    begun: usize,
    point: &Point,
) -> Result<Sequence<usize>, NoMemory>
    requires { IsCutBefore starts.now point.now begun }
    ensures { IfOk result (λ v. AreStartingAt starts.now point.now v) }
{
    let (_, rest) = starts.split_at(begun);
    let (here, _) = rest.split_at(count_starting(rest, point));
    let mut places = Sequence::new(alloc);
    for start in here {
        places.push(start.place)?;
    }
    Ok(places)
}

// The places in ascending order, each once.
fn arrange(places: &mut Vec<usize>)
    ensures { places.new.items ≡ ascending nat_cmp places.old.items }
{
    places.sort_unstable();
    places.dedup();
}

// Whether the piece ends at the point.
fn is_ended(pieces: &[Span], place: usize, point: &Point) -> bool
    ensures { result ≡ ends_there pieces.now point.now place }
{
    match pieces.get(place) {
        Some(piece) => piece.upper() == *point,
        None => false,
    }
}

// Those of the places whose pieces end at the point, and those whose pieces don't.
fn part(
    alloc: Global,
    pieces: &[Span],
    places: &[usize],
    point: &Point,
) -> Result<(Sequence<usize>, Sequence<usize>), NoMemory>
    requires { IsPoint point.now }
    ensures ends { IfOk result (λ both. both.0 ≡ filter (ends_there pieces.now point.now) places.now) }
    ensures others { IfOk result (λ both. both.1 ≡ filter (λ i. not (ends_there pieces.now point.now i)) places.now) }
{
    let (mut ends, mut others) = (Sequence::new(alloc), Sequence::new(alloc));
    for place in places {
        if is_ended(pieces, *place, point) {
            ends.push(*place)?;
        } else {
            others.push(*place)?;
        }
    }
    Ok((ends, others))
}

// The same in ascending order, each once. A list has room for them.
pub(crate) fn parted_at(
    alloc: Global,
    room: &mut Vec<usize>,
    pieces: &[Span],
    through: &[usize],
    point: &Point,
) -> Result<(Sequence<usize>, Sequence<usize>), NoMemory>
    requires { IsPoint point.now }
    ensures ends { IfOk result (λ both. both.0 ≡ ending_of pieces.now point.now through.now) }
    ensures others { IfOk result (λ both. both.1 ≡ others_of pieces.now point.now through.now) }
{
    room.clear();
    room.extend_from_slice(through)?;
    arrange(room);
    part(alloc, pieces, room, point)
}

fn add_lines(lines: &mut Vec<PlacedLine>, pieces: &[Span], places: &[usize]) -> Result<(), NoMemory>
    requires { ArePlaces pieces.now places.now }
    ensures { OnOk result (lines.new.items ≡ lines.old.items ++ map (placed_line pieces.now) places.now) }
{
    for place in places {
        lines.push(PlacedLine {
            line: at_place(pieces, *place).line(),
            place: *place,
        })?;
    }
    Ok(())
}

fn line_order(first: &PlacedLine, second: &PlacedLine) -> Ordering
    ensures { result ≡ placed_line_cmp first.now second.now }
{
    slope_order(&first.line, &second.line).then(first.place.cmp(&second.place))
}

// Makes a list that of the pieces by their slopes, those of one slope by place.
pub(crate) fn sort_by_slope(
    lines: &mut Vec<PlacedLine>,
    pieces: &[Span],
    passes: &[usize],
    starts: &[usize],
) -> Result<(), NoMemory>
    requires passes { ArePlaces pieces.now passes.now }
    requires starts { ArePlaces pieces.now starts.now }
    requires spans { AreSpans pieces.now }
    requires passes_ascend { IsAscending nat_cmp passes.now }
    requires starts_ascend { IsAscending nat_cmp starts.now }
    requires apart { (i : ℕ) → Member i passes.now → Member i starts.now → ⊥ }
    ensures places { OnOk result (ArePlacesOfBoth passes.now starts.now (line_places lines.new.items)) }
    ensures sloped { OnOk result (IsAscending (run_cmp (piece_at pieces.now)) (line_places lines.new.items)) }
{
    lines.clear();
    add_lines(lines, pieces, passes)?;
    add_lines(lines, pieces, starts)?;
    lines.sort_unstable_by(|first, second| line_order(first, second));
    Ok(())
}

// Makes a list that of their places.
pub(crate) fn fill_places(places: &mut Vec<usize>, lines: &[PlacedLine]) -> Result<(), NoMemory>
    ensures { OnOk result (places.new.items ≡ line_places lines.now) }
{
    places.clear();
    for line in lines {
        places.push(line.place)?;
    }
    Ok(())
}
