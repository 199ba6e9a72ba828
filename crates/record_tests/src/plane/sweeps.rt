use crate::plane::cases::{Case, SLANTED, UPRIGHT};
use crate::shapes::{At, Ends, point, segment, write_number, write_point};
use exact_plane::{Point, Segment, Span, line_of};
use no_memory::NoMemory;
use std::alloc::Global;
use std::test::Fail;
use sweep_events::{Event, Sweep};

// The span of a whole segment.
fn whole(segment: &Segment) -> Option<Span> {
    Span::new(segment.lower(), segment.upper(), line_of(segment))
}

fn spans_of(alloc: Global, segments: &[Ends]) -> Result<Vec<Span>, Fail> {
    let mut spans = Vec::new(alloc);
    for ends in segments {
        if let Some(span) = whole(&segment(*ends)?) {
            spans.push(span)?;
        }
    }
    Ok(spans)
}

fn points_of(alloc: Global, numbers: &[At]) -> Result<Vec<Point>, Fail> {
    let mut points = Vec::new(alloc);
    for at in numbers {
        points.push(point(*at)?)?;
    }
    Ok(points)
}

fn sweep_of(alloc: Global, case: &Case) -> Result<Sweep, Fail> {
    let pieces = spans_of(alloc, case.segments)?;
    let pins = points_of(alloc, case.pins)?;
    Ok(Sweep::new(alloc, &pieces, &pins)?)
}

fn write_pieces(text: &mut Vec<u8>, mark: &[u8], pieces: &[usize]) -> Result<(), NoMemory> {
    text.extend_from_slice(mark)?;
    for piece in pieces {
        write_number(text, *piece)?;
    }
    Ok(())
}

fn write_event(text: &mut Vec<u8>, event: &Event, status: &[usize]) -> Result<(), NoMemory> {
    write_point(text, &event.point)?;
    write_pieces(text, b"- ", event.ends.as_slice())?;
    write_pieces(text, b"+ ", event.starts.as_slice())?;
    write_pieces(text, b"* ", event.passes.as_slice())?;
    write_pieces(text, b": ", status)?;
    write_pieces(text, b"\n", &[])
}

// More than any case has.
const MANY: usize = 100;

fn write_events(text: &mut Vec<u8>, sweep: &mut Sweep) -> Result<(), NoMemory> {
    for _ in 0..MANY {
        match sweep.next_event()? {
            Some(event) => write_event(text, &event, sweep.status())?,
            None => return Ok(()),
        }
    }
    Ok(())
}

fn events_of(alloc: Global, case: &Case) -> Result<Vec<u8>, Fail> {
    let mut sweep = sweep_of(alloc, case)?;
    let mut text = Vec::new(alloc);
    let written = write_events(&mut text, &mut sweep);
    drop(sweep);
    written?;
    Ok(text)
}

fn is_right(alloc: Global, case: &Case) -> Result<bool, Fail> {
    let found = events_of(alloc, case)?;
    Ok(found.as_slice() == case.events)
}

// The name of the first case whose events are others.
fn first_wrong(alloc: Global, cases: &[Case]) -> Result<Option<&'static str>, Fail> {
    for case in cases {
        if !is_right(alloc, case)? {
            return Ok(Some(case.name));
        }
    }
    Ok(None)
}

#[test]
fn events_and_statuses_are_those_of_all_pairs(rt: HostRuntime) -> Result<(), Fail> {
    assert_eq!(rt; first_wrong(rt.alloc(), &SLANTED)?, None);
    Ok(())
}

#[test]
fn events_and_statuses_are_so_with_vertical_pieces(rt: HostRuntime) -> Result<(), Fail> {
    assert_eq!(rt; first_wrong(rt.alloc(), &UPRIGHT)?, None);
    Ok(())
}
