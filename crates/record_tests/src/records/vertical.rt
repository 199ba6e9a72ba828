// What lies directly above and below each vertex of a layer.

ghost use Rattle.arrangement.specs.Arranged.{arranged, IsWatched};

use crate::records::squares::{at, draw, nothing};
use crate::shapes::Ends;
use arrangement::Arrangement;
use dcel_records::Records;
use exact_plane::Point;
use itoa::{Buffer, Integer};
use no_memory::NoMemory;
use slab_laws::{DartId, VertexId};
use std::alloc::Global;
use std::test::Fail;
use vertical_parts::{Next, Part};

struct Case {
    name: &'static str,
    segments: &'static [Ends],
    pins: &'static [(i64, i64)],
    /// A line for each vertex: its point, and what is next above and below it. By the definition, worked out by hand.
    parts: &'static [u8],
}

const CASES: [Case; 6] = [
    Case {
        name: "nothing",
        segments: &[],
        pins: &[],
        parts: b"",
    },
    Case {
        name: "a pin above a segment, and one below it",
        segments: &[(0, 0, 4, 0)],
        pins: &[(2, 3), (2, -1)],
        parts: b"\
            v 0 0 1 above none below none\n\
            v 2 -1 1 above edge 0 0 1 4 0 1 below none\n\
            v 2 3 1 above none below edge 0 0 1 4 0 1\n\
            v 4 0 1 above none below none\n",
    },
    Case {
        name: "a vertical segment",
        segments: &[(1, 0, 1, 2)],
        pins: &[],
        parts: b"\
            v 1 0 1 above edge 1 0 1 1 2 1 below none\n\
            v 1 2 1 above none below edge 1 0 1 1 2 1\n",
    },
    Case {
        name: "one vertical segment on another one, and pins beyond",
        segments: &[(1, 0, 1, 2), (1, 2, 1, 5)],
        pins: &[(1, -3), (1, 9)],
        parts: b"\
            v 1 -3 1 above vertex 1 0 1 below none\n\
            v 1 0 1 above edge 1 0 1 1 2 1 below vertex 1 -3 1\n\
            v 1 2 1 above edge 1 2 1 1 5 1 below edge 1 0 1 1 2 1\n\
            v 1 5 1 above vertex 1 9 1 below edge 1 2 1 1 5 1\n\
            v 1 9 1 above none below vertex 1 5 1\n",
    },
    Case {
        name: "segments that pass a wall with vertices between them",
        segments: &[(0, 0, 4, 0), (0, 4, 4, 4), (2, 1, 2, 3)],
        pins: &[(2, -2), (2, -1), (2, 5), (2, 6)],
        parts: b"\
            v 0 0 1 above vertex 0 4 1 below none\n\
            v 0 4 1 above none below vertex 0 0 1\n\
            v 2 -2 1 above vertex 2 -1 1 below none\n\
            v 2 -1 1 above edge 0 0 1 4 0 1 below vertex 2 -2 1\n\
            v 2 1 1 above edge 2 1 1 2 3 1 below edge 0 0 1 4 0 1\n\
            v 2 3 1 above edge 0 4 1 4 4 1 below edge 2 1 1 2 3 1\n\
            v 2 5 1 above vertex 2 6 1 below edge 0 4 1 4 4 1\n\
            v 2 6 1 above none below vertex 2 5 1\n\
            v 4 0 1 above vertex 4 4 1 below none\n\
            v 4 4 1 above none below vertex 4 0 1\n",
    },
    Case {
        name: "a crossing at a half, below a segment",
        segments: &[(0, 0, 1, 1), (0, 1, 1, 0), (-1, 3, 2, 3)],
        pins: &[],
        parts: b"\
            v -1 3 1 above none below none\n\
            v 0 0 1 above vertex 0 1 1 below none\n\
            v 0 1 1 above edge -1 3 1 2 3 1 below vertex 0 0 1\n\
            v 1 1 2 above edge -1 3 1 2 3 1 below none\n\
            v 1 0 1 above vertex 1 1 1 below none\n\
            v 1 1 1 above edge -1 3 1 2 3 1 below vertex 1 0 1\n\
            v 2 3 1 above none below none\n",
    },
];

pub(crate) fn write_number<I: Integer>(text: &mut Vec<u8>, number: I) -> Result<(), NoMemory> {
    let mut buffer = Buffer::new();
    text.push(b' ')?;
    text.extend_from_slice(buffer.format(number).as_bytes())?;
    Ok(())
}

fn write_point(text: &mut Vec<u8>, point: &Point) -> Result<(), NoMemory> {
    write_number(text, point.x())?;
    write_number(text, point.y())?;
    write_number(text, point.w())
}

pub(crate) fn write_vertex(
    text: &mut Vec<u8>,
    records: &Records,
    vertex: VertexId,
) -> Result<(), NoMemory> {
    match records.point_of(vertex) {
        Some(point) => write_point(text, &point),
        None => Ok(()),
    }
}

pub(crate) fn write_ends(
    text: &mut Vec<u8>,
    records: &Records,
    dart: DartId,
) -> Result<(), NoMemory> {
    let Some((from, to)) = records.ends_of(dart) else {
        return Ok(());
    };
    write_vertex(text, records, from)?;
    write_vertex(text, records, to)
}

fn write_next(text: &mut Vec<u8>, records: &Records, next: Next) -> Result<(), NoMemory> {
    match next {
        Next::Vertex(vertex) => {
            text.extend_from_slice(b" vertex")?;
            write_vertex(text, records, vertex)
        }
        Next::Edge(dart) => {
            text.extend_from_slice(b" edge")?;
            write_ends(text, records, dart)
        }
        Next::Open => {
            text.extend_from_slice(b" none")?;
            Ok(())
        }
    }
}

fn write_part(text: &mut Vec<u8>, records: &Records, part: &Part) -> Result<(), NoMemory> {
    text.push(b'v')?;
    write_vertex(text, records, part.vertex)?;
    text.extend_from_slice(b" above")?;
    write_next(text, records, part.above)?;
    text.extend_from_slice(b" below")?;
    write_next(text, records, part.below)?;
    text.push(b'\n')?;
    Ok(())
}

fn parts_text(alloc: Global, layer: &Arrangement) -> Result<Vec<u8>, NoMemory> {
    let found = layer.vertical_parts()?;
    let mut text = Vec::new(alloc);
    for part in &found {
        write_part(&mut text, layer.records(), part)?;
    }
    Ok(text)
}

fn draw_case(layer: &mut Arrangement, case: &Case)
    requires watched { IsWatched (arranged Observer-dyn layer.old) }
    ensures watched { IsWatched (arranged Observer-dyn layer.new) }
{
    'segments: for ends in case.segments {
        draw(layer, *ends);
    }
}

fn pin_at(layer: &mut Arrangement, x: i64, y: i64)
    requires watched { IsWatched (arranged Observer-dyn layer.old) }
    ensures watched { IsWatched (arranged Observer-dyn layer.new) }
{
    if let Some(point) = at(x, y) {
        let _ = layer.pin(&point);
    }
}

fn pin_case(layer: &mut Arrangement, case: &Case)
    requires watched { IsWatched (arranged Observer-dyn layer.old) }
{
    'pins: for (x, y) in case.pins {
        pin_at(layer, *x, *y);
    }
}

fn found_in(alloc: Global, case: &Case) -> Result<Vec<u8>, NoMemory> {
    let mut layer = nothing(alloc)?;
    draw_case(&mut layer, case);
    pin_case(&mut layer, case);
    let text = parts_text(alloc, &layer);
    drop(layer);
    text
}

// The name of the first case whose parts are others.
fn first_wrong(alloc: Global, cases: &[Case]) -> Result<Option<&'static str>, NoMemory> {
    for case in cases {
        if found_in(alloc, case)?.as_slice() != case.parts {
            return Ok(Some(case.name));
        }
    }
    Ok(None)
}

#[test]
fn what_is_above_and_below_each_vertex(rt: HostRuntime) -> Result<(), Fail> {
    assert_eq!(rt; first_wrong(rt.alloc(), &CASES)?, None);
    Ok(())
}
