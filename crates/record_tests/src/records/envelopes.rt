// Lower and upper envelopes of what an arrangement draws, beside those that another program finds.

ghost use Rattle.std.specs.Prelude.{OnOk};
ghost use Rattle.arrangement.specs.Arranged.{arranged, IsWatched};
ghost use Rattle.dcel_records.specs.SoundMaps.{IsSoundMap};

use crate::records::envelope_cases::{CASES, Case};
use crate::records::squares::nothing;
use crate::shapes::{At, Ends, point, segment, write_point};
use arrangement::Arrangement;
use dcel_records::Records;
use lower_envelope::{Envelope, Which, envelope_of};
use no_memory::NoMemory;
use slab_laws::{DartId, VertexId};
use std::alloc::Global;
use std::test::Fail;

fn insert_all(layer: &mut Arrangement, segments: &[Ends]) -> Result<(), Fail>
    requires watched { IsWatched (arranged Observer-dyn layer.old) }
    ensures watched { OnOk result (IsWatched (arranged Observer-dyn layer.new)) }
{
    'segments: for ends in segments {
        layer.insert(segment(*ends)?)?;
    }
    Ok(())
}

fn pin_all(layer: &mut Arrangement, pins: &[At]) -> Result<(), Fail>
    requires watched { IsWatched (arranged Observer-dyn layer.old) }
    ensures watched { OnOk result (IsWatched (arranged Observer-dyn layer.new)) }
{
    'pins: for at in pins {
        layer.pin(&point(*at)?)?;
    }
    Ok(())
}

fn write_place(text: &mut Vec<u8>, records: &Records, vertex: VertexId) -> Result<(), NoMemory> {
    match records.point_of(vertex) {
        Some(point) => write_point(text, &point),
        None => Ok(()),
    }
}

fn write_edge(text: &mut Vec<u8>, records: &Records, dart: DartId) -> Result<(), NoMemory> {
    text.extend_from_slice(b"e ")?;
    if let Some((source, target)) = records.ends_of(dart) {
        write_place(text, records, source)?;
        write_place(text, records, target)?;
    }
    text.push(b'\n')?;
    Ok(())
}

fn write_between(
    text: &mut Vec<u8>,
    records: &Records,
    between: Option<DartId>,
) -> Result<(), NoMemory> {
    match between {
        Some(dart) => write_edge(text, records, dart),
        None => Ok(text.extend_from_slice(b"gap\n")?),
    }
}

fn write_vertex(text: &mut Vec<u8>, records: &Records, vertex: VertexId) -> Result<(), NoMemory> {
    text.extend_from_slice(b"v ")?;
    write_place(text, records, vertex)?;
    text.push(b'\n')?;
    Ok(())
}

fn write_envelope(
    text: &mut Vec<u8>,
    records: &Records,
    envelope: &Envelope,
) -> Result<(), NoMemory> {
    let vertices = envelope.vertices.as_slice();
    for place in 0..vertices.len() {
        write_vertex(text, records, vertices[place])?;
        if let Some(between) = envelope.between.as_slice().get(place) {
            write_between(text, records, *between)?;
        }
    }
    Ok(())
}

fn text_of(alloc: Global, records: &Records, which: Which) -> Result<Vec<u8>, NoMemory>
    requires map { IsSoundMap records.now }
{
    records.face_laws();
    let envelope = envelope_of(alloc, records, which)?;
    let mut text = Vec::new(alloc);
    write_envelope(&mut text, records, &envelope)?;
    Ok(text)
}

fn are_right(alloc: Global, layer: &mut Arrangement, case: &Case) -> Result<bool, Fail>
    requires watched { IsWatched (arranged Observer-dyn layer.old) }
{
    insert_all(layer, case.segments)?;
    pin_all(layer, case.pins)?;
    let lower = text_of(alloc, layer.records(), Which::Lower)?;
    let upper = text_of(alloc, layer.records(), Which::Upper)?;
    Ok(lower.as_slice() == case.lower && upper.as_slice() == case.upper)
}

fn is_right(alloc: Global, case: &Case) -> Result<bool, Fail> {
    let mut layer = nothing(alloc)?;
    let right = are_right(alloc, &mut layer, case);
    drop(layer);
    right
}

// The name of the first case with another envelope.
fn first_wrong(alloc: Global, cases: &[Case]) -> Result<Option<&'static str>, Fail> {
    for case in cases {
        if !is_right(alloc, case)? {
            return Ok(Some(case.name));
        }
    }
    Ok(None)
}

#[test]
fn envelopes_are_those_of_all_points(rt: HostRuntime) -> Result<(), Fail> {
    assert_eq!(rt; first_wrong(rt.alloc(), &CASES)?, None);
    Ok(())
}
