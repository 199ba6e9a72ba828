ghost use Rattle.std.specs.Prelude.{◌≡◌, ◌<◌, ◌++◌, length, OnOk};
ghost use Rattle.std.specs.List.{All, slice_index_or};
ghost use Rattle.slab_laws.specs.Sound.{IsGraphSound};
ghost use Rattle.slab_laws.specs.View.{HasDart, HasFace};
ghost use Rattle.slab_laws.specs.FacesSound.{IsSound};
ghost use Rattle.sound_views.specs.Orders.{dart_order};
ghost use Rattle.record_orders.specs.Keys.{vertex_keys};
ghost use Rattle.record_orders.specs.CycleKeys.{cycle_keys, ranked_faces};
ghost use Rattle.arr_text.specs.Numbers.{AreNumbers};
ghost use Rattle.arr_text.specs.Reading.{face_order};
ghost use Rattle.arr_text.specs.Parts.{letter_of, cycle_text, cycles_text, isolated_line, isolated_text, face_line, bodies_text, faces_text, HaveGained};

use crate::put::{put_index, put_number, put_text};
use crate::rounds::put_trail;
use crate::words::Words;
use no_memory::NoMemory;
use record_orders::{Bodies, CycleKey, Ranks, VertexKey};
use slab_laws::{CycleKind, DartId, Darts, FaceId, Faced, VertexId};
use std::alloc::Global;

// Makes the line of a cycle, in place of what was there. There are so many darts in all.
fn make_cycle_line<R: Darts>(
    line: &mut Vec<u8>,
    records: &R,
    numbers: &[usize],
    letter: &str,
    lead: DartId,
    darts: usize,
) -> Result<(), NoMemory>
    requires sound { IsGraphSound (R.graph records.now) }
    requires numbers { AreNumbers (R.graph records.now) numbers.now }
    requires darts { darts ≡ length (dart_order (R.graph records.now)) }
    requires lead { HasDart (R.graph records.now) lead }
    ensures { OnOk result (line.new.items ≡ cycle_text (R.graph records.now) letter.now lead) }
{
    line.clear();
    put_text(line, letter)?;
    put_trail(line, records, numbers, lead, darts)?;
    put_text(line, "\n")
}

// What the line of a cycle begins with.
fn letter_of(kind: CycleKind) -> &'static str
    ensures { result.now ≡ letter_of kind }
{
    match kind {
        CycleKind::Outer => "o",
        CycleKind::Inner => "h",
    }
}

// Appends the lines of the cycles of one kind to the parts of their faces.
fn put_cycles<R: Faced>(
    bodies: &mut Bodies,
    line: &mut Vec<u8>,
    records: &R,
    numbers: &[usize],
    cycles: &[CycleKey],
    ranks: &Ranks,
    kind: CycleKind,
    darts: usize,
) -> Result<(), NoMemory>
    requires stands { IsSound (R.graph records.now) (R.faces records.now) }
    requires numbers { AreNumbers (R.graph records.now) numbers.now }
    requires cycles { cycles.now ≡ cycle_keys (R.faces records.now) (dart_order (R.graph records.now)) }
    requires ranks { ranks.now ≡ ranked_faces (R.faces records.now) cycles.now }
    requires darts { darts ≡ length (dart_order (R.graph records.now)) }
    requires bodies { length bodies.old ≡ length ranks.now }
    ensures as_many { OnOk result (length bodies.new ≡ length bodies.old) }
    ensures gain { OnOk result (HaveGained
        (cycles_text (R.graph records.now) kind ranks.now cycles.now) bodies.old bodies.new) }
{
    for cycle in cycles {
        if cycle.is_of(kind) {
            make_cycle_line(line, records, numbers, letter_of(kind), cycle.lead, darts)?;
            bodies.append(ranks.rank_of(cycle.face), line)?;
        }
    }
    Ok(())
}

// Makes the line of an isolated vertex, in place of what was there.
fn make_isolated_line(
    line: &mut Vec<u8>,
    numbers: &[usize],
    vertex: VertexId,
) -> Result<(), NoMemory>
    requires { vertex.0 < length numbers.now }
    ensures { OnOk result (line.new.items ≡ isolated_line (slice_index_or numbers.now vertex.0 0)) }
{
    line.clear();
    put_text(line, "p")?;
    put_index(line, numbers, vertex)?;
    put_text(line, "\n")
}

// Appends the lines of isolated vertices to the parts of their faces.
fn put_isolated<R: Faced>(
    bodies: &mut Bodies,
    line: &mut Vec<u8>,
    records: &R,
    numbers: &[usize],
    vertices: &[VertexKey],
    ranks: &Ranks,
) -> Result<(), NoMemory>
    requires stands { IsSound (R.graph records.now) (R.faces records.now) }
    requires numbers { AreNumbers (R.graph records.now) numbers.now }
    requires vertices { vertices.now ≡ vertex_keys (R.graph records.now) }
    requires ranks { ranks.now ≡ face_order (R.graph records.now) (R.faces records.now) }
    requires bodies { length bodies.old ≡ length ranks.now }
    ensures as_many { OnOk result (length bodies.new ≡ length bodies.old) }
    ensures gain { OnOk result (HaveGained
        (isolated_text (R.graph records.now) (R.faces records.now) ranks.now vertices.now) bodies.old bodies.new) }
{
    for vertex in vertices {
        if records.out_of(vertex.name).is_none() {
            make_isolated_line(line, numbers, vertex.name)?;
            bodies.append(ranks.rank_of(records.bare_face(vertex.name)), line)?;
        }
    }
    Ok(())
}

// Puts the first line of a face, with its rank.
fn put_rank<R: Faced, W: Words<R>>(
    out: &mut Vec<u8>,
    records: &R,
    rank: usize,
    face: FaceId,
) -> Result<(), NoMemory>
    requires { HasFace (R.faces records.now) face }
    ensures { OnOk result (out.new.items ≡ out.old.items ++ face_line rank (W.labels records.now face)) }
{
    put_text(out, "f")?;
    put_number(out, rank)?;
    W::put_labels(out, records, face)?;
    put_text(out, "\n")
}

// Puts the line of each face, with what stands under it.
fn put_bodies<R: Faced, W: Words<R>>(
    out: &mut Vec<u8>,
    records: &R,
    faces: &[FaceId],
    bodies: &Bodies,
) -> Result<(), NoMemory>
    requires has { All (HasFace (R.faces records.now)) faces.now }
    requires faces { length faces.now ≡ length bodies.now }
    ensures { OnOk result
        (out.new.items ≡ out.old.items ++ bodies_text (W.labels records.now) faces.now bodies.now) }
{
    for rank in 0..bodies.len() {
        put_rank::<R, W>(out, records, rank, faces[rank])?;
        out.extend_from_slice(bodies.text(rank))?;
    }
    Ok(())
}

// Puts the lines of all faces by rank, each with its outer cycles, its inner cycles and its isolated vertices. There are so many
// darts in all.
pub(crate) fn put_faces<R: Faced, W: Words<R>>(
    alloc: Global,
    out: &mut Vec<u8>,
    records: &R,
    numbers: &[usize],
    vertices: &[VertexKey],
    cycles: &[CycleKey],
    ranks: &Ranks,
    darts: usize,
) -> Result<(), NoMemory>
    requires stands { IsSound (R.graph records.now) (R.faces records.now) }
    requires numbers { AreNumbers (R.graph records.now) numbers.now }
    requires vertices { vertices.now ≡ vertex_keys (R.graph records.now) }
    requires cycles { cycles.now ≡ cycle_keys (R.faces records.now) (dart_order (R.graph records.now)) }
    requires ranks { ranks.now ≡ ranked_faces (R.faces records.now) cycles.now }
    requires darts { darts ≡ length (dart_order (R.graph records.now)) }
    ensures { OnOk result (out.new.items
        ≡ out.old.items ++ faces_text (R.graph records.now) (R.faces records.now) (W.labels records.now)) }
{
    let mut bodies = Bodies::new(alloc, ranks.len())?;
    let mut line = Vec::new(alloc);
    put_cycles(
        &mut bodies,
        &mut line,
        records,
        numbers,
        cycles,
        ranks,
        CycleKind::Outer,
        darts,
    )?;
    put_cycles(
        &mut bodies,
        &mut line,
        records,
        numbers,
        cycles,
        ranks,
        CycleKind::Inner,
        darts,
    )?;
    put_isolated(&mut bodies, &mut line, records, numbers, vertices, ranks)?;
    put_bodies::<R, W>(out, records, ranks.as_slice(), &bodies)
}
