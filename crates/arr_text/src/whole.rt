ghost use Rattle.std.specs.Prelude.{◌≡◌, ◌++◌, IfOk, OnOk};
ghost use Rattle.slab_laws.specs.FacesSound.{IsSound};
ghost use Rattle.sound_views.specs.Orders.{dart_order};
ghost use Rattle.record_orders.specs.Keys.{vertex_keys};
ghost use Rattle.record_orders.specs.CycleKeys.{cycle_keys, ranked_faces};
ghost use Rattle.arr_text.specs.Numbers.{AreNumbers, numbered_darts};
ghost use Rattle.arr_text.specs.Reading.{text_in, text_with, overlay_text_in, title};

use crate::darts::{NumberedDart, darts_by_number, names_of};
use crate::edges::put_edges;
use crate::faces::put_faces;
use crate::numbers::numbers_of;
use crate::put::{put_number, put_text};
use crate::vertices::put_vertices;
use crate::words::{Coloured, Plain, Words};
use no_memory::NoMemory;
use record_orders::{CycleKey, Ranks, VertexKey, cycles_of, ranks_of, vertices_in_order};
use slab_laws::{Curved, Faced, Layered};
use std::alloc::Global;

// Puts the first line, after its first word: how many vertices, edges and faces there are.
fn put_title(
    out: &mut Vec<u8>,
    word: &str,
    vertices: usize,
    edges: usize,
    faces: usize,
) -> Result<(), NoMemory>
    ensures { OnOk result (out.new.items ≡ out.old.items ++ title word.now vertices edges faces) }
{
    put_text(out, word)?;
    put_number(out, vertices)?;
    put_number(out, edges)?;
    put_number(out, faces)?;
    put_text(out, "\n")
}

// Puts all lines of a text.
fn put_lines<R: Faced, W: Words<R>>(
    alloc: Global,
    out: &mut Vec<u8>,
    records: &R,
    numbers: &[usize],
    vertices: &[VertexKey],
    darts: &[NumberedDart],
    cycles: &[CycleKey],
    ranks: &Ranks,
) -> Result<(), NoMemory>
    requires stands { IsSound (R.graph records.now) (R.faces records.now) }
    requires numbers { AreNumbers (R.graph records.now) numbers.now }
    requires vertices { vertices.now ≡ vertex_keys (R.graph records.now) }
    requires darts { darts.now ≡ numbered_darts (R.graph records.now) }
    requires cycles { cycles.now ≡ cycle_keys (R.faces records.now) (dart_order (R.graph records.now)) }
    requires ranks { ranks.now ≡ ranked_faces (R.faces records.now) cycles.now }
    ensures { OnOk result (out.new.items ≡ out.old.items
        ++ text_with W.title (R.graph records.now) (R.faces records.now) (W.curves records.now) (W.labels records.now)) }
{
    put_title(
        out,
        W::title(),
        vertices.len(),
        darts.len() / 2,
        ranks.len(),
    )?;
    put_vertices(out, records, numbers, vertices, darts)?;
    put_edges::<R, W>(alloc, out, records, darts)?;
    put_faces::<R, W>(
        alloc,
        out,
        records,
        numbers,
        vertices,
        cycles,
        ranks,
        darts.len(),
    )?;
    put_text(out, "end\n")
}

// The text of what is read by name, by its words.
fn text_by<R: Faced, W: Words<R>>(alloc: Global, records: &R) -> Result<Vec<u8>, NoMemory>
    requires { IsSound (R.graph records.now) (R.faces records.now) }
    ensures { IfOk result (λ bytes. bytes.items
        ≡ text_with W.title (R.graph records.now) (R.faces records.now) (W.curves records.now) (W.labels records.now)) }
{
    let vertices = vertices_in_order(alloc, records)?;
    let numbers = numbers_of(alloc, &vertices)?;
    let darts = darts_by_number(alloc, records, &numbers)?;
    let names = names_of(alloc, &darts)?;
    let cycles = cycles_of(alloc, records, &names)?;
    let ranks = ranks_of(alloc, records, &cycles)?;
    let mut out = Vec::new(alloc);
    put_lines::<R, W>(
        alloc, &mut out, records, &numbers, &vertices, &darts, &cycles, &ranks,
    )?;
    Ok(out)
}

/// The text of a subdivision that is read by name.
///
/// Its lines, each with byte 10 at its end: `arrangement V E F`; for each vertex in point order `v i X Y W`, ` pin` where it is
/// pinned, ` :` and the numbers of its neighbours clockwise from the least; for each edge `e i j :` and its curves; for each
/// face by rank `f k`, `o` and the vertices of its outer cycle, `h` and those of each inner cycle, `p i` for each
/// vertex that is isolated in it; `end`. The vertices are sorted once by their points, the darts once by the numbers of their
/// ends; all else takes time in proportion to the text and to the greatest name.
///
/// # Errors
///
/// There was no memory for the text or for a table on the way.
pub fn text<R: Curved + Faced>(alloc: Global, records: &R) -> Result<Vec<u8>, NoMemory>
    requires { IsSound (R.graph records.now) (R.faces records.now) }
    ensures { IfOk result (λ bytes. bytes.items ≡ text_in (R.graph records.now) (R.curve_list records.now)) }
{
    text_by::<R, Plain>(alloc, records)
}

/// The text of an overlay of two layers, red and blue, that is read by name.
///
/// It is as [`text`] but for three things: the first word is `overlay`; of an edge's curves each red one is `r` and its
/// number, each blue one `b` and its number, red before blue, each colour ascending; the line of a face is `f k r b`, with
/// the ranks of the red face and of the blue face that hold it.
///
/// # Errors
///
/// There was no memory for the text or for a table on the way.
pub fn overlay_text<R: Layered>(alloc: Global, records: &R) -> Result<Vec<u8>, NoMemory>
    requires { IsSound (R.graph records.now) (R.faces records.now) }
    ensures { IfOk result (λ bytes. bytes.items
        ≡ overlay_text_in (R.graph records.now) (R.faces records.now) (R.red records.now) (R.blue records.now)) }
{
    text_by::<R, Coloured>(alloc, records)
}
