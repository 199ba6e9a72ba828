ghost use Rattle.std.specs.Prelude.{◌≡◌, ◌<◌, ◌++◌, cond, codes, [], length, OnOk};
ghost use Rattle.std.specs.List.{slice_index_or};
ghost use Rattle.slab_laws.specs.Sound.{IsGraphSound};
ghost use Rattle.slab_laws.specs.View.{HasVertex, point_in};
ghost use Rattle.record_orders.specs.Keys.{vertex_keys};
ghost use Rattle.arr_text.specs.Numbers.{AreNumbers, numbered_darts};
ghost use Rattle.arr_text.specs.Reading.{vertex_place};
ghost use Rattle.arr_text.specs.Parts.{neighbour_numbers, vertex_text, vertices_text};

use crate::darts::{NumberedDart, first_out_of};
use crate::numbers::number_of;
use crate::put::{put_index, put_point, put_text};
use crate::rounds::put_round;
use no_memory::NoMemory;
use record_orders::VertexKey;
use slab_laws::Darts;

// Puts the neighbours of a vertex, clockwise from the least.
fn put_neighbours<R: Darts>(
    out: &mut Vec<u8>,
    records: &R,
    numbers: &[usize],
    darts: &[NumberedDart],
    vertex: &VertexKey,
) -> Result<(), NoMemory>
    requires sound { IsGraphSound (R.graph records.now) }
    requires numbers { AreNumbers (R.graph records.now) numbers.now }
    requires darts { darts.now ≡ numbered_darts (R.graph records.now) }
    requires has { HasVertex (R.graph records.now) vertex.now.name }
    requires point { vertex.now.point ≡ point_in (R.graph records.now) vertex.now.name }
    ensures { OnOk result (out.new.items ≡ out.old.items ++ neighbour_numbers (R.graph records.now) vertex.now.point) }
{
    match first_out_of(darts, number_of(numbers, vertex.name)) {
        Some(first) => put_round(out, records, numbers, first, darts.len()),
        None => Ok(()),
    }
}

fn put_pin(out: &mut Vec<u8>, pinned: bool) -> Result<(), NoMemory>
    ensures { OnOk result (out.new.items ≡ out.old.items ++ cond pinned (codes " pin") []) }
{
    if pinned {
        return put_text(out, " pin");
    }
    Ok(())
}

// Puts what stands in front of the pin: the vertex's number and its point.
fn put_place(out: &mut Vec<u8>, numbers: &[usize], vertex: &VertexKey) -> Result<(), NoMemory>
    requires { vertex.now.name.0 < length numbers.now }
    ensures { OnOk result (out.new.items
        ≡ out.old.items ++ vertex_place (slice_index_or numbers.now vertex.now.name.0 0) vertex.now.point) }
{
    put_text(out, "v")?;
    put_index(out, numbers, vertex.name)?;
    put_point(out, &vertex.point)
}

// Puts the line of a vertex.
fn put_vertex<R: Darts>(
    out: &mut Vec<u8>,
    records: &R,
    numbers: &[usize],
    darts: &[NumberedDart],
    vertex: &VertexKey,
) -> Result<(), NoMemory>
    requires sound { IsGraphSound (R.graph records.now) }
    requires numbers { AreNumbers (R.graph records.now) numbers.now }
    requires darts { darts.now ≡ numbered_darts (R.graph records.now) }
    requires has { HasVertex (R.graph records.now) vertex.now.name }
    requires point { vertex.now.point ≡ point_in (R.graph records.now) vertex.now.name }
    ensures { OnOk result (out.new.items ≡ out.old.items ++ vertex_text (R.graph records.now) vertex.now.point) }
{
    put_place(out, numbers, vertex)?;
    put_pin(out, records.pinned(vertex.name))?;
    put_text(out, " :")?;
    put_neighbours(out, records, numbers, darts, vertex)?;
    put_text(out, "\n")
}

// Puts the lines of all vertices, in their order.
pub(crate) fn put_vertices<R: Darts>(
    out: &mut Vec<u8>,
    records: &R,
    numbers: &[usize],
    vertices: &[VertexKey],
    darts: &[NumberedDart],
) -> Result<(), NoMemory>
    requires sound { IsGraphSound (R.graph records.now) }
    requires numbers { AreNumbers (R.graph records.now) numbers.now }
    requires vertices { vertices.now ≡ vertex_keys (R.graph records.now) }
    requires darts { darts.now ≡ numbered_darts (R.graph records.now) }
    ensures { OnOk result (out.new.items ≡ out.old.items ++ vertices_text (R.graph records.now)) }
{
    for vertex in vertices {
        put_vertex(out, records, numbers, darts, vertex)?;
    }
    Ok(())
}
