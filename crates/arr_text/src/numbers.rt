ghost use Rattle.std.specs.Prelude.{◌≡◌, ◌<◌, length, IfOk};
ghost use Rattle.std.specs.List.{slice_index_or};
ghost use Rattle.arr_text.specs.Numbers.{AreApart, TellPlaces};

use no_memory::NoMemory;
use record_orders::{VertexKey, write_at};
use slab_laws::VertexId;
use std::alloc::Global;

/// A table by the names of vertices: at each name stands the vertex's place in the list, from 1 on.
pub(crate) fn numbers_of(alloc: Global, vertices: &[VertexKey]) -> Result<Vec<usize>, NoMemory>
    requires { AreApart vertices.now }
    ensures { IfOk result (λ v. TellPlaces v.items vertices.now) }
{
    let mut numbers = Vec::new(alloc);
    for place in 0..vertices.len() {
        write_at(&mut numbers, vertices[place].name.0, 0, place + 1)?;
    }
    Ok(numbers)
}

/// What stands at the name of a vertex.
pub(crate) fn number_of(numbers: &[usize], vertex: VertexId) -> usize
    requires { vertex.0 < length numbers.now }
    ensures { result ≡ slice_index_or numbers.now vertex.0 0 }
{
    numbers[vertex.0]
}
