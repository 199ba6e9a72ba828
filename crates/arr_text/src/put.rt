ghost use Rattle.std.specs.Prelude.{◌≡◌, ◌<◌, ◌++◌, length, OnOk};
ghost use Rattle.std.specs.List.{slice_index_or};
ghost use Rattle.slab_laws.specs.Text.{word, number, triple};

use crate::numbers::number_of;
use exact_plane::Point;
use itoa::{Buffer, Integer};
use no_memory::NoMemory;
use slab_laws::VertexId;

/// Appends a text.
///
/// # Errors
///
/// There was no memory.
pub fn put_text(out: &mut Vec<u8>, text: &str) -> Result<(), NoMemory>
    ensures { OnOk result (out.new.items ≡ out.old.items ++ text.now) }
{
    out.extend_from_slice(text.as_bytes())?;
    Ok(())
}

/// Appends a space and a number in decimal.
///
/// # Errors
///
/// There was no memory.
pub fn put_number<I: Integer>(out: &mut Vec<u8>, number: I) -> Result<(), NoMemory>
    ensures { OnOk result (out.new.items ≡ out.old.items ++ word (I.text number)) }
{
    let mut digits = Buffer::new();
    put_text(out, " ")?;
    put_text(out, digits.format(number))
}

// Puts a space, and a number after a letter.
pub(crate) fn put_lettered<I: Integer>(
    out: &mut Vec<u8>,
    letter: &str,
    number: I,
) -> Result<(), NoMemory>
    ensures { OnOk result (out.new.items ≡ out.old.items ++ word (letter.now ++ I.text number)) }
{
    let mut digits = Buffer::new();
    put_text(out, " ")?;
    put_text(out, letter)?;
    put_text(out, digits.format(number))
}

/// Appends the three numbers of a point, each after a space.
///
/// # Errors
///
/// There was no memory.
pub fn put_point(out: &mut Vec<u8>, point: &Point) -> Result<(), NoMemory>
    ensures { OnOk result (out.new.items ≡ out.old.items ++ triple point.now) }
{
    put_number(out, point.x())?;
    put_number(out, point.y())?;
    put_number(out, point.w())
}

// Puts the number of a vertex, from 1, by its name.
pub(crate) fn put_index(
    out: &mut Vec<u8>,
    numbers: &[usize],
    vertex: VertexId,
) -> Result<(), NoMemory>
    requires { vertex.0 < length numbers.now }
    ensures { OnOk result (out.new.items ≡ out.old.items ++ number (slice_index_or numbers.now vertex.0 0)) }
{
    put_number(out, number_of(numbers, vertex))
}
