ghost use Rattle.std.specs.Prelude.{◌≡◌, ◌==◌, ℕ, cond, OnOk};
ghost use Rattle.std.specs.List.{slice_index_or};

use no_memory::NoMemory;

/// What stands at a place of a table; past its end, what it is filled up with.
pub fn read_at<T: Copy>(table: &[T], place: usize, filler: T) -> T
    ensures { result ≡ slice_index_or table.now place filler }
{
    match table.get(place) {
        Some(value) => *value,
        None => filler,
    }
}

/// Writes at a place of a table. What is missing in front of it is filled up.
///
/// # Errors
///
/// There was no memory for so long a table.
pub fn write_at<T: Copy>(
    table: &mut Vec<T>,
    place: usize,
    filler: T,
    value: T,
) -> Result<(), NoMemory>
    ensures { OnOk result ((i : ℕ) → slice_index_or table.new.items i filler
        ≡ cond (i == place) value (slice_index_or table.old.items i filler)) }
{
    let Some(room) = place.checked_add(1) else {
        return Err(NoMemory);
    };
    if table.len() < room {
        table.resize(room, filler)?;
    }
    table[place] = value;
    Ok(())
}
