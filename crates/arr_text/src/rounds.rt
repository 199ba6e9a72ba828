ghost use Rattle.std.specs.Prelude.{◌≡◌, ◌++◌, OnOk};
ghost use Rattle.slab_laws.specs.Sound.{IsGraphSound};
ghost use Rattle.slab_laws.specs.View.{HasDart};
ghost use Rattle.arr_text.specs.Numbers.{AreNumbers};
ghost use Rattle.arr_text.specs.Parts.{round_numbers, trail_numbers};

use crate::put::put_index;
use no_memory::NoMemory;
use slab_laws::{DartId, Darts};

// Puts the neighbours of a vertex clockwise, from the target of one of its darts on. There are so many darts in all.
pub(crate) fn put_round<R: Darts>(
    out: &mut Vec<u8>,
    records: &R,
    numbers: &[usize],
    first: DartId,
    darts: usize,
) -> Result<(), NoMemory>
    requires sound { IsGraphSound (R.graph records.now) }
    requires numbers { AreNumbers (R.graph records.now) numbers.now }
    requires first { HasDart (R.graph records.now) first }
    ensures { OnOk result (out.new.items ≡ out.old.items ++ round_numbers (R.graph records.now) darts first) }
{
    let mut dart = first;
    'round: for _ in 0..darts {
        put_index(out, numbers, records.target(dart))?;
        dart = records.next(records.twin(dart));
        if dart == first {
            return Ok(());
        }
    }
    Ok(())
}

// Puts the vertices of a boundary cycle, from the source of one of its darts on. There are so many darts in all.
pub(crate) fn put_trail<R: Darts>(
    out: &mut Vec<u8>,
    records: &R,
    numbers: &[usize],
    first: DartId,
    darts: usize,
) -> Result<(), NoMemory>
    requires sound { IsGraphSound (R.graph records.now) }
    requires numbers { AreNumbers (R.graph records.now) numbers.now }
    requires first { HasDart (R.graph records.now) first }
    ensures { OnOk result (out.new.items ≡ out.old.items ++ trail_numbers (R.graph records.now) darts first) }
{
    let mut dart = first;
    'trail: for _ in 0..darts {
        put_index(out, numbers, records.source(dart))?;
        dart = records.next(dart);
        if dart == first {
            return Ok(());
        }
    }
    Ok(())
}
