ghost use Rattle.std.specs.Prelude.{◌≡◌, ◌++◌, nat_lt, true, OnOk};
ghost use Rattle.slab_laws.specs.Sound.{IsGraphSound};
ghost use Rattle.slab_laws.specs.View.{HasDart};
ghost use Rattle.arr_text.specs.Numbers.{numbered_dart, numbered_darts};
ghost use Rattle.arr_text.specs.Reading.{edge_ends};
ghost use Rattle.arr_text.specs.Parts.{edge_text, edges_text};

use crate::darts::{NumberedDart, goes_up};
use crate::put::{put_number, put_text};
use crate::words::Words;
use no_memory::NoMemory;
use slab_laws::Faced;
use std::alloc::Global;

// Puts what stands in front of the curves: the numbers of the edge's two ends.
fn put_ends(out: &mut Vec<u8>, dart: &NumberedDart) -> Result<(), NoMemory>
    ensures { OnOk result (out.new.items ≡ out.old.items ++ edge_ends dart.now.source dart.now.target) }
{
    put_text(out, "e")?;
    put_number(out, dart.source)?;
    put_number(out, dart.target)?;
    put_text(out, " :")
}

// Puts the line of the edge of a dart that goes from the lesser end.
fn put_edge<R: Faced, W: Words<R>>(
    alloc: Global,
    out: &mut Vec<u8>,
    records: &R,
    dart: &NumberedDart,
) -> Result<(), NoMemory>
    requires sound { IsGraphSound (R.graph records.now) }
    requires has { HasDart (R.graph records.now) dart.now.name }
    requires key { dart.now ≡ numbered_dart (R.graph records.now) dart.now.name }
    requires forward { nat_lt dart.now.source dart.now.target ≡ true }
    ensures { OnOk result
        (out.new.items ≡ out.old.items ++ edge_text (R.graph records.now) (W.curves records.now) dart.now.name) }
{
    put_ends(out, dart)?;
    W::put_curves(alloc, out, records, dart.name)?;
    put_text(out, "\n")
}

// Puts the lines of all edges, in their order.
pub(crate) fn put_edges<R: Faced, W: Words<R>>(
    alloc: Global,
    out: &mut Vec<u8>,
    records: &R,
    darts: &[NumberedDart],
) -> Result<(), NoMemory>
    requires sound { IsGraphSound (R.graph records.now) }
    requires darts { darts.now ≡ numbered_darts (R.graph records.now) }
    ensures { OnOk result
        (out.new.items ≡ out.old.items ++ edges_text (R.graph records.now) (W.curves records.now)) }
{
    for dart in darts {
        if goes_up(dart) {
            put_edge::<R, W>(alloc, out, records, dart)?;
        }
    }
    Ok(())
}
