ghost use Rattle.slab_laws.specs.Sound.{IsGraphSound};
ghost use Rattle.slab_laws.specs.View.{HasDart};
ghost use Rattle.dcel_records.specs.Outs.{IsRest};

use slab_laws::{DartId, Darts};

/// Another dart out of the source of `d`, or `None` where `d` is the only one.
pub(crate) fn rest_of<R: Darts>(records: &R, d: DartId) -> Option<DartId>
    requires sound { IsGraphSound (R.graph records.now) }
    requires dart { HasDart (R.graph records.now) d }
    ensures { IsRest (R.graph records.now) d result }
{
    let after = records.next(records.twin(d));
    if after == d { None } else { Some(after) }
}
