ghost use Rattle.std.specs.Prelude.{◌≡◌, None, Some, cond};
ghost use Rattle.arr_notes.specs.CycleNames.{same_name};

use slab_laws::DartId;

/// The dart that follows, unless the walk is back at its first one.
pub(crate) fn onward(following: DartId, first: DartId) -> Option<DartId>
    ensures { result ≡ cond (same_name following first) None (Some following) }
{
    if following == first {
        None
    } else {
        Some(following)
    }
}
