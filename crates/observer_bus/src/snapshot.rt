ghost use Rattle.std.specs.Prelude.{◌≡◌, IfOk};
ghost use Rattle.arr_notes.specs.CurvedView.{IsSoundView, view_by};

use arr_notes::View;
use no_memory::NoMemory;
use slab_laws::{Curved, Faced};
use std::alloc::Global;

/// Records as they stand, with their cycles and faces.
pub(crate) fn snapshot<R: Curved + Faced>(alloc: Global, records: &R) -> Result<View, NoMemory>
    requires { IsSoundView (view_by (R.graph records.now) (R.faces records.now) (R.curve_list records.now)) }
    ensures { IfOk result (λ w. w ≡ view_by (R.graph records.now) (R.faces records.now) (R.curve_list records.now)) }
{
    View::of(alloc, records)
}
