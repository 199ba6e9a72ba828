ghost use Rattle.std.specs.Prelude.{◌≡◌, IfOk, map};
ghost use Rattle.std.specs.List.Sorted.{IsStrictlyIncreasing};
ghost use Rattle.slab_laws.specs.View.{HasDart, twin_in};

use crate::darts::Darts;
use crate::names::{CurveId, DartId};
use no_memory::NoMemory;
use std::alloc::Global;

/// A graph whose edges know their curves.
pub trait Curved: Darts {
    ghost use Rattle.std.specs.Prelude.{List, ℕ};
    ghost use Rattle.slab_laws.specs.declared.names.CurveId.{CurveId};
    ghost use Rattle.slab_laws.specs.declared.names.DartId.{DartId};

    /// The curves along a dart's edge.
    ghost curve_list: { Self → DartId → List CurveId };

    /// The curves along the dart's edge, ascending, each once; twins have the same.
    fn curves(&self, alloc: Global, d: DartId) -> Result<Vec<CurveId>, NoMemory>
        requires { HasDart (Self.graph self.now) d }
        ensures curves { IfOk result (λ v. v.items ≡ curve_list self.now d) }
        ensures ascend { IsStrictlyIncreasing (map (λ c. c.0) (curve_list self.now d)) }
        ensures twins { curve_list self.now (twin_in (Self.graph self.now) d) ≡ curve_list self.now d };
}
