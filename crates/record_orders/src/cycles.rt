ghost use Rattle.std.specs.Prelude.{◌≡◌, IfOk};
ghost use Rattle.std.specs.List.{AllByRecursion};
ghost use Rattle.slab_laws.specs.View.{HasDart};
ghost use Rattle.record_orders.specs.CycleKeys.{cycle_keys, is_of_kind};

use crate::tables::{read_at, write_at};
use no_memory::NoMemory;
use slab_laws::{CycleKind, DartId, FaceId, Faced};
use std::alloc::Global;

/// A boundary cycle: the first of its darts, its kind, and the face that it bounds.
#[derive(Clone, Copy)]
pub struct CycleKey {
    pub lead: DartId,
    pub kind: CycleKind,
    pub face: FaceId,
}

impl CycleKey {
    /// Whether the cycle is of a kind.
    pub fn is_of(&self, kind: CycleKind) -> bool
        ensures { result ≡ is_of_kind kind self.now }
    {
        self.kind == kind
    }
}

/// The cycles of darts, each by the first of them that is on it.
///
/// # Errors
///
/// There was no memory.
pub fn cycles_of<R: Faced>(
    alloc: Global,
    records: &R,
    darts: &[DartId],
) -> Result<Vec<CycleKey>, NoMemory>
    requires { AllByRecursion (λ d. HasDart (R.graph records.now) d) darts.now }
    ensures { IfOk result (λ v. v.items ≡ cycle_keys (R.faces records.now) darts.now) }
{
    let mut cycles = Vec::new(alloc);
    // By the name of a cycle, whether a dart so far is on it.
    let mut seen = Vec::new(alloc);
    for dart in darts {
        let cycle = records.cycle(*dart);
        let met = read_at(&seen, cycle.0, false);
        write_at(&mut seen, cycle.0, false, true)?;
        if !met {
            cycles.push(CycleKey {
                lead: *dart,
                kind: records.kind(cycle),
                face: records.face(cycle),
            })?;
        }
    }
    Ok(cycles)
}
