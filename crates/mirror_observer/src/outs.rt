ghost use Rattle.std.specs.Prelude.{◌≡◌, IfOk, OnOk};
ghost use Rattle.slab_laws.specs.Tables.{row_at};
ghost use Rattle.mirror_observer.specs.DartsOut.{AreOuts, put_out};

use crate::darts::entry_of;
use crate::tables::DartEntry;
use no_memory::NoMemory;
use slab_laws::{DartId, VertexId};
use std::alloc::Global;
use std::collections::BTreeMap;

// The dart is known by the vertex that it leaves, if it has an entry.
fn keep_out(
    outs: &mut BTreeMap<usize, DartId>,
    darts: &BTreeMap<usize, DartEntry>,
    d: DartId,
) -> Result<(), NoMemory>
    ensures { OnOk result (outs.new.entries ≡ put_out (row_at darts.now.entries d.0) d outs.old.entries) }
{
    if let Some(entry) = entry_of(darts, d) {
        outs.insert(entry.source.0, d)?;
    }
    Ok(())
}

/// One dart out of each vertex that a dart leaves, by a look at each dart.
///
/// # Errors
///
/// There was no memory for them.
pub(crate) fn outs_of(
    alloc: Global,
    darts: &BTreeMap<usize, DartEntry>,
) -> Result<BTreeMap<usize, DartId>, NoMemory>
    ensures { IfOk result (λ m. AreOuts darts.now.entries m.entries) }
{
    let mut outs = BTreeMap::new(alloc);
    for key in darts.keys() {
        keep_out(&mut outs, darts, DartId(*key))?;
    }
    Ok(outs)
}

// The dart that is known by the vertex.
pub(crate) fn out_at(outs: &BTreeMap<usize, DartId>, v: VertexId) -> Option<DartId>
    ensures { result ≡ row_at outs.now.entries v.0 }
{
    outs.get(&v.0).copied()
}
