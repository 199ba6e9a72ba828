ghost use Rattle.std.specs.Prelude.{◌≡◌, ◌∷◌, ◌++◌, [], cond, IfOk, OnOk};
ghost use Rattle.slab_laws.specs.View.{HasCycle};
ghost use Rattle.dcel_records.specs.RecordsView.{lists_of, tables_of};
ghost use Rattle.dcel_records.specs.SoundMaps.{IsSoundMap};
ghost use Rattle.face_ranks.specs.OuterKeys.{cycle_rank_key, is_outer_in, outer_keys, AreKeysListed};

use dcel_records::{RankKey, Records};
use face_ranks::key_of;
use no_memory::NoMemory;
use slab_laws::{CycleId, Faced};
use std::alloc::{AllocError, Global};

// Appends the key of a cycle, where it is an outer one.
fn push_key(keys: &mut Vec<RankKey>, records: &Records, cycle: CycleId) -> Result<(), NoMemory>
    requires map { IsSoundMap records.now }
    requires cycle { HasCycle (tables_of records.now) cycle }
    ensures { OnOk result (keys.new.items ≡ keys.old.items ++ cond (is_outer_in (tables_of records.now) cycle)
        (cycle_rank_key records.now.graph (tables_of records.now) (lists_of records.now) cycle ∷ []) []) }
{
    if records.kind(cycle).is_outer() {
        keys.push(key_of(records, cycle))?;
    }
    Ok(())
}

/// The key of each outer cycle, by one walk along it.
///
/// # Errors
///
/// There was no memory for the list.
pub(crate) fn walked_keys(alloc: Global, records: &Records) -> Result<Vec<RankKey>, NoMemory>
    requires { IsSoundMap records.now }
    ensures { IfOk result (λ v. v.items ≡ outer_keys records.now.graph (tables_of records.now) (lists_of records.now)) }
{
    records.face_laws();
    let mut keys = Vec::new(alloc);
    let mut last = None;
    'cycles: while let Some(cycle) = records.cycle_after(last) {
        push_key(&mut keys, records, cycle)?;
        last = Some(cycle);
    }
    Ok(keys)
}

// The same keys in a list of their own.
fn copied(alloc: Global, keys: &[RankKey]) -> Result<Vec<RankKey>, AllocError>
    ensures { IfOk result (λ v. v.items ≡ keys.now) }
{
    keys.iter().copied().collect(alloc)
}

/// The keys that the records list already.
///
/// # Errors
///
/// There was no memory for the list.
pub(crate) fn listed_keys(alloc: Global, records: &Records) -> Result<Vec<RankKey>, NoMemory>
    requires { AreKeysListed records.now }
    ensures { IfOk result (λ v. v.items ≡ outer_keys records.now.graph (tables_of records.now) (lists_of records.now)) }
{
    let keys = copied(alloc, records.rank_keys())?;
    Ok(keys)
}
