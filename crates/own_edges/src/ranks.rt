ghost use Rattle.std.specs.Prelude.{◌≡◌, ◌==◌, IfOk};
ghost use Rattle.std.specs.List.{IsDistinct};
ghost use Rattle.slab_laws.specs.View.{HasFace};
ghost use Rattle.dcel_records.specs.RecordsView.{tables_of};
ghost use Rattle.dcel_records.specs.SoundMaps.{IsSoundMap};
ghost use Rattle.face_ranks.specs.Ranks.{rank_in, AreRankedAs};
ghost use Rattle.own_edges.specs.RankTables.{HasPlaces, AreRankedByKeys, AreRanksFound};

use crate::keys::{listed_keys, walked_keys};
use dcel_records::{RankKey, Records};
use face_ranks::Ranking;
use no_memory::NoMemory;
use record_orders::{read_at, write_at};
use slab_laws::FaceId;
use std::alloc::Global;

// The face of each key has the place of the key, from 1 on, at its name; other faces have 0.
fn places_by_name(alloc: Global, keys: &[RankKey]) -> Result<Vec<usize>, NoMemory>
    requires { IsDistinct (λ a b. a.face.0 == b.face.0) keys.now }
    ensures { IfOk result (λ v. HasPlaces keys.now v.items) }
{
    let mut ranks = Vec::new(alloc);
    for (place, key) in keys.iter().enumerate() {
        write_at(&mut ranks, key.face.0, 0, place + 1)?;
    }
    Ok(ranks)
}

// The rank of each face by its name, of which keys of the outer cycles are given in any order.
fn ranks_by_name(alloc: Global, mut keys: Vec<RankKey>) -> Result<Vec<usize>, NoMemory>
    requires { IsDistinct (λ a b. a.face.0 == b.face.0) keys.items }
    ensures { IfOk result (λ v. AreRankedByKeys keys.items v.items) }
{
    keys.sort_unstable();
    places_by_name(alloc, &keys)
}

/// The rank of each face by its name, where the records keep none: one walk along each outer cycle, unless their keys are listed, and a
/// sort of as many keys as there are bounded faces. Where each face was given its rank the table is empty.
///
/// # Errors
///
/// There was no memory for a table.
pub(crate) fn found_ranks(
    alloc: Global,
    records: &Records,
    ranking: Ranking,
) -> Result<Vec<usize>, NoMemory>
    requires map { IsSoundMap records.now }
    requires known { AreRankedAs ranking records.now }
    ensures { IfOk result (λ v. AreRanksFound ranking records.now v.items) }
{
    records.face_laws();
    match ranking {
        Ranking::Unknown => ranks_by_name(alloc, walked_keys(alloc, records)?),
        Ranking::Listed => ranks_by_name(alloc, listed_keys(alloc, records)?),
        Ranking::Given => Ok(Vec::new(alloc)),
    }
}

/// The rank of a face, by what was found.
pub(crate) fn rank_by(records: &Records, ranking: Ranking, found: &[usize], face: FaceId) -> usize
    requires found { AreRanksFound ranking records.now found.now }
    requires face { HasFace (tables_of records.now) face }
    ensures { result ≡ rank_in records.now.graph (tables_of records.now) face }
{
    match ranking {
        Ranking::Given => records.rank_of(face),
        Ranking::Unknown | Ranking::Listed => read_at(found, face.0, 0),
    }
}
