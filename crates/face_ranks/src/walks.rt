ghost use Rattle.std.specs.Prelude.{◌≡◌, ◌+◌, ◌<◌, ◌==◌, find};
ghost use Rattle.std.specs.List.{count_by};
ghost use Rattle.std.specs.Ordering.{is_lt};
ghost use Rattle.slab_laws.specs.View.{HasFace};
ghost use Rattle.dcel_records.specs.RankOrders.{key_cmp};
ghost use Rattle.dcel_records.specs.RecordsView.{lists_of, tables_of};
ghost use Rattle.dcel_records.specs.SoundMaps.{IsSoundMap};
ghost use Rattle.face_ranks.specs.OuterKeys.{outer_keys};
ghost use Rattle.face_ranks.specs.Ranks.{rank_in, AreRankedAs};

use crate::order::{Ranking, comes_before, count_rank, is_of, key_of};
use dcel_records::{RankKey, Records};
use slab_laws::{CycleKind, FaceId, Faced};

// The number after one that is less than another.
fn next_within(number: usize, bound: usize) -> usize
    requires { number < bound }
    ensures { result ≡ number + 1 }
{
    number + 1
}

// The key of a face, by one walk along each outer cycle up to its own.
fn key_walked(records: &Records, face: FaceId) -> Option<RankKey>
    requires { IsSoundMap records.now }
    ensures { result ≡ find (λ k. face.0 == k.face.0) (outer_keys records.now.graph (tables_of records.now) (lists_of records.now)) }
{
    records.face_laws();
    let mut last = None;
    while let Some(cycle) = records.cycle_after(last) {
        if records.kind(cycle) == CycleKind::Outer {
            let key = key_of(records, cycle);
            if is_of(&key, face) {
                return Some(key);
            }
        }
        last = Some(cycle);
    }
    None
}

// How many of the keys come before one of them, by one walk along each outer cycle.
fn count_walked(records: &Records, own: &RankKey) -> usize
    requires { IsSoundMap records.now }
    ensures { result ≡ count_by (λ k. is_lt (key_cmp k own.now)) (outer_keys records.now.graph (tables_of records.now) (lists_of records.now)) }
{
    records.face_laws();
    // There are no more keys than cycles.
    let cycles = records.counts().cycles;
    let mut count = 0;
    let mut last = None;
    while let Some(cycle) = records.cycle_after(last) {
        if records.kind(cycle) == CycleKind::Outer {
            let key = key_of(records, cycle);
            if comes_before(&key, own) {
                count = next_within(count, cycles);
            }
        }
        last = Some(cycle);
    }
    count
}

// The rank of a face, where nothing that the records keep of ranks holds: one walk along each outer cycle up to the face's own, and
// another one along all of them.
fn rank_by_walks(records: &Records, face: FaceId) -> usize
    requires map { IsSoundMap records.now }
    requires face { HasFace (tables_of records.now) face }
    ensures { result ≡ rank_in records.now.graph (tables_of records.now) face }
{
    let cycles = records.counts().cycles;
    match key_walked(records, face) {
        None => 0,
        Some(own) => next_within(count_walked(records, &own), cycles),
    }
}

/// The rank of a face, by what the records keep of ranks: it is looked up where each face was given its rank, counted among the keys
/// where these are listed, and found by two walks along each outer cycle where nothing holds. It takes no memory and changes nothing.
pub fn rank_told(records: &Records, ranking: Ranking, face: FaceId) -> usize
    requires map { IsSoundMap records.now }
    requires known { AreRankedAs ranking records.now }
    requires face { HasFace (tables_of records.now) face }
    ensures { result ≡ rank_in records.now.graph (tables_of records.now) face }
{
    match ranking {
        Ranking::Unknown => rank_by_walks(records, face),
        Ranking::Listed => count_rank(records, face),
        Ranking::Given => records.rank_of(face),
    }
}
