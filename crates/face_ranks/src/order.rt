ghost use Rattle.std.specs.Prelude.{◌≡◌, ◌≤◌, ◌==◌, [], length, find};
ghost use Rattle.std.specs.List.{count_by};
ghost use Rattle.std.specs.Ordering.{is_lt};
ghost use Rattle.slab_laws.specs.Sound.{IsGraphSound};
ghost use Rattle.slab_laws.specs.View.{HasCycle, HasDart, HasFace, point_in, source_in, target_in};
ghost use Rattle.dcel_records.specs.RankOrders.{key_cmp};
ghost use Rattle.dcel_records.specs.RecordsView.{graph_part, lists_of, rank_given, tables_of};
ghost use Rattle.dcel_records.specs.SoundMaps.{IsSoundMap};
ghost use Rattle.face_ranks.specs.OuterKeys.{cycle_rank_key, outer_keys, AreKeysListed};
ghost use Rattle.face_ranks.specs.Ranks.{rank_among, rank_in, AreRanksGiven, AreRankedAs};

use boundary_cycles::least_dart;
use dcel_records::{RankKey, Records};
use exact_plane::Point;
use slab_laws::{CycleId, CycleKind, DartId, Darts, FaceId, FaceLists, Faced};
use std::cmp::Ordering;

// The points that a dart leaves and reaches.
fn ends_of(records: &Records, d: DartId) -> (Point, Point)
    requires sound { IsGraphSound records.now.graph }
    requires dart { HasDart records.now.graph d }
    ensures source { result.0 ≡ point_in records.now.graph (source_in records.now.graph d) }
    ensures target { result.1 ≡ point_in records.now.graph (target_in records.now.graph d) }
{
    (
        records.point(records.source(d)),
        records.point(records.target(d)),
    )
}

/// The ends of the least dart of a cycle, and its face.
pub fn key_of(records: &Records, cycle: CycleId) -> RankKey
    requires map { IsSoundMap records.now }
    requires cycle { HasCycle (tables_of records.now) cycle }
    ensures { result ≡ cycle_rank_key records.now.graph (tables_of records.now) (lists_of records.now) cycle }
{
    let lead = least_dart(records, records.dart_on(cycle));
    let (source, target) = ends_of(records, lead);
    RankKey {
        source,
        target,
        face: records.face(cycle),
    }
}

// The key of each outer cycle, in the order of the cycles' names, where there is none yet.
fn push_keys(records: &mut Records)
    requires map { IsSoundMap records.old }
    requires empty { records.old.ranks.order ≡ [] }
    ensures order { records.new.ranks.order ≡ outer_keys records.old.graph (tables_of records.old) (lists_of records.old) }
    ensures graph { graph_part records.new ≡ graph_part records.old }
    ensures faces { records.new.faces ≡ records.old.faces }
{
    records.face_laws();
    let mut last = None;
    while let Some(cycle) = records.cycle_after(last) {
        if records.kind(cycle) == CycleKind::Outer {
            let key = key_of(records, cycle);
            records.push_key(key);
        }
        last = Some(cycle);
    }
}

// Lists the keys by which faces are ranked: one for each outer cycle, along which it goes once.
fn list_keys(records: &mut Records)
    requires { IsSoundMap records.old }
    ensures listed { AreKeysListed records.new }
    ensures graph { graph_part records.new ≡ graph_part records.old }
    ensures faces { records.new.faces ≡ records.old.faces }
{
    records.clear_order();
    push_keys(records);
}

// Whether a key comes before another one, by source and then by target.
pub(crate) fn comes_before(key: &RankKey, other: &RankKey) -> bool
    ensures { result ≡ is_lt (key_cmp key.now other.now) }
{
    match key.source.cmp(&other.source) {
        Ordering::Less => true,
        Ordering::Equal => key.target < other.target,
        Ordering::Greater => false,
    }
}

// Whether a key is of a face.
pub(crate) fn is_of(key: &RankKey, face: FaceId) -> bool
    ensures { result ≡ (face.0 == key.now.face.0) }
{
    face.0 == key.face.0
}

// The key of a face.
fn key_of_face(keys: &[RankKey], face: FaceId) -> Option<RankKey>
    ensures { result ≡ find (λ k. face.0 == k.face.0) keys.now }
{
    keys.iter().copied().find(|key| is_of(key, face))
}

// How many of the keys come before one of them.
fn count_before(keys: &[RankKey], own: &RankKey) -> usize
    ensures count { result ≡ count_by (λ k. is_lt (key_cmp k own.now)) keys.now }
    ensures most { result ≤ length keys.now }
{
    keys.iter().filter(|key| comes_before(key, own)).count()
}

// How many of the keys come before that of a face, and one more; 0 where none is of it.
fn rank_among(keys: &[RankKey], face: FaceId) -> usize
    ensures { result ≡ rank_among keys.now face }
{
    match key_of_face(keys, face) {
        None => 0,
        Some(own) => 1 + count_before(keys, &own),
    }
}

// The rank of a face, where the keys are listed. It looks at each key once or twice.
pub(crate) fn count_rank(records: &Records, face: FaceId) -> usize
    requires map { IsSoundMap records.now }
    requires listed { AreKeysListed records.now }
    requires face { HasFace (tables_of records.now) face }
    ensures { result ≡ rank_in records.now.graph (tables_of records.now) face }
{
    rank_among(records.rank_keys(), face)
}

// Gives each face its rank, where the keys are listed. It sorts as many keys as there are bounded faces.
fn rank_faces(records: &mut Records)
    requires map { IsSoundMap records.old }
    requires listed { AreKeysListed records.old }
    ensures ranks { AreRanksGiven records.new }
    ensures graph { graph_part records.new ≡ graph_part records.old }
    ensures faces { records.new.faces ≡ records.old.faces }
{
    records.face_laws();
    records.rank_in_order();
}

/// What records keep of the ranks of their faces.
#[derive(Clone, Copy)]
pub enum Ranking {
    /// Nothing that holds.
    Unknown,
    /// The keys by which faces are ranked.
    Listed,
    /// The rank of each face.
    Given,
}

/// The rank of a face: how many faces come before it, where the unbounded one is the first, and the others stand in the order of the
/// least darts of their outer cycles.
///
/// The first question goes once along each outer cycle, lists their least darts as keys, and counts those that come before the face's own;
/// the second one sorts the keys, as many as there are bounded faces, and gives each face its rank; the next ones look it up. It
/// takes no memory.
pub fn rank_of(records: &mut Records, ranking: &mut Ranking, face: FaceId) -> usize
    requires map { IsSoundMap records.old }
    requires known { AreRankedAs ranking.old records.old }
    requires face { HasFace (tables_of records.old) face }
    ensures rank { result ≡ rank_in records.old.graph (tables_of records.old) face }
    ensures known { AreRankedAs ranking.new records.new }
    ensures graph { graph_part records.new ≡ graph_part records.old }
    ensures faces { records.new.faces ≡ records.old.faces }
{
    match *ranking {
        Ranking::Unknown => {
            list_keys(records);
            *ranking = Ranking::Listed;
            count_rank(records, face)
        }
        Ranking::Listed => {
            rank_faces(records);
            *ranking = Ranking::Given;
            records.rank_of(face)
        }
        Ranking::Given => records.rank_of(face),
    }
}
