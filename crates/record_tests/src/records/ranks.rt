// Three faces, ordered by keys that are pushed the other way round.

ghost use Rattle.std.specs.Prelude.{◌≡◌, [], ◌∷◌, ◌++◌, length, IfOk, IsTrue};
ghost use Rattle.slab_laws.specs.View.{HasFace, face_id};
ghost use Rattle.dcel_records.specs.ListChanges.{lone_face};
ghost use Rattle.record_tests.specs.Lone.{AreTwo, HasNoDarts};

use crate::records::chains::{OTHER, UNBOUNDED, cycle_more, face_more};
use crate::shapes::point;
use dcel_records::{RankKey, Records, Room};
use exact_plane::Point;
use no_memory::NoMemory;
use slab_laws::{DartId, FaceId};
use std::test::Fail;

const THIRD: FaceId = FaceId(2);

// Whether one face more is the third.
fn third_more(records: &mut Records) -> Result<bool, NoMemory>
    requires two { AreTwo records.old }
    ensures two { AreTwo records.new }
    ensures third { IfOk result (λ right. IsTrue right → HasFace records.new.faces.tables (face_id 2)) }
{
    records.reserve(Room {
        vertices: 0,
        edges: 0,
        cycles: 0,
        faces: 1,
    })?;
    Ok(records.add_face() == THIRD)
}

// Whether there is room for a key after so many: there is for as many as there are cycles. Then it comes last.
fn key_more(records: &mut Records, before: usize, key: RankKey) -> bool
    requires { length records.old.ranks.order ≡ before }
    ensures order { IsTrue result → records.new.ranks.order ≡ records.old.ranks.order ++ key ∷ [] }
    ensures faces { records.new.faces ≡ records.old.faces }
{
    records.face_laws();
    if records.counts().cycles <= before {
        return false;
    }
    records.push_key(key);
    true
}

fn keys_come(records: &mut Records, last: RankKey, middle: RankKey, first: RankKey) -> bool
    ensures order { IsTrue result → records.new.ranks.order ≡ last ∷ middle ∷ first ∷ [] }
    ensures faces { records.new.faces ≡ records.old.faces }
{
    records.clear_order();
    key_more(records, 0, last) && key_more(records, 1, middle) && key_more(records, 2, first)
}

// Whether the third face comes first, by its source, and the unbounded one before the other, by its target.
fn are_ranked(records: &mut Records, a: Point, b: Point, c: Point) -> bool
    requires two { AreTwo records.old }
    requires third { HasFace records.old.faces.tables (face_id 2) }
{
    let last = RankKey {
        source: b,
        target: c,
        face: OTHER,
    };
    let middle = RankKey {
        source: b,
        target: a,
        face: UNBOUNDED,
    };
    let first = RankKey {
        source: a,
        target: c,
        face: THIRD,
    };
    if !keys_come(records, last, middle, first) {
        return false;
    }
    records.rank_in_order();
    records.rank_of(THIRD) == 1 && records.rank_of(UNBOUNDED) == 2 && records.rank_of(OTHER) == 3
}

fn faces_come(records: &mut Records, a: Point, b: Point, c: Point) -> Result<bool, NoMemory>
    requires unbounded { records.old.faces.tables ≡ lone_face }
    requires darts { HasNoDarts records.old }
{
    if !face_more(records)? {
        return Ok(false);
    }
    cycle_more(records, UNBOUNDED, DartId(1))?;
    cycle_more(records, OTHER, DartId(2))?;
    cycle_more(records, OTHER, DartId(3))?;
    if !third_more(records)? {
        return Ok(false);
    }
    Ok(are_ranked(records, a, b, c))
}

#[test]
fn faces_are_ranked_by_their_keys(rt: HostRuntime) -> Result<(), Fail> {
    let (a, b, c) = (point((0, 4, 1))?, point((2, 0, 1))?, point((2, 8, 1))?);
    let mut records = Records::new(rt.alloc())?;
    let right = faces_come(&mut records, a, b, c);
    drop(records);
    assert!(rt; right?);
    Ok(())
}
