// Which landmark a point has, and where points lie in a square with a hole, from landmarks that are built and forgotten.

ghost use Rattle.std.specs.Prelude.{◌≡◌, ◌<◌};
ghost use Rattle.dcel_records.specs.SoundMaps.{IsSoundMap};
ghost use Rattle.locate_landmarks.specs.Built.{IsBuiltFor};

use crate::records::squares::{at, dart, draw_squares, nothing};
use counted_looks::Glance;
use dcel_records::{Records, Spot};
use exact_plane::Point;
use locate_landmarks::{Landmarks, landmark_of};
use slab_laws::{FaceId, Faced};
use std::marker::Brand;
use std::sync::ledger::{Blank, Ledger};
use std::test::Fail;
use work_steps::Steps;

// A point, and its landmark; the first three have two that are equally near.
const NEAREST: [((i64, i64), (i64, i64)); 5] = [
    ((2_097_152, 0), (0, 0)),
    ((-2_097_152, 2_097_153), (-4_194_304, 4_194_304)),
    ((10_485_760, -10_485_760), (8_388_608, -12_582_912)),
    ((16_777_215, -16_777_215), (12_582_912, -12_582_912)),
    ((10_485_761, -10_485_759), (12_582_912, -8_388_608)),
];

fn has_landmark(place: (i64, i64), wanted: (i64, i64)) -> bool {
    let (x, y) = place;
    match at(x, y) {
        Some(point) => landmark_of(&point) == wanted,
        None => false,
    }
}

#[test]
fn nearest_landmarks_are_taken(rt: HostRuntime) -> Result<(), Fail> {
    for (point, wanted) in NEAREST {
        let right = has_landmark(point, wanted);
        assert!(rt; right);
    }
    Ok(())
}

fn spot_counted<L: Ledger>(
    blank: Blank,
    records: &Records,
    landmarks: &Landmarks,
    point: &Point,
) -> Spot
    requires name { blank.name ≡ L.name }
    requires parts { blank.parts ≡ L.parts }
    requires some { 0 < L.parts }
    requires map { IsSoundMap records.now }
    requires built { IsBuiltFor landmarks.now records.now.graph records.now.faces.tables }
{
    let mut steps = Steps::<L>::new(blank);
    landmarks.locate(&Glance::of(records), point, &mut steps)
}

fn spot_of(records: &Records, landmarks: &Landmarks, place: (i64, i64)) -> Option<Spot>
    requires map { IsSoundMap records.now }
    requires built { IsBuiltFor landmarks.now records.now.graph records.now.faces.tables }
{
    let (x, y) = place;
    let point = at(x, y)?;
    Some(spot_counted::<Brand>(Blank::new(1), records, landmarks, &point))
}

// Outside, between the squares, within the inner one, and on the edges of both.
fn are_found(records: &Records, landmarks: &Landmarks) -> Option<bool>
    requires map { IsSoundMap records.now }
    requires built { IsBuiltFor landmarks.now records.now.graph records.now.faces.tables }
{
    let outer = dart(records, (0, 0, 8, 0))?;
    let inner = dart(records, (2, 2, 4, 2))?;
    let between = records.face(records.cycle(outer));
    let within = records.face(records.cycle(inner));
    Some(
        spot_of(records, landmarks, (-1, 5)) == Some(Spot::Face(FaceId(0)))
            && spot_of(records, landmarks, (11_200_000, 11_200_000)) == Some(Spot::Face(FaceId(0)))
            && spot_of(records, landmarks, (1, 5)) == Some(Spot::Face(between))
            && spot_of(records, landmarks, (3, 3)) == Some(Spot::Face(within))
            && spot_of(records, landmarks, (3, 0)) == Some(Spot::Edge(outer))
            && spot_of(records, landmarks, (3, 2)) == Some(Spot::Edge(inner)),
    )
}

#[test]
fn points_are_found_from_landmarks(rt: HostRuntime) -> Result<(), Fail> {
    let mut layer = nothing(rt.alloc())?;
    draw_squares(&mut layer);
    let mut landmarks = Landmarks::new(rt.alloc());
    let records = layer.records();
    landmarks.build(records)?;
    let right = are_found(records, &landmarks) == Some(true);
    landmarks.forget();
    drop(layer);
    assert!(rt; right);
    Ok(())
}
