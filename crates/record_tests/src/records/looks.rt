// Boundaries of faces, looked at with a counter of the test's own, by a looker that writes down the points that it saw.

ghost use Rattle.std.specs.Prelude.{◌≡◌, ◌<◌};
ghost use Rattle.slab_laws.specs.View.{HasFace};
ghost use Rattle.dcel_records.specs.SoundMaps.{IsSoundMap};
ghost use Rattle.arrangement.specs.Arranged.{arranged, IsWatched};
ghost use Rattle.record_tests.specs.Noted.{IsNoted, point_of};

use crate::records::squares::{at, dart, draw_squares, nothing};
use crate::shapes::Ends;
use arrangement::Arrangement;
use counted_looks::{BoundaryPart, Glance, Looker, look_at_boundary};
use dcel_records::Records;
use exact_plane::Point;
use slab_laws::{FaceId, Faced};
use std::alloc::Global;
use std::marker::Brand;
use std::sync::ledger::{Blank, Ledger};
use std::test::Fail;
use work_steps::Steps;

// The points of what was looked at, one for each look.
#[derive(Drop)]
struct Notes {
    points: Vec<Point>,
    // Whether there was no memory for one of them.
    lost: bool,
}

impl Notes {
    fn write(&mut self, point: Point)
        ensures noted { IsNoted self.new.lost self.new.points.items point }
        ensures still { (p : _) → IsNoted self.old.lost self.old.points.items p → IsNoted self.new.lost self.new.points.items p }
    {
        match self.points.push(point) {
            Ok(()) => {}
            Err(_) => self.lost = true,
        }
    }
}

impl<'a> Looker<Glance<'a>> for Notes {
    ghost use Rattle.std.specs.Prelude.{⊤};
    ghost use Rattle.record_tests.specs.Noted.{IsNoted, point_of};

    ghost may_look = { λ v k l. ⊤ };

    ghost has_seen = { λ v l t. IsNoted l.lost l.points.items (point_of v t) };

    fn look<L: Ledger>(&mut self, sight: &Glance<'a>, at: BoundaryPart, steps: &mut Steps<L>) {
        let looked = sight.look(at.spot(), steps);
        self.write(looked.source);
    }
}

fn look_round<L: Ledger>(blank: Blank, notes: &mut Notes, records: &Records, face: FaceId)
    requires name { blank.name ≡ L.name }
    requires parts { blank.parts ≡ L.parts }
    requires some { 0 < L.parts }
    requires map { IsSoundMap records.now }
    requires face { HasFace records.now.faces.tables face }
{
    let mut steps = Steps::<L>::new(blank);
    let glance = Glance::of(records);
    glance.laws();
    look_at_boundary(notes, &glance, face, &mut steps);
}

fn notes_of(alloc: Global, records: &Records, face: FaceId) -> Notes
    requires map { IsSoundMap records.now }
    requires face { HasFace records.now.faces.tables face }
{
    let mut notes = Notes {
        points: Vec::new(alloc),
        lost: false,
    };
    look_round::<Brand>(Blank::new(1), &mut notes, records, face);
    notes
}

// A dart of a boundary, and the points that are to be seen there, in the order of points: one for each dart, and one for the
// isolated vertex.
const BOUNDARIES: [(Ends, &[(i64, i64)]); 3] = [
    (
        (0, 0, 8, 0),
        &[
            (0, 0),
            (0, 8),
            (2, 2),
            (2, 4),
            (4, 2),
            (4, 4),
            (6, 6),
            (8, 0),
            (8, 8),
        ],
    ),
    ((8, 0, 0, 0), &[(0, 0), (0, 8), (8, 0), (8, 8)]),
    ((2, 2, 4, 2), &[(2, 2), (2, 4), (4, 2), (4, 4)]),
];

fn are_these(points: &[Point], wanted: &[(i64, i64)]) -> bool {
    for (place, (x, y)) in wanted.iter().enumerate() {
        if points.get(place).copied() != at(*x, *y) {
            return false;
        }
    }
    points.len() == wanted.len()
}

fn has_boundary(alloc: Global, records: &Records, way: Ends, wanted: &[(i64, i64)]) -> Option<bool>
    requires { IsSoundMap records.now }
{
    let there = dart(records, way)?;
    let face = records.face(records.cycle(there));
    let mut notes = notes_of(alloc, records, face);
    notes.points.sort_unstable();
    Some(!notes.lost && are_these(&notes.points, wanted))
}

fn are_boundaries(alloc: Global, records: &Records) -> bool
    requires { IsSoundMap records.now }
{
    for (way, wanted) in BOUNDARIES {
        if has_boundary(alloc, records, way, wanted) != Some(true) {
            return false;
        }
    }
    true
}

pub(crate) fn pin_between(layer: &mut Arrangement)
    requires watched { IsWatched (arranged Observer-dyn layer.old) }
{
    if let Some(point) = at(6, 6) {
        let _ = layer.pin(&point);
    }
}

#[test]
fn boundaries_are_seen_whole(rt: HostRuntime) -> Result<(), Fail> {
    let mut layer = nothing(rt.alloc())?;
    draw_squares(&mut layer);
    pin_between(&mut layer);
    let right = are_boundaries(rt.alloc(), layer.records());
    drop(layer);
    assert!(rt; right);
    Ok(())
}
