// The zones of paths of three sides: bow ties in the empty plane, across an edge, along one and between two squares, and sides that
// overlap.

ghost use Rattle.std.specs.Prelude.{◌≡◌, ◌<◌};
ghost use Rattle.arrangement.specs.Arranged.{arranged, IsWatched};
ghost use Rattle.dcel_records.specs.SoundMaps.{IsSoundMap};

use crate::records::squares::{at, draw, draw_squares, nothing};
use crate::shapes::{Ends, segment};
use arrangement::Arrangement;
use dcel_records::{Records, Spot};
use exact_plane::Segment;
use locate_naive::locate;
use no_memory::NoMemory;
use path_zone::{PathPlan, path_zone};
use std::alloc::Global;
use std::marker::Brand;
use std::sync::ledger::{Blank, Ledger};
use std::test::Fail;
use work_steps::Steps;
use zone_walk::Meeting;

// The zone, with a counter of the test's own.
fn zone_counted<L: Ledger>(
    blank: Blank,
    alloc: Global,
    records: &Records,
    sides: &[Segment; 3],
) -> Result<PathPlan, NoMemory>
    requires name { blank.name ≡ L.name }
    requires parts { blank.parts ≡ L.parts }
    requires some { 0 < L.parts }
    requires map { IsSoundMap records.now }
{
    let starts = [
        locate(records, &sides[0].lower()),
        locate(records, &sides[1].lower()),
        locate(records, &sides[2].lower()),
    ];
    let mut steps = Steps::<L>::new(blank);
    path_zone(alloc, records, sides, &starts, &mut steps)
}

// Where a point is to lie.
#[derive(Clone, Copy)]
enum Place {
    Vertex,
    Edge,
    // In the face in which the probe lies.
    Face,
}

fn is_met(meeting: &Meeting, wanted: (i64, i64, Place), face: Spot) -> bool {
    let (x, y, place) = wanted;
    let is_there = match place {
        Place::Vertex => matches!(meeting.spot, Spot::Vertex(_)),
        Place::Edge => matches!(meeting.spot, Spot::Edge(_)),
        Place::Face => meeting.spot == face,
    };
    is_there && at(x, y) == Some(meeting.point)
}

// Whether the sides between neighbouring points have just these meetings.
fn has_zone(
    alloc: Global,
    records: &Records,
    points: [(i64, i64); 4],
    probe: (i64, i64),
    wanted: &[(i64, i64, Place)],
) -> Result<bool, Fail>
    requires { IsSoundMap records.now }
{
    let [(x1, y1), (x2, y2), (x3, y3), (x4, y4)] = points;
    let sides = [
        segment((x1, y1, x2, y2))?,
        segment((x2, y2, x3, y3))?,
        segment((x3, y3, x4, y4))?,
    ];
    let Some(inside) = at(probe.0, probe.1) else {
        return Ok(false);
    };
    let face = locate(records, &inside);
    let plan = zone_counted::<Brand>(Blank::new(1), alloc, records, &sides)?;
    let meetings = plan.vertices();
    Ok(
        meetings.len() == wanted.len()
            && meetings
                .iter()
                .zip(wanted.iter())
                .all(|(meeting, wanted)| is_met(meeting, *wanted, face)),
    )
}

// The first and the last side cross away from all ends.
#[test]
fn sides_cross_in_the_empty_plane(rt: HostRuntime) -> Result<(), Fail> {
    let layer = nothing(rt.alloc())?;
    let right = has_zone(
        rt.alloc(),
        layer.records(),
        [(0, 0), (2, 2), (2, 0), (0, 2)],
        (9, 9),
        &[
            (0, 0, Place::Face),
            (0, 2, Place::Face),
            (1, 1, Place::Face),
            (2, 0, Place::Face),
            (2, 2, Place::Face),
        ],
    );
    drop(layer);
    assert!(rt; right?);
    Ok(())
}

// The edge parts the bow tie aside of the crossing.
#[test]
fn sides_cross_beside_an_edge(rt: HostRuntime) -> Result<(), Fail> {
    let mut layer = nothing(rt.alloc())?;
    draw(&mut layer, (1, -1, 1, 5));
    let right = has_zone(
        rt.alloc(),
        layer.records(),
        [(0, 0), (4, 4), (4, 0), (0, 4)],
        (9, 9),
        &[
            (0, 0, Place::Face),
            (0, 4, Place::Face),
            (1, 1, Place::Edge),
            (1, 3, Place::Edge),
            (2, 2, Place::Face),
            (4, 0, Place::Face),
            (4, 4, Place::Face),
        ],
    );
    drop(layer);
    assert!(rt; right?);
    Ok(())
}

// The first side lies along the edge, and the last one crosses it there.
#[test]
fn sides_cross_on_an_edge(rt: HostRuntime) -> Result<(), Fail> {
    let mut layer = nothing(rt.alloc())?;
    draw(&mut layer, (0, 0, 4, 4));
    let right = has_zone(
        rt.alloc(),
        layer.records(),
        [(0, 0), (4, 4), (4, 0), (0, 4)],
        (9, 9),
        &[
            (0, 0, Place::Vertex),
            (0, 4, Place::Face),
            (2, 2, Place::Edge),
            (4, 0, Place::Face),
            (4, 4, Place::Vertex),
        ],
    );
    drop(layer);
    assert!(rt; right?);
    Ok(())
}

// The bow tie lies in the face between the two squares.
#[test]
fn sides_cross_in_a_face(rt: HostRuntime) -> Result<(), Fail> {
    let mut layer = nothing(rt.alloc())?;
    draw_squares(&mut layer);
    let right = has_zone(
        rt.alloc(),
        layer.records(),
        [(5, 5), (7, 7), (7, 5), (5, 7)],
        (1, 1),
        &[
            (5, 5, Place::Face),
            (5, 7, Place::Face),
            (6, 6, Place::Face),
            (7, 5, Place::Face),
            (7, 7, Place::Face),
        ],
    );
    drop(layer);
    assert!(rt; right?);
    Ok(())
}

// The path goes back over its first side twice, and ends inside it.
#[test]
fn sides_overlap(rt: HostRuntime) -> Result<(), Fail> {
    let layer = nothing(rt.alloc())?;
    let right = has_zone(
        rt.alloc(),
        layer.records(),
        [(0, 0), (4, 0), (1, 0), (3, 0)],
        (9, 9),
        &[
            (0, 0, Place::Face),
            (1, 0, Place::Face),
            (3, 0, Place::Face),
            (4, 0, Place::Face),
        ],
    );
    drop(layer);
    assert!(rt; right?);
    Ok(())
}
