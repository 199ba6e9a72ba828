// What one look at a cycle tells of where it lies.

ghost use Rattle.std.specs.Prelude.{◌≡◌, ◌<◌};
ghost use Rattle.slab_laws.specs.View.{HasCycle};
ghost use Rattle.dcel_records.specs.SoundMaps.{IsSoundMap};

use crate::records::squares::{dart, draw_squares, nothing};
use counted_looks::Glance;
use dcel_records::Records;
use exact_plane::{BoundingBox, WholeParts};
use slab_laws::{CycleId, Faced};
use std::marker::Brand;
use std::sync::ledger::{Blank, Ledger};
use std::test::Fail;
use work_steps::Steps;

// Whether a cycle's box is beyond one side of another one.
fn is_outside<L: Ledger>(
    blank: Blank,
    records: &Records,
    cycle: CycleId,
    bounds: &BoundingBox,
) -> bool
    requires name { blank.name ≡ L.name }
    requires parts { blank.parts ≡ L.parts }
    requires some { 0 < L.parts }
    requires map { IsSoundMap records.now }
    requires cycle { HasCycle records.now.faces.tables cycle }
{
    let mut steps = Steps::<L>::new(blank);
    Glance::of(records)
        .glimpse_cycle(cycle, &mut steps)
        .is_outside(bounds)
}

// Boxes by their least and greatest numbers, and whether a square from (2, 2) to (4, 4) is beyond one side of each.
const BOXES: [(i32, i32, i32, i32, bool); 6] = [
    (5, 0, 8, 8, true),
    (0, 0, 1, 8, true),
    (0, 5, 8, 8, true),
    (0, 0, 8, 1, true),
    (4, 4, 8, 8, false),
    (3, 3, 3, 3, false),
];

fn are_told(records: &Records) -> Option<bool>
    requires { IsSoundMap records.now }
{
    let cycle = records.cycle(dart(records, (2, 2, 4, 2))?);
    for (left, low, right, high, outside) in BOXES {
        let bounds = BoundingBox {
            least: WholeParts { x: left, y: low },
            greatest: WholeParts { x: right, y: high },
        };
        if is_outside::<Brand>(Blank::new(1), records, cycle, &bounds) != outside {
            return Some(false);
        }
    }
    Some(true)
}

#[test]
fn a_look_at_a_cycle_tells_its_box(rt: HostRuntime) -> Result<(), Fail> {
    let mut layer = nothing(rt.alloc())?;
    draw_squares(&mut layer);
    let right = are_told(layer.records()) == Some(true);
    drop(layer);
    assert!(rt; right);
    Ok(())
}
