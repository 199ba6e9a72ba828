// The trapezoidal map, beside a look at all edges: in squares with vertical sides, one within the other, and an isolated vertex.

ghost use Rattle.std.specs.Prelude.{◌≡◌, ◌<◌};
ghost use Rattle.dcel_records.specs.SoundMaps.{IsSoundMap};
ghost use Rattle.locate_trapezoid.specs.Built.{IsBuiltFor};

use crate::records::looks::pin_between;
use crate::records::squares::{at, draw_squares, nothing};
use counted_looks::Glance;
use dcel_records::Records;
use locate_naive::locate;
use locate_trapezoid::Trapezoids;
use std::marker::Brand;
use std::sync::ledger::{Blank, Ledger};
use std::test::Fail;
use work_steps::Steps;

// Whether both ways answer the same for all whole points in and round the squares.
fn are_alike<L: Ledger>(blank: Blank, map: &Trapezoids, records: &Records) -> bool
    requires name { blank.name ≡ L.name }
    requires parts { blank.parts ≡ L.parts }
    requires some { 0 < L.parts }
    requires map { IsSoundMap records.now }
    requires built { IsBuiltFor records.now.graph map.now }
{
    let mut steps = Steps::<L>::new(blank);
    let glance = Glance::of(records);
    for x in -1..10 {
        for y in -1..10 {
            if let Some(point) = at(x, y) {
                if map.locate(&glance, &point, &mut steps) != locate(records, &point) {
                    return false;
                }
            }
        }
    }
    true
}

#[test]
fn a_search_graph_answers_as_all_edges_do(rt: HostRuntime) -> Result<(), Fail> {
    let mut layer = nothing(rt.alloc())?;
    draw_squares(&mut layer);
    pin_between(&mut layer);
    let mut map = Trapezoids::new();
    map.build(rt.alloc(), layer.records())?;
    let right = are_alike::<Brand>(Blank::new(1), &map, layer.records());
    let depth = map.depth();
    map.forget();
    let forgotten = !map.is_built();
    drop(layer);
    assert!(rt; right);
    assert!(rt; depth.is_some_and(|depth| depth > 2 && depth < 20));
    assert!(rt; forgotten);
    Ok(())
}
