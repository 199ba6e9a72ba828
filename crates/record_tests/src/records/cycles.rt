// A square with a square hole: the cycles of its four boundaries, asked at records.

ghost use Rattle.slab_laws.specs.Sound.{IsGraphSound};

use crate::records::squares::{at, dart, draw_squares, nothing};
use crate::shapes::Ends;
use arrangement::Arrangement;
use boundary_cycles::{
    extent_of, is_clear_of, is_odd_beside, is_odd_beside_within, kind, least_dart, parity,
    parity_within,
};
use dcel_records::Records;
use slab_laws::CycleKind;
use std::test::Fail;

// One dart of each boundary: of the face between the squares, of the plane round both, of the hole from without, and of
// the face within it.
const BETWEEN: Ends = (0, 0, 8, 0);

const ROUND: Ends = (8, 0, 0, 0);

const HOLE: Ends = (4, 2, 2, 2);

const WITHIN: Ends = (2, 2, 4, 2);

const LEAST: [(Ends, Ends); 4] = [
    ((8, 8, 0, 8), BETWEEN),
    (ROUND, (0, 0, 0, 8)),
    ((4, 4, 4, 2), (2, 2, 2, 4)),
    ((4, 4, 2, 4), WITHIN),
];

const KINDS: [(Ends, CycleKind); 9] = [
    (BETWEEN, CycleKind::Outer),
    ((8, 0, 8, 8), CycleKind::Outer),
    ((8, 8, 0, 8), CycleKind::Outer),
    ((0, 8, 0, 0), CycleKind::Outer),
    (ROUND, CycleKind::Inner),
    ((0, 0, 0, 8), CycleKind::Inner),
    (HOLE, CycleKind::Inner),
    ((2, 2, 2, 4), CycleKind::Inner),
    (WITHIN, CycleKind::Outer),
];

// A dart of a cycle, a point, whether the cycle has an odd number of darts above it, and whether the cycle's abscissas
// leave the point clear.
const POINTS: [(Ends, (i64, i64), bool, bool); 11] = [
    (BETWEEN, (1, 1), true, false),
    (BETWEEN, (9, 1), false, true),
    (BETWEEN, (1, 9), false, false),
    (BETWEEN, (1, -1), false, false),
    (BETWEEN, (8, 4), true, false),
    (BETWEEN, (0, 4), false, false),
    (ROUND, (1, 1), true, false),
    (HOLE, (3, 3), true, false),
    (WITHIN, (3, 3), true, false),
    (WITHIN, (3, 1), false, false),
    (WITHIN, (1, 3), false, true),
];

// A dart of a cycle, another dart, and whether the cycle has an odd number of darts above the cell on its left.
const SIDES: [(Ends, Ends, bool); 12] = [
    (BETWEEN, HOLE, true),
    (BETWEEN, WITHIN, true),
    (BETWEEN, ROUND, false),
    (BETWEEN, (8, 8, 0, 8), true),
    (BETWEEN, (0, 8, 8, 8), false),
    (BETWEEN, (8, 0, 8, 8), true),
    (BETWEEN, (8, 8, 8, 0), false),
    (BETWEEN, (0, 0, 0, 8), false),
    (BETWEEN, (0, 8, 0, 0), true),
    (HOLE, BETWEEN, false),
    (HOLE, WITHIN, true),
    (WITHIN, HOLE, false),
];

fn has_least(records: &Records, way: Ends, least: Ends) -> Option<bool>
    requires { IsGraphSound records.now.graph }
{
    let dart_there = dart(records, way)?;
    let least_there = dart(records, least)?;
    Some(least_dart(records, dart_there) == least_there)
}

fn has_kind(records: &Records, way: Ends, wanted: CycleKind) -> Option<bool>
    requires { IsGraphSound records.now.graph }
{
    let dart_there = dart(records, way)?;
    Some(kind(records, dart_there) == wanted)
}

fn has_parity(
    records: &Records,
    way: Ends,
    place: (i64, i64),
    odd: bool,
    clear: bool,
) -> Option<bool>
    requires { IsGraphSound records.now.graph }
{
    let cycle = dart(records, way)?;
    let point = at(place.0, place.1)?;
    let extent = extent_of(records, cycle);
    Some(
        is_clear_of(&extent, &point) == clear
            && parity(records, cycle, &point) == odd
            && parity_within(records, cycle, &extent, &point) == odd,
    )
}

fn has_side(records: &Records, way: Ends, other: Ends, odd: bool) -> Option<bool>
    requires { IsGraphSound records.now.graph }
{
    let cycle = dart(records, way)?;
    let beside = dart(records, other)?;
    let extent = extent_of(records, cycle);
    Some(
        is_odd_beside(records, cycle, beside) == odd
            && is_odd_beside_within(records, cycle, &extent, beside) == odd,
    )
}

fn are_least(records: &Records) -> bool
    requires { IsGraphSound records.now.graph }
{
    for (way, least) in LEAST {
        if has_least(records, way, least) != Some(true) {
            return false;
        }
    }
    true
}

fn are_kinds(records: &Records) -> bool
    requires { IsGraphSound records.now.graph }
{
    for (way, wanted) in KINDS {
        if has_kind(records, way, wanted) != Some(true) {
            return false;
        }
    }
    true
}

fn are_parities(records: &Records) -> bool
    requires { IsGraphSound records.now.graph }
{
    for (way, place, odd, clear) in POINTS {
        if has_parity(records, way, place, odd, clear) != Some(true) {
            return false;
        }
    }
    true
}

fn are_sides(records: &Records) -> bool
    requires { IsGraphSound records.now.graph }
{
    for (way, other, odd) in SIDES {
        if has_side(records, way, other, odd) != Some(true) {
            return false;
        }
    }
    true
}

// Least darts, kinds, parities at points, and at darts.
fn answers(layer: &Arrangement) -> (bool, bool, bool, bool) {
    // The walks ask for sound records, which those of all arrangements are.
    layer.laws();
    let records = layer.records();
    (
        are_least(records),
        are_kinds(records),
        are_parities(records),
        are_sides(records),
    )
}

#[test]
fn cycles_of_a_square_with_a_hole(rt: HostRuntime) -> Result<(), Fail> {
    let mut layer = nothing(rt.alloc())?;
    draw_squares(&mut layer);
    let right = answers(&layer);
    drop(layer);
    assert!(rt; right == (true, true, true, true));
    Ok(())
}
