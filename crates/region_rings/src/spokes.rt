//! The ends of darts in their order round the vertices.
ghost use Rattle.std.specs.Prelude.{◌≡◌, ◌≤◌, ◌<◌, ◌*◌, ◌^◌, ◌-ℤ◌, ◌*ℤ◌, pos, neg_ℤ, unsigned_abs, IfOk, IfErr};
ghost use Rattle.exact_plane.specs.declared.bounds.TheConstants.{MAX_COORDINATE, WEIGHT_LIMIT};
ghost use Rattle.exact_plane.specs.PointOrder.{weight};
ghost use Rattle.rotation_order.specs.Directions.{quarter};
ghost use Rattle.polygon_sets.specs.ClosedBorders.{way};
ghost use Rattle.region_rings.specs.Closed.{IsErrorOf};
ghost use Rattle.region_rings.specs.Spokes.{rise, spoke, spokes_by, turn_cmp, spoke_cmp, AreSpokes};

use crate::errors::RingsError;
use crate::ratios::ratio_order;
use exact_plane::Point;
use no_memory::NoMemory;
use std::alloc::Global;
use std::cmp::Ordering;

// One end of a dart, and the way in which the dart leads from there.
#[derive(Clone, Copy)]
pub(crate) struct Spoke {
    // The vertex.
    pub(crate) at: Point,
    // In which quarter of the way round, clockwise from straight down: to the left, up, to the right, or down.
    pub(crate) quarter: u8,
    // How far the way rises, to the left or to the right, where its run is so far. A vertical one has neither.
    pub(crate) rise: i128,
    pub(crate) run: u128,
    // Whether the dart goes out of the vertex. If not, it comes in.
    pub(crate) is_out: bool,
    pub(crate) dart: usize,
}

// How far one coordinate is beyond another, times both weights.
fn beyond(to: i128, v: i128, from: i128, w: i128) -> i128
    requires to { unsigned_abs to ≤ MAX_COORDINATE * WEIGHT_LIMIT }
    requires from { unsigned_abs from ≤ MAX_COORDINATE * WEIGHT_LIMIT }
    requires v { unsigned_abs v < WEIGHT_LIMIT }
    requires w { unsigned_abs w < WEIGHT_LIMIT }
    ensures value { result ≡ to *ℤ v -ℤ from *ℤ w }
    ensures small { unsigned_abs result < 2 ^ 127 }
{
    to * v - from * w
}

fn quarter(x: i128, y: i128) -> u8
    ensures { result ≡ quarter (record { x = x; y = y }) }
{
    match x.cmp(&0) {
        Ordering::Less => 0,
        Ordering::Greater => 2,
        Ordering::Equal => { if y < 0 { 3 } else { 1 } }
    }
}

fn rise(x: i128, y: i128) -> i128
    requires { unsigned_abs y < 2 ^ 127 }
    ensures { result ≡ rise (record { x = x; y = y }) }
{
    match x.cmp(&0) {
        Ordering::Less => -y,
        Ordering::Equal => 0,
        Ordering::Greater => y,
    }
}

/// The way from one point to another: how far it runs to the right, and how far it rises, times both weights.
pub(crate) fn way_to(at: &Point, to: &Point) -> (i128, i128)
    ensures run { result.0 ≡ (way at.now to.now).x }
    ensures rise { result.1 ≡ (way at.now to.now).y }
    ensures small { unsigned_abs result.1 < 2 ^ 127 }
{
    at.laws();
    to.laws();
    (
        beyond(to.x(), at.w(), at.x(), to.w()),
        beyond(to.y(), at.w(), at.y(), to.w()),
    )
}

/// The end of a dart at a point, from which it leads to another, or comes.
pub(crate) fn spoke_to(at: &Point, to: &Point, is_out: bool, dart: usize) -> Spoke
    ensures { result ≡ spoke at.now to.now is_out dart }
{
    let (x, y) = way_to(at, to);
    Spoke {
        at: *at,
        quarter: quarter(x, y),
        rise: rise(x, y),
        run: x.unsigned_abs(),
        is_out,
        dart,
    }
}

// What a run counts as where a rise is divided by it.
fn weight_of(run: u128) -> u128
    ensures { pos result ≡ weight (pos run) }
{
    if run == 0 { 1 } else { run }
}

/// Which of two ways from one vertex is met first, clockwise from straight down, which is met last.
pub(crate) fn turn_order(first: &Spoke, second: &Spoke) -> Ordering
    ensures { result ≡ turn_cmp first.now second.now }
{
    let by_quarter = first.quarter.cmp(&second.quarter);
    let by_slope = ratio_order(
        second.rise,
        weight_of(second.run),
        first.rise,
        weight_of(first.run),
    );
    by_quarter.then(by_slope)
}

fn spoke_order(first: &Spoke, second: &Spoke) -> Ordering
    ensures { result ≡ spoke_cmp first.now second.now }
{
    first.at.cmp(&second.at).then(turn_order(first, second))
}

// Both ends of all darts.
fn ends_of(alloc: Global, darts: &[(Point, Point)]) -> Result<Vec<Spoke>, NoMemory>
    ensures { IfOk result (λ v. v.items ≡ spokes_by darts.now) }
{
    let mut spokes = Vec::new(alloc);
    for (dart, (source, target)) in darts.iter().enumerate() {
        spokes.push(spoke_to(source, target, true, dart))?;
    }
    for (dart, (source, target)) in darts.iter().enumerate() {
        spokes.push(spoke_to(target, source, false, dart))?;
    }
    Ok(spokes)
}

/// Both ends of all darts, by vertex, and round each vertex clockwise from straight down.
///
/// # Errors
///
/// Two ends at one vertex lead in one direction, or there was no memory.
pub(crate) fn sorted_spokes(
    alloc: Global,
    darts: &[(Point, Point)],
) -> Result<Vec<Spoke>, RingsError>
    ensures spokes { IfOk result (λ v. AreSpokes darts.now v.items) }
    ensures error { IfErr result (IsErrorOf darts.now) }
{
    let mut spokes = ends_of(alloc, darts)?;
    spokes.sort_unstable_by(|first, second| spoke_order(first, second));
    if !spokes.is_sorted_by(|first, second| spoke_order(first, second).is_lt()) {
        return Err(RingsError::NotClosed);
    }
    Ok(spokes)
}
