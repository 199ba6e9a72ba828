//! The cycles of numbers that follow one another.
ghost use Rattle.std.specs.Prelude.{◌≡◌, ◌+◌, ◌<◌, length, slice_index_or, IfOk, OnOk};
ghost use Rattle.dart_orbits.specs.Walks.{ArePermuted};
ghost use Rattle.region_rings.specs.Cycles.{ArePlaced, AreClosed, IsRingAdded, AreWalked, AreCycles};

use crate::tables::{number_at, set_number};
use no_memory::NoMemory;
use std::alloc::Global;

/// All numbers, those of a cycle one after another, and where each cycle ends.
#[derive(Drop)]
pub(crate) struct Cycles {
    pub(crate) order: Vec<usize>,
    pub(crate) ends: Vec<usize>,
}

// Adds the cycle of a number that has no place yet.
fn walk_ring(
    nexts: &[usize],
    places: &mut Vec<usize>,
    order: &mut Vec<usize>,
    first: usize,
) -> Result<(), NoMemory>
    requires nexts { ArePermuted nexts.now }
    requires placed { ArePlaced nexts.now order.old.items places.old.items }
    requires closed { AreClosed nexts.now order.old.items }
    requires first { first < length nexts.now }
    requires unmet { slice_index_or places.old.items first 0 ≡ length nexts.now }
    ensures { OnOk result (IsRingAdded nexts.now first order.old.items order.new.items places.new.items) }
{
    let mut number = first;
    'ring: while number_at(places, number) == nexts.len() {
        set_number(places, number, order.len());
        order.push(number)?;
        number = number_at(nexts, number);
    }
    Ok(())
}

// Adds the cycle of a number, unless it has its place.
fn add_ring(
    nexts: &[usize],
    places: &mut Vec<usize>,
    cycles: &mut Cycles,
    first: usize,
) -> Result<(), NoMemory>
    requires nexts { ArePermuted nexts.now }
    requires first { first < length nexts.now }
    requires walked { AreWalked nexts.now first places.old.items cycles.old.order.items cycles.old.ends.items }
    ensures { OnOk result (AreWalked nexts.now (first + 1) places.new.items cycles.new.order.items cycles.new.ends.items) }
{
    if number_at(places, first) != nexts.len() {
        return Ok(());
    }
    walk_ring(nexts, places, &mut cycles.order, first)?;
    cycles.ends.push(cycles.order.len())?;
    Ok(())
}

/// The cycles of numbers, each of which is followed by another and follows one only: each cycle from its least number on, and cycles
/// by these.
///
/// # Errors
///
/// There was no memory.
pub(crate) fn cycles_of(alloc: Global, nexts: &[usize]) -> Result<Cycles, NoMemory>
    requires { ArePermuted nexts.now }
    ensures { IfOk result (λ c. AreCycles nexts.now c.order.items c.ends.items) }
{
    let mut places = Vec::new(alloc);
    places.resize(nexts.len(), nexts.len())?;
    let mut cycles = Cycles {
        order: Vec::new(alloc),
        ends: Vec::new(alloc),
    };
    for first in 0..nexts.len() {
        add_ring(nexts, &mut places, &mut cycles, first)?;
    }
    Ok(cycles)
}
