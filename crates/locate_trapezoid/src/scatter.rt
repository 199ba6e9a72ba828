ghost use Rattle.std.specs.Prelude.{◌≡◌, ◌<◌, ◌≤◌, ◌↔◌, length, true, IfOk, OnOk};
ghost use Rattle.std.specs.List.{Contains};
ghost use Rattle.locate_trapezoid.specs.Scattered.{is_marked, IsTaken};

use crate::node::Test;
use no_memory::NoMemory;
use std::alloc::Global;

// Takes one of the tests into the order, unless it was taken before.
fn take(
    order: &mut Vec<Test>,
    marks: &mut Vec<bool>,
    tests: &[Test],
    at: usize,
) -> Result<(), NoMemory>
    requires at { at < length tests.now }
    requires taken { IsTaken tests.now marks.old.items order.old.items }
    ensures taken { OnOk result (IsTaken tests.now marks.new.items order.new.items) }
    ensures marked { OnOk result (is_marked marks.new.items at ≡ true) }
    ensures kept { OnOk result ((j : _) → is_marked marks.old.items j ≡ true → is_marked marks.new.items j ≡ true) }
{
    if marks[at] {
        return Ok(());
    }
    order.push(tests[at])?;
    marks[at] = true;
    Ok(())
}

// The next of a row of numbers that looks as if it were drawn by lot (Knuth, Sorting and Searching; the factor and the summand are his
// of MMIX).
fn drawn(number: u64) -> u64 {
    number
        .wrapping_mul(6364136223846793005)
        .wrapping_add(1442695040888963407)
}

// A place by the upper half of a number.
fn place_of(number: u64, count: usize) -> usize
    requires { 0 < count }
    ensures { result < count }
{
    (number >> 32) as usize % count
}

/// The same tests, each once for a place, in a scattered order: as many places as there are tests are drawn by numbers that look as if by
/// lot, the same ones each time that they begin with the same seed, and then those come that weren't drawn. So neighbours come far apart.
/// In their own order a row of edges would make a way as long as the row, and by even steps a grid makes one as long as its rows.
///
/// # Errors
///
/// There was no memory.
pub fn scattered(alloc: Global, tests: &[Test], seed: u64) -> Result<Vec<Test>, NoMemory>
    ensures { IfOk result (λ v. (t : _) → Contains v.items t ↔ Contains tests.now t) }
{
    let mut order = Vec::new(alloc);
    let mut marks = vec![in alloc; false; tests.len()]?;
    let mut number = seed;
    'draws: for _count in 0..tests.len() {
        number = drawn(number);
        take(&mut order, &mut marks, tests, place_of(number, tests.len()))?;
    }
    'rest: for place in 0..tests.len() {
        take(&mut order, &mut marks, tests, place)?;
    }
    Ok(order)
}
