ghost use Rattle.std.specs.Prelude.{◌≡◌, nat_lt, map, IfOk};
ghost use Rattle.std.specs.List.{AllByRecursion};
ghost use Rattle.slab_laws.specs.Sound.{IsGraphSound};
ghost use Rattle.slab_laws.specs.View.{HasDart};
ghost use Rattle.arr_text.specs.Numbers.{AreNumbers, numbered_dart, numbered_darts, first_out, AreBySource};

use crate::numbers::number_of;
use arr_notes::dart_names;
use no_memory::NoMemory;
use slab_laws::{DartId, Darts};
use std::alloc::{AllocError, Global};

/// A dart with the numbers of its ends, by which it is ordered.
#[derive(Clone, Copy, PartialEq, Eq, PartialOrd, Ord)]
pub(crate) struct NumberedDart {
    pub(crate) source: usize,
    pub(crate) target: usize,
    pub(crate) name: DartId,
}

/// Whether the dart goes from the lower to the upper end of its edge.
pub(crate) fn goes_up(dart: &NumberedDart) -> bool
    ensures { result ≡ nat_lt dart.now.source dart.now.target }
{
    dart.source < dart.target
}

fn numbered<R: Darts>(records: &R, numbers: &[usize], name: DartId) -> NumberedDart
    requires sound { IsGraphSound (R.graph records.now) }
    requires numbers { AreNumbers (R.graph records.now) numbers.now }
    requires has { HasDart (R.graph records.now) name }
    ensures { result ≡ numbered_dart (R.graph records.now) name }
{
    NumberedDart {
        source: number_of(numbers, records.source(name)),
        target: number_of(numbers, records.target(name)),
        name,
    }
}

fn all_numbered<R: Darts>(
    alloc: Global,
    records: &R,
    numbers: &[usize],
    names: &[DartId],
) -> Result<Vec<NumberedDart>, NoMemory>
    requires sound { IsGraphSound (R.graph records.now) }
    requires numbers { AreNumbers (R.graph records.now) numbers.now }
    requires have { AllByRecursion (λ d. HasDart (R.graph records.now) d) names.now }
    ensures { IfOk result (λ v. v.items ≡ map (numbered_dart (R.graph records.now)) names.now) }
{
    let mut darts = Vec::new(alloc);
    for name in names {
        darts.push(numbered(records, numbers, *name))?;
    }
    Ok(darts)
}

/// All darts by source, then by target: vertices are numbered in the order of their points, so the numbers alone decide.
pub(crate) fn darts_by_number<R: Darts>(
    alloc: Global,
    records: &R,
    numbers: &[usize],
) -> Result<Vec<NumberedDart>, NoMemory>
    requires sound { IsGraphSound (R.graph records.now) }
    requires numbers { AreNumbers (R.graph records.now) numbers.now }
    ensures { IfOk result (λ v. v.items ≡ numbered_darts (R.graph records.now)) }
{
    let names = dart_names(alloc, records)?;
    let mut darts = all_numbered(alloc, records, numbers, &names)?;
    // No two darts have one source and one target, so the names never decide.
    darts.sort_unstable();
    Ok(darts)
}

/// The names of darts, in their order.
pub(crate) fn names_of(alloc: Global, darts: &[NumberedDart]) -> Result<Vec<DartId>, AllocError>
    ensures { IfOk result (λ v. v.items ≡ map (λ k. k.name) darts.now) }
{
    darts.iter().map(|dart| dart.name).collect(alloc)
}

fn starts_below(dart: &NumberedDart, number: usize) -> bool
    ensures { result ≡ nat_lt dart.now.source number }
{
    dart.source < number
}

/// The first of the darts that goes out of a vertex, by its number: the one with the least target. It takes about log n
/// comparisons among n darts.
pub(crate) fn first_out_of(darts: &[NumberedDart], number: usize) -> Option<DartId>
    requires { AreBySource darts.now }
    ensures { result ≡ first_out darts.now number }
{
    let place = darts.partition_point(|dart| starts_below(dart, number));
    match darts.get(place) {
        Some(dart) if dart.source == number => Some(dart.name),
        _ => None,
    }
}
