ghost use Rattle.std.specs.Prelude.{◌≡◌, ◌+◌, ◌<◌, ℕ, length, slice_index_or, IfOk};
ghost use Rattle.slab_laws.specs.Rows.{dart_rows, twin_places, next_places};
ghost use Rattle.slab_laws.specs.Skeleton.{IsPlaneSkeleton};
ghost use Rattle.slab_laws.specs.SpansDrawn.{drawn};
ghost use Rattle.dart_orbits.specs.DartRows.{place_after};
ghost use Rattle.dart_orbits.specs.Ways.{row_in};
ghost use Rattle.dart_orbits.specs.Around.{source_placed, AreAround, AreBySource, IsNextBeside, IsFirstPlaced, IsFirstAround, AreAfters};

use crate::tables::{number_at, set_number};
use exact_plane::{Point, Span};
use no_memory::NoMemory;
use slab_laws::ListedDart;
use std::alloc::Global;

fn source_at(darts: &[ListedDart], place: usize) -> usize
    ensures { result ≡ (row_in darts.now place).source }
{
    match darts.get(place) {
        Some(dart) => dart.source,
        None => 0,
    }
}

// The dart after the one at an index, where it has the same source.
fn next_beside(darts: &[ListedDart], around: &[usize], index: usize) -> Option<usize>
    requires { index < length around.now }
    ensures { IsNextBeside darts.now around.now index result }
{
    let next = *around.get(index + 1)?;
    if source_at(darts, next) == source_at(darts, around[index]) {
        Some(next)
    } else {
        None
    }
}

// The first dart out of a vertex that some dart leaves.
fn first_of(darts: &[ListedDart], around: &[usize], source: usize) -> usize
    requires sources { AreBySource darts.now around.now }
    requires some { (i : ℕ) × (i < length around.now) × (source_placed darts.now around.now i ≡ source) }
    ensures { IsFirstPlaced darts.now around.now source result }
{
    let first = around.partition_point(|place| source_at(darts, *place) < source);
    around[first]
}

/// The first dart clockwise, from straight down on, out of a dart's source (CGAL manual, circulator around a vertex). The darts
/// round their sources are those of `Orbits::around`; one search.
pub fn first_around(
    points: &[Point],
    edges: &[Span],
    darts: &[ListedDart],
    around: &[usize],
    dart: usize,
) -> usize
    requires plane { IsPlaneSkeleton (drawn points.now edges.now) }
    requires darts { darts.now ≡ dart_rows (drawn points.now edges.now) }
    requires around { AreAround (drawn points.now edges.now) around.now }
    requires dart { dart < length darts.now }
    ensures { IsFirstAround (drawn points.now edges.now) dart result }
{
    first_of(darts, around, source_at(darts, dart))
}

// The first dart out of the source of the dart at an index, where that of the one before it is known.
fn first_from(darts: &[ListedDart], around: &[usize], index: usize, before: usize) -> usize
    requires sources { AreBySource darts.now around.now }
    requires index { index < length around.now }
    requires before { (i : ℕ) → index ≡ i + 1 → IsFirstPlaced darts.now around.now (source_placed darts.now around.now i) before }
    ensures { IsFirstPlaced darts.now around.now (source_placed darts.now around.now index) result }
{
    if index == 0 {
        return around[index];
    }
    if source_at(darts, around[index - 1]) == source_at(darts, around[index]) {
        return before;
    }
    around[index]
}

// The dart that follows clockwise round its source the one at an index. The first one out of that source is known.
fn after_at(
    points: &[Point],
    edges: &[Span],
    darts: &[ListedDart],
    around: &[usize],
    index: usize,
    first: usize,
) -> usize
    requires plane { IsPlaneSkeleton (drawn points.now edges.now) }
    requires darts { darts.now ≡ dart_rows (drawn points.now edges.now) }
    requires around { AreAround (drawn points.now edges.now) around.now }
    requires index { index < length around.now }
    requires first { IsFirstPlaced darts.now around.now (source_placed darts.now around.now index) first }
    ensures { result ≡ place_after (drawn points.now edges.now) (slice_index_or around.now index 0) }
{
    match next_beside(darts, around, index) {
        Some(next) => next,
        None => first,
    }
}

// Of each dart the one that follows it clockwise round its source.
fn afters_of(
    alloc: Global,
    points: &[Point],
    edges: &[Span],
    darts: &[ListedDart],
    around: &[usize],
) -> Result<Vec<usize>, NoMemory>
    requires plane { IsPlaneSkeleton (drawn points.now edges.now) }
    requires darts { darts.now ≡ dart_rows (drawn points.now edges.now) }
    requires around { AreAround (drawn points.now edges.now) around.now }
    ensures { IfOk result (λ v. AreAfters (drawn points.now edges.now) v.items) }
{
    let mut afters = Vec::new(alloc);
    afters.resize(darts.len(), 0)?;
    let mut first = 0;
    for index in 0..around.len() {
        first = first_from(darts, around, index, first);
        let after = after_at(points, edges, darts, around, index, first);
        set_number(&mut afters, around[index], after);
    }
    Ok(afters)
}

/// Of each dart the place of the dart that follows on its cycle: the first clockwise after the twin, out of the target
/// (CGAL manual, next halfedge of a boundary).
///
/// The darts and their twins are those of `darts_of` and `twins_of` for these points and edges, and round their sources those of
/// `darts_around`. In that list the follower is the neighbour, or, for the last one of a source, the first one of it, which is
/// known from where its darts began.
pub(crate) fn nexts_around(
    alloc: Global,
    points: &[Point],
    edges: &[Span],
    darts: &[ListedDart],
    twins: &[usize],
    around: &[usize],
) -> Result<Vec<usize>, NoMemory>
    requires plane { IsPlaneSkeleton (drawn points.now edges.now) }
    requires darts { darts.now ≡ dart_rows (drawn points.now edges.now) }
    requires twins { twins.now ≡ twin_places (drawn points.now edges.now) }
    requires around { AreAround (drawn points.now edges.now) around.now }
    ensures { IfOk result (λ v. v.items ≡ next_places (drawn points.now edges.now)) }
{
    let afters = afters_of(alloc, points, edges, darts, around)?;
    let mut nexts = Vec::with_capacity(alloc, twins.len())?;
    for twin in twins {
        nexts.push(number_at(&afters, *twin))?;
    }
    Ok(nexts)
}
