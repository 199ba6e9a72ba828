ghost use Rattle.std.specs.Prelude.{◌≡◌, ◌<◌, ◌++◌, ◌∷◌, [], length, map, IfOk, OnOk};
ghost use Rattle.std.specs.List.Sorted.{IsPermutation};
ghost use Rattle.slab_laws.specs.Darts.{class};
ghost use Rattle.slab_laws.specs.Rows.{dart_rows};
ghost use Rattle.slab_laws.specs.Skeleton.{IsPlaneSkeleton};
ghost use Rattle.slab_laws.specs.SpansDrawn.{edge_of, drawn};
ghost use Rattle.exact_plane.specs.Span.{IsSpan};
ghost use Rattle.dart_orbits.specs.Ways.{row_in, span_of_row, way_at, ways_by, turn_cmp, way_cmp, dart_of_way, AreOnEdges, AreOnSpans};
ghost use Rattle.dart_orbits.specs.Around.{AreAround};

use edge_predicates::is_slanted;
use exact_plane::{Line, Point, Span, slope_order};
use no_memory::NoMemory;
use slab_laws::ListedDart;
use std::alloc::{AllocError, Global};
use std::cmp::Ordering;

// The way in which a dart goes out of its source.
#[derive(Clone, Copy)]
pub(crate) struct Way {
    pub(crate) source: usize,
    // In which quarter of the way round, clockwise from straight down: to the left, up, to the right, or down.
    pub(crate) quarter: u8,
    pub(crate) line: Line,
    pub(crate) dart: usize,
}

fn quarter(edge: &Span, forward: bool) -> u8
    ensures { result ≡ class (edge_of edge.now) forward }
{
    match (is_slanted(edge), forward) {
        (true, false) => 0,
        (false, true) => 1,
        (true, true) => 2,
        (false, false) => 3,
    }
}

fn way_of(edges: &[Span], darts: &[ListedDart], place: usize) -> Way
    requires dart { place < length darts.now }
    requires edge { (row_in darts.now place).edge < length edges.now }
    ensures way { result ≡ way_at edges.now darts.now place }
    ensures span { IsSpan (span_of_row edges.now (row_in darts.now place)) }
{
    let dart = darts[place];
    let edge = edges[dart.edge];
    edge.laws();
    Way {
        source: dart.source,
        quarter: quarter(&edge, dart.forward),
        line: edge.line(),
        dart: place,
    }
}

// On the left the way goes upwards, on the right downwards, so that steeper lines come first on both sides.
fn turn_order(first: &Way, second: &Way) -> Ordering
    ensures { result ≡ turn_cmp first.now second.now }
{
    let by_quarter = first.quarter.cmp(&second.quarter);
    let by_slope = slope_order(&second.line, &first.line);
    by_quarter.then(by_slope.then(first.dart.cmp(&second.dart)))
}

fn way_order(first: &Way, second: &Way) -> Ordering
    ensures { result ≡ way_cmp first.now second.now }
{
    match first.source.cmp(&second.source) {
        Ordering::Equal => turn_order(first, second),
        by_source => by_source,
    }
}

// Adds the ways round one vertex, in their order, to those round others, and leaves none.
fn add_turn(ways: &mut Vec<Way>, turn: &mut Vec<Way>) -> Result<(), NoMemory>
    ensures all { OnOk result (IsPermutation (ways.old.items ++ turn.old.items) ways.new.items) }
    ensures none { OnOk result (turn.new.items ≡ []) }
{
    turn.sort_unstable_by(|first, second| way_order(first, second));
    ways.append(turn)?;
    Ok(())
}

// Whether the ways are round another vertex than the source of this one. What a wrong answer costs is time alone.
fn is_round_another(turn: &[Way], way: &Way) -> bool {
    match turn {
        [first, ..] => first.source != way.source,
        [] => false,
    }
}

// Adds a way to the turn, after this has gone to the others where the way is round another vertex.
fn add_way(ways: &mut Vec<Way>, turn: &mut Vec<Way>, way: Way) -> Result<(), NoMemory>
    ensures { OnOk result (IsPermutation ((ways.old.items ++ turn.old.items) ++ way ∷ []) (ways.new.items ++ turn.new.items)) }
{
    if is_round_another(turn, &way) {
        add_turn(ways, turn)?;
    }
    turn.push(way)?;
    Ok(())
}

// The ways of all darts, those of darts that stand side by side in their order: since the darts go by their sources, few are left
// out of it.
fn ways_of(alloc: Global, edges: &[Span], darts: &[ListedDart]) -> Result<Vec<Way>, NoMemory>
    requires { AreOnEdges edges.now darts.now }
    ensures ways { IfOk result (λ v. IsPermutation (ways_by edges.now darts.now) v.items) }
    ensures spans { OnOk result (AreOnSpans edges.now darts.now) }
{
    let mut ways = Vec::with_capacity(alloc, darts.len())?;
    let mut turn = Vec::new(alloc);
    for place in 0..darts.len() {
        add_way(&mut ways, &mut turn, way_of(edges, darts, place))?;
    }
    add_turn(&mut ways, &mut turn)?;
    Ok(ways)
}

fn darts_along(alloc: Global, ways: &[Way]) -> Result<Vec<usize>, AllocError>
    ensures { IfOk result (λ v. v.items ≡ map dart_of_way ways.now) }
{
    ways.iter().map(|way| way.dart).collect(alloc)
}

/// The places of all darts, by their sources, those of one source clockwise from straight down (CGAL manual, circulator around a
/// vertex). Of the points only the contract speaks.
///
/// The darts are those of `darts_of` for these points and edges. The darts round each vertex are sorted by themselves, by whole
/// numbers and slopes, so that the sort of all finds them in order: n log n steps for n darts.
pub(crate) fn darts_around(
    alloc: Global,
    points: &[Point],
    edges: &[Span],
    darts: &[ListedDart],
) -> Result<Vec<usize>, NoMemory>
    requires plane { IsPlaneSkeleton (drawn points.now edges.now) }
    requires darts { darts.now ≡ dart_rows (drawn points.now edges.now) }
    ensures { IfOk result (λ v. AreAround (drawn points.now edges.now) v.items) }
{
    let mut ways = ways_of(alloc, edges, darts)?;
    ways.sort_unstable_by(|first, second| way_order(first, second));
    let places = darts_along(alloc, &ways)?;
    Ok(places)
}
