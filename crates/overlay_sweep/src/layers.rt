ghost use Rattle.std.specs.Prelude.{◌≡◌, ◌+◌, ◌<◌, ◌≤◌, ℕ, true, false, cond, length, slice_index_or, slice_set, None, IfOk};
ghost use Rattle.std.specs.List.Sorted.{IsPartitionPoint};
ghost use lib.Dec.{leb};
ghost use Rattle.exact_plane.specs.PointOrder.{point_cmp};
ghost use Rattle.plane_graphs.specs.Ascending.{IsAscending};
ghost use Rattle.slab_laws.specs.Rows.{dart_rows};
ghost use Rattle.slab_laws.specs.Skeleton.{IsPlaneSkeleton};
ghost use Rattle.slab_laws.specs.SpansDrawn.{drawn};
ghost use Rattle.dart_orbits.specs.Around.{source_placed, AreBySource};
ghost use Rattle.dart_orbits.specs.Orbits.{AreOrbits};
ghost use Rattle.dart_orbits.specs.Ways.{row_in};
ghost use Rattle.overlay_sweep.specs.Cuts.{StandsWith, IsCutAt};
ghost use Rattle.overlay_sweep.specs.EdgesUnder.{AreUnder};
ghost use Rattle.overlay_sweep.specs.LabelsAbove.{known_at, label_over, AreLabelsAbove, AreLabelsBefore, IsRoundOf, IsLabelUnder};

use crate::darts::forward_dart;
use crate::roots::edge_under;
use dart_orbits::Orbits;
use exact_plane::{Point, Span};
use no_memory::NoMemory;
use slab_laws::ListedDart;
use std::alloc::Global;
use sweep_graphs::EdgeEnds;

// The label above an edge, by the known one, if there is one, and by that below.
fn label_above(known: &[Option<usize>], edge: usize, below: usize) -> usize
    ensures { result ≡ label_over (known_at known.now edge) below }
{
    match known.get(edge) {
        Some(Some(label)) => *label,
        Some(None) | None => below,
    }
}

// The label at a place.
pub(crate) fn label_at(labels: &[usize], place: usize) -> usize
    requires { place < length labels.now }
    ensures { result ≡ slice_index_or labels.now place 0 }
{
    labels[place]
}

fn set_label(labels: &mut Vec<usize>, place: usize, label: usize)
    requires { place < length labels.old.items }
    ensures { labels.new.items ≡ slice_set labels.old.items place label }
{
    labels[place] = label;
}

fn place_at(around: &[usize], index: usize) -> usize
    requires { index < length around.now }
    ensures { result ≡ slice_index_or around.now index 0 }
{
    around[index]
}

// Labels what is above a dart that goes forward, by the label below, and gives what is below the next one.
fn label_dart(
    darts: &[ListedDart],
    known: &[Option<usize>],
    labels: &mut Vec<usize>,
    place: usize,
    below: usize,
) -> usize
    requires dart { place < length darts.now }
    requires counted { length labels.old.items ≡ length darts.now }
    ensures label { result ≡ cond (row_in darts.now place).forward (label_over (known_at known.now (row_in darts.now place).edge) below) below }
    ensures labels { labels.new.items ≡ cond (row_in darts.now place).forward (slice_set labels.old.items place result) labels.old.items }
{
    let dart = darts[place];
    if !dart.forward {
        return below;
    }
    let label = label_above(known, dart.edge, below);
    set_label(labels, place, label);
    label
}

// The label of what is directly below a vertex.
fn label_below(
    points: &[Point],
    edges: &[Span],
    orbits: &Orbits,
    below: &[Option<EdgeEnds>],
    known: &[Option<usize>],
    labels: &[usize],
    vertex: usize,
) -> usize
    requires plane { IsPlaneSkeleton (drawn points.now edges.now) }
    requires ascend { IsAscending point_cmp points.now }
    requires orbits { AreOrbits (drawn points.now edges.now) orbits.now }
    requires below { AreUnder (drawn points.now edges.now) below.now }
    requires vertex { vertex < length points.now }
    requires labels { AreLabelsBefore (drawn points.now edges.now) known.now vertex labels.now }
    ensures { IsLabelUnder (drawn points.now edges.now) known.now below.now vertex result }
{
    match edge_under(below, vertex) {
        Some(edge) => label_at(labels, forward_dart(points, edges, &orbits.darts, &edge)),
        None => 0,
    }
}

// Labels what is above the darts out of a vertex, from the lowest up.
fn label_round(
    points: &[Point],
    edges: &[Span],
    orbits: &Orbits,
    below: &[Option<EdgeEnds>],
    known: &[Option<usize>],
    labels: &mut Vec<usize>,
    vertex: usize,
    from: usize,
    to: usize,
)
    requires plane { IsPlaneSkeleton (drawn points.now edges.now) }
    requires ascend { IsAscending point_cmp points.now }
    requires orbits { AreOrbits (drawn points.now edges.now) orbits.now }
    requires below { AreUnder (drawn points.now edges.now) below.now }
    requires vertex { vertex < length points.now }
    requires round { IsRoundOf (drawn points.now edges.now) orbits.now.around.items vertex from to }
    requires labels { AreLabelsBefore (drawn points.now edges.now) known.now vertex labels.old.items }
    ensures { AreLabelsBefore (drawn points.now edges.now) known.now (vertex + 1) labels.new.items }
{
    let mut label = label_below(points, edges, orbits, below, known, labels, vertex);
    let mut index = to;
    'turn: while index > from {
        index -= 1;
        let place = place_at(&orbits.around, index);
        label = label_dart(&orbits.darts, known, labels, place, label);
    }
}

fn source_of(darts: &[ListedDart], place: usize) -> usize
    ensures { result ≡ (row_in darts.now place).source }
{
    match darts.get(place) {
        Some(dart) => dart.source,
        None => 0,
    }
}

// Whether the source of a dart comes no later than a vertex.
fn is_upto(darts: &[ListedDart], place: usize, vertex: usize) -> bool
    ensures { result ≡ leb (row_in darts.now place).source vertex }
{
    source_of(darts, place) <= vertex
}

fn stands_upto(darts: &[ListedDart], around: &[usize], index: usize, vertex: usize) -> bool
    ensures { result ≡ true → StandsWith (λ k. leb (row_in darts.now k).source vertex) true around.now index }
{
    match around.get(index) {
        Some(place) => is_upto(darts, *place, vertex),
        None => false,
    }
}

fn stands_beyond(darts: &[ListedDart], around: &[usize], index: usize, vertex: usize) -> bool
    ensures { result ≡ true → StandsWith (λ k. leb (row_in darts.now k).source vertex) false around.now index }
{
    match around.get(index) {
        Some(place) => !is_upto(darts, *place, vertex),
        None => false,
    }
}

// Whether those of sources up to the vertex end just before the index. Where none is, or all are, it says no.
fn is_cut(darts: &[ListedDart], around: &[usize], index: usize, vertex: usize) -> bool
    ensures { result ≡ true → IsCutAt (λ k. leb (row_in darts.now k).source vertex) around.now index }
{
    if index == 0 {
        return false;
    }
    if !stands_upto(darts, around, index - 1, vertex) {
        return false;
    }
    stands_beyond(darts, around, index, vertex)
}

// How many stand first and have sources up to the vertex.
fn count_first(darts: &[ListedDart], around: &[usize], vertex: usize) -> usize {
    around
        .iter()
        .take_while(|place| is_upto(darts, **place, vertex))
        .count()
}

// Where those of sources up to the vertex end, which should be soon after the index; else by one search.
fn end_upto(darts: &[ListedDart], around: &[usize], index: usize, vertex: usize) -> usize
    requires { AreBySource darts.now around.now }
    ensures within { result ≤ length around.now }
    ensures cut { IsPartitionPoint (λ k. leb (row_in darts.now k).source vertex ≡ true) (λ k. leb (row_in darts.now k).source vertex ≡ false) around.now result }
{
    let (_, rest) = around.split_at(index.min(around.len()));
    let end = index.saturating_add(count_first(darts, rest, vertex));
    if is_cut(darts, around, end, vertex) {
        return end;
    }
    around.partition_point(|place| is_upto(darts, *place, vertex))
}

// How many darts round their sources have one up to a vertex: those up to the index, and the next ones.
fn count_upto(darts: &[ListedDart], around: &[usize], index: usize, vertex: usize) -> usize
    requires { AreBySource darts.now around.now }
    ensures within { result ≤ length around.now }
    ensures upto { (i : ℕ) → i < result → source_placed darts.now around.now i ≤ vertex }
    ensures beyond { (i : ℕ) → result ≤ i → i < length around.now → vertex < source_placed darts.now around.now i }
{
    end_upto(darts, around, index, vertex)
}

/// Of each dart that goes forward the label of the face above it, from what is known above some edges: over any other edge the label
/// is the same on both sides, and the unbounded face has label 0. One search for each vertex, and each dart is met once.
///
/// The darts are those of `orbits_of` for these points and edges, of each vertex the edge below it is known, and of each edge, by its
/// place, the label above it where it is known.
///
/// # Errors
///
/// There was no memory.
pub fn labels_above(
    alloc: Global,
    points: &[Point],
    edges: &[Span],
    orbits: &Orbits,
    below: &[Option<EdgeEnds>],
    known: &[Option<usize>],
) -> Result<Vec<usize>, NoMemory>
    requires plane { IsPlaneSkeleton (drawn points.now edges.now) }
    requires ascend { IsAscending point_cmp points.now }
    requires orbits { AreOrbits (drawn points.now edges.now) orbits.now }
    requires below { AreUnder (drawn points.now edges.now) below.now }
    ensures { IfOk result (λ v. AreLabelsAbove (drawn points.now edges.now) known.now v.items) }
{
    let mut labels = Vec::new(alloc);
    labels.resize(orbits.darts.len(), 0)?;
    let mut from = 0;
    for vertex in 0..points.len() {
        let to = count_upto(&orbits.darts, &orbits.around, from, vertex);
        label_round(
            points,
            edges,
            orbits,
            below,
            known,
            &mut labels,
            vertex,
            from,
            to,
        );
        from = to;
    }
    Ok(labels)
}
