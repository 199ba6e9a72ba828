ghost use Rattle.std.specs.Prelude.{◌≡◌, ◌≢◌, ◌==◌, cond, OnOk};
ghost use Rattle.slab_laws.specs.Tables.{names, NamesAscend};
ghost use Rattle.slab_laws.specs.View.{HasDart, next_in};
ghost use Rattle.arr_notes.specs.Step.{followed};
ghost use Rattle.mirror_observer.specs.Tables.{darts_of, led_from, linked, unlinked, parted, merged};
ghost use Rattle.mirror_observer.specs.Standing.{IsBackLinked};

use crate::darts::{
    follow, forget, keep, line_of, next_of, precede, previous_of, redirect, source_of, start_at,
    twin_of,
};
use crate::tables::DartEntry;
use exact_plane::Line;
use no_memory::NoMemory;
use slab_laws::{DartId, VertexId};
use std::collections::BTreeMap;

// The first dart where the test holds, and else the second.
fn either(test: bool, first: DartId, second: DartId) -> DartId
    ensures { result ≡ cond test first second }
{
    if test { first } else { second }
}

fn is_same(d: DartId, e: DartId) -> bool
    ensures { result ≡ (d.0 == e.0) }
{
    d == e
}

// The dart before a new dart out at an end: the one that comes in before the place, or, at a bare end, the new dart that comes back.
fn leads(darts: &BTreeMap<usize, DartEntry>, at: Option<DartId>, back: DartId) -> DartId
    ensures { result ≡ led_from (darts_of darts.now.entries) at back }
{
    match at {
        Some(place) => twin_of(darts, place),
        None => back,
    }
}

// The dart that follows the one that comes back: the one after the place, or, at a bare end, the new dart out.
fn follows(darts: &BTreeMap<usize, DartEntry>, at: Option<DartId>, out: DartId) -> DartId
    ensures { result ≡ followed (darts_of darts.now.entries) at out }
{
    match at {
        Some(place) => next_of(darts, twin_of(darts, place)),
        None => out,
    }
}

/// An end of a new edge: a vertex, and the dart out of it directly before the new one clockwise.
#[derive(Clone, Copy)]
pub(crate) struct End {
    pub(crate) vertex: VertexId,
    pub(crate) place: Option<DartId>,
}

// One edge more: `d` from the start to the finish, and its twin `m`.
pub(crate) fn link(
    darts: &mut BTreeMap<usize, DartEntry>,
    d: DartId,
    m: DartId,
    start: End,
    finish: End,
    line: Line,
) -> Result<(), NoMemory>
    ensures { OnOk result (darts.new.entries ≡ linked darts.old.entries d m start.vertex finish.vertex start.place finish.place line) }
{
    let before_d = leads(darts, start.place, m);
    let after_m = follows(darts, start.place, d);
    let before_m = leads(darts, finish.place, d);
    let after_d = follows(darts, finish.place, m);
    let forth = DartEntry {
        source: start.vertex,
        twin: m,
        next: after_d,
        previous: before_d,
        line,
    };
    let back = DartEntry {
        source: finish.vertex,
        twin: d,
        next: after_m,
        previous: before_m,
        line,
    };
    keep(darts, d, forth)?;
    keep(darts, m, back)?;
    follow(darts, before_d, d);
    precede(darts, after_m, m);
    follow(darts, before_m, m);
    precede(darts, after_d, d);
    Ok(())
}

// One edge fewer: that of `d` and its twin `m`.
pub(crate) fn unlink(darts: &mut BTreeMap<usize, DartEntry>, d: DartId, m: DartId)
    requires named { NamesAscend (names darts.old.entries) }
    requires back { IsBackLinked darts.old.entries }
    requires apart { next_in (darts_of darts.old.entries) m ≢ m }
    ensures { darts.new.entries ≡ unlinked darts.old.entries d m }
{
    let after_d = next_of(darts, d);
    let after_m = next_of(darts, m);
    let before_d = previous_of(darts, d);
    let before_m = previous_of(darts, m);
    redirect(darts, d, after_m);
    redirect(darts, m, after_d);
    precede(darts, after_m, before_d);
    precede(darts, after_d, before_m);
    forget(darts, d);
    forget(darts, m);
}

// The edge of `d` in two: `d` and its twin end and begin at `w`, `n` and `m` have the rest.
pub(crate) fn part(
    darts: &mut BTreeMap<usize, DartEntry>,
    d: DartId,
    w: VertexId,
    n: DartId,
    m: DartId,
) -> Result<(), NoMemory>
    requires named { NamesAscend (names darts.old.entries) }
    requires back { IsBackLinked darts.old.entries }
    requires has { HasDart (darts_of darts.old.entries) d }
    ensures { OnOk result (darts.new.entries ≡ parted darts.old.entries d w n m) }
{
    let twin = twin_of(darts, d);
    let after = next_of(darts, d);
    let end = source_of(darts, twin);
    let before = previous_of(darts, twin);
    let line = line_of(darts, d);
    let bare = is_same(after, twin);
    let forth = DartEntry {
        source: w,
        twin: m,
        next: either(bare, m, after),
        previous: d,
        line,
    };
    let back = DartEntry {
        source: end,
        twin: n,
        next: twin,
        previous: either(bare, n, before),
        line,
    };
    redirect(darts, twin, m);
    keep(darts, n, forth)?;
    keep(darts, m, back)?;
    start_at(darts, twin, w);
    follow(darts, d, n);
    precede(darts, after, n);
    precede(darts, twin, m);
    Ok(())
}

// Two edges in one: `d` takes over the way of `n`, which follows it.
pub(crate) fn merge(darts: &mut BTreeMap<usize, DartEntry>, d: DartId, n: DartId)
    requires named { NamesAscend (names darts.old.entries) }
    requires back { IsBackLinked darts.old.entries }
    ensures { darts.new.entries ≡ merged darts.old.entries d n }
{
    let twin = twin_of(darts, d);
    let gone = twin_of(darts, n);
    let on = next_of(darts, n);
    let end = source_of(darts, gone);
    let before = previous_of(darts, gone);
    let bare = is_same(on, gone);
    let after_d = either(bare, twin, on);
    let before_twin = either(bare, d, before);
    redirect(darts, gone, twin);
    start_at(darts, twin, end);
    follow(darts, d, after_d);
    precede(darts, on, d);
    precede(darts, twin, before_twin);
    forget(darts, n);
    forget(darts, gone);
}
