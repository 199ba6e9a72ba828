ghost use Rattle.std.specs.Prelude.{◌≡◌, OnOk};
ghost use Rattle.slab_laws.specs.Tables.{row_at, names, NamesAscend};
ghost use Rattle.slab_laws.specs.View.{HasDart, next_in, twin_in, source_in, line_in};
ghost use Rattle.arr_notes.specs.NamedRows.{each, edit, put, del};
ghost use Rattle.mirror_observer.specs.Tables.{darts_of, previous_at, diverted, with_follower, with_previous, with_start};
ghost use Rattle.mirror_observer.specs.Standing.{IsLedByOne};

use crate::tables::DartEntry;
use exact_plane::Line;
use no_memory::NoMemory;
use slab_laws::{DartId, VertexId};
use std::collections::BTreeMap;

// The entry of a dart, where it has one.
pub(crate) fn entry_of(darts: &BTreeMap<usize, DartEntry>, d: DartId) -> Option<DartEntry>
    ensures { result ≡ row_at darts.now.entries d.0 }
{
    darts.get(&d.0).copied()
}

// The dart that follows; without an entry, the dart itself.
pub(crate) fn next_of(darts: &BTreeMap<usize, DartEntry>, d: DartId) -> DartId
    ensures { result ≡ next_in (darts_of darts.now.entries) d }
{
    match entry_of(darts, d) {
        Some(entry) => entry.next,
        None => d,
    }
}

// The dart before; without an entry, the dart itself.
pub(crate) fn previous_of(darts: &BTreeMap<usize, DartEntry>, d: DartId) -> DartId
    ensures { result ≡ previous_at darts.now.entries d }
{
    match entry_of(darts, d) {
        Some(entry) => entry.previous,
        None => d,
    }
}

// The opposite dart; without an entry, the dart itself.
pub(crate) fn twin_of(darts: &BTreeMap<usize, DartEntry>, d: DartId) -> DartId
    ensures { result ≡ twin_in (darts_of darts.now.entries) d }
{
    match entry_of(darts, d) {
        Some(entry) => entry.twin,
        None => d,
    }
}

// The vertex that the dart leaves; without an entry, the one named 0.
pub(crate) fn source_of(darts: &BTreeMap<usize, DartEntry>, d: DartId) -> VertexId
    ensures { result ≡ source_in (darts_of darts.now.entries) d }
{
    match entry_of(darts, d) {
        Some(entry) => entry.source,
        None => VertexId(0),
    }
}

// The dart is followed by `next`, if it has an entry.
pub(crate) fn follow(darts: &mut BTreeMap<usize, DartEntry>, d: DartId, next: DartId)
    ensures { darts.new.entries ≡ edit d.0 (with_follower next) darts.old.entries }
{
    if let Some(entry) = darts.get_mut(&d.0) {
        entry.next = next;
    }
}

// The dart follows `previous`, if it has an entry.
pub(crate) fn precede(darts: &mut BTreeMap<usize, DartEntry>, d: DartId, previous: DartId)
    ensures { darts.new.entries ≡ edit d.0 (with_previous previous) darts.old.entries }
{
    if let Some(entry) = darts.get_mut(&d.0) {
        entry.previous = previous;
    }
}

// The dart leaves `source`, if it has an entry.
pub(crate) fn start_at(darts: &mut BTreeMap<usize, DartEntry>, d: DartId, source: VertexId)
    ensures { darts.new.entries ≡ edit d.0 (with_start source) darts.old.entries }
{
    if let Some(entry) = darts.get_mut(&d.0) {
        entry.source = source;
    }
}

// Whichever dart was followed by `x` is followed by `y`: `x` names the one that it may be.
pub(crate) fn redirect(darts: &mut BTreeMap<usize, DartEntry>, x: DartId, y: DartId)
    requires named { NamesAscend (names darts.old.entries) }
    requires led { IsLedByOne darts.old.entries x }
    ensures { darts.new.entries ≡ each (λ n e. diverted x y e) darts.old.entries }
{
    let before = previous_of(darts, x);
    if next_of(darts, before) == x {
        follow(darts, before, y);
    }
}

// The line of the dart's edge.
pub(crate) fn line_of(darts: &BTreeMap<usize, DartEntry>, d: DartId) -> Line
    requires { HasDart (darts_of darts.now.entries) d }
    ensures { result ≡ line_in (darts_of darts.now.entries) d }
{
    darts[&d.0].line
}

// The dart has this entry.
pub(crate) fn keep(
    darts: &mut BTreeMap<usize, DartEntry>,
    d: DartId,
    entry: DartEntry,
) -> Result<(), NoMemory>
    ensures { OnOk result (darts.new.entries ≡ put d.0 entry darts.old.entries) }
{
    darts.insert(d.0, entry)?;
    Ok(())
}

// The dart has no entry.
pub(crate) fn forget(darts: &mut BTreeMap<usize, DartEntry>, d: DartId)
    ensures { darts.new.entries ≡ del d.0 darts.old.entries }
{
    let _entry = darts.remove(&d.0);
}
