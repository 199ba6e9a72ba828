ghost use Rattle.std.specs.Prelude.{◌≡◌, ◌==◌, ◌≤◌, ◌<◌, All, IfSome, IsTrue, None, false, length, map, take, vec_capacity, slice_index_or};
ghost use Rattle.std.specs.List.{list_any};
ghost use Rattle.arr_notes.specs.CurvedView.{CurvedView, IsSoundView, view_by};
ghost use Rattle.observer_bus.specs.Calls.{is_seated_as};
ghost use Rattle.observer_bus.specs.Rounds.{HaveRoom, IsRoundOf};
ghost use Rattle.observer_bus.specs.Rows.{rows};
ghost use Rattle.observer_bus.specs.Seats.{Holds, Leads, MayHear, IsRoundNote};

use crate::seat::Seat;
use crate::went::Went;
use arr_notes::Note;
use slab_laws::{Curved, Faced};
use std::alloc::Global;

/// One round, from the first seat to the last.
pub(crate) fn forward<R: Curved + Faced>(
    seats: &mut Vec<Seat>,
    went: &mut Went,
    alloc: Global,
    records: &R,
    note: &Note,
)
    requires fits { All (MayHear note.now) (rows Observer-dyn seats.old.items) }
    requires sound { IsSoundView (view_by (R.graph records.now) (R.faces records.now) (R.curve_list records.now)) }
    requires counted { IsRoundNote note.now }
    requires room { HaveRoom (map (λ s. s.join) seats.old.items) went.old }
    ensures capacity { vec_capacity seats.new ≡ vec_capacity seats.old }
    ensures shorter { length seats.new.items ≤ length seats.old.items }
    ensures room { HaveRoom (map (λ s. s.join) seats.new.items) went.new }
    ensures round { IsRoundOf note.now (view_by (R.graph records.now) (R.faces records.now) (R.curve_list records.now)) (rows Observer-dyn seats.old.items) went.old
        (rows Observer-dyn seats.new.items) went.new }
{
    let mut i = 0;
    'turns: while i < seats.len() {
        let seat = &mut seats[i];
        let name = seat.name();
        let fate = seat.turn(alloc, records, note);
        went.note(fate, name);
        if fate.stays() {
            i += 1;
        } else {
            let gone = seats.remove(i);
            drop(gone);
        }
    }
}

/// One round, from the last seat to the first.
pub(crate) fn backward<R: Curved + Faced>(
    seats: &mut Vec<Seat>,
    went: &mut Went,
    alloc: Global,
    records: &R,
    note: &Note,
)
    requires fits { All (MayHear note.now) (rows Observer-dyn seats.old.items) }
    requires sound { IsSoundView (view_by (R.graph records.now) (R.faces records.now) (R.curve_list records.now)) }
    requires counted { IsRoundNote note.now }
    requires room { HaveRoom (map (λ s. s.join) seats.old.items) went.old }
    ensures capacity { vec_capacity seats.new ≡ vec_capacity seats.old }
    ensures shorter { length seats.new.items ≤ length seats.old.items }
    ensures room { HaveRoom (map (λ s. s.join) seats.new.items) went.new }
    ensures round { IsRoundOf note.now (view_by (R.graph records.now) (R.faces records.now) (R.curve_list records.now)) (rows Observer-dyn seats.old.items) went.old
        (rows Observer-dyn seats.new.items) went.new }
{
    'turns: for i in (0..seats.len()).rev() {
        let seat = &mut seats[i];
        let name = seat.name();
        let fate = seat.turn(alloc, records, note);
        went.note(fate, name);
        if !fate.stays() {
            let gone = seats.remove(i);
            drop(gone);
        }
    }
}

/// One round: before a change from the first seat to the last, after it from the last to the first.
pub(crate) fn say<R: Curved + Faced>(
    seats: &mut Vec<Seat>,
    went: &mut Went,
    alloc: Global,
    records: &R,
    note: &Note,
)
    requires fits { All (MayHear note.now) (rows Observer-dyn seats.old.items) }
    requires sound { IsSoundView (view_by (R.graph records.now) (R.faces records.now) (R.curve_list records.now)) }
    requires counted { IsRoundNote note.now }
    requires room { HaveRoom (map (λ s. s.join) seats.old.items) went.old }
    ensures capacity { vec_capacity seats.new ≡ vec_capacity seats.old }
    ensures shorter { length seats.new.items ≤ length seats.old.items }
    ensures room { HaveRoom (map (λ s. s.join) seats.new.items) went.new }
    ensures round { IsRoundOf note.now (view_by (R.graph records.now) (R.faces records.now) (R.curve_list records.now)) (rows Observer-dyn seats.old.items) went.old
        (rows Observer-dyn seats.new.items) went.new }
{
    match note {
        Note::After(_) => backward(seats, went, alloc, records, note),
        _ => forward(seats, went, alloc, records, note),
    }
}

/// Whether a seat or a planned join has the name.
pub(crate) fn has_name(seats: &[Seat], name: u32) -> bool
    ensures { result ≡ list_any (λ s. s.name == name) seats.now }
{
    for seat in seats {
        if seat.name() == name {
            return true;
        }
    }
    false
}

/// The place of the first observer that is seated under the name.
pub(crate) fn seat_at(seats: &[Seat], name: u32) -> Option<usize>
    ensures none { result ≡ None → list_any (λ s. is_seated_as name s.join s.name) seats.now ≡ false }
    ensures within { IfSome result (λ i. i < length seats.now) }
    ensures first { IfSome result (λ i. list_any (λ s. is_seated_as name s.join s.name) (take i seats.now) ≡ false) }
    ensures here { IfSome result (λ i. (d : _) → IsTrue (is_seated_as name (slice_index_or seats.now i d).join (slice_index_or seats.now i d).name)) }
{
    for i in 0..seats.len() {
        if seats[i].is_seat_of(name) {
            return Some(i);
        }
    }
    None
}
