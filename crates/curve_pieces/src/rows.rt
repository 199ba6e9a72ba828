//! Rows that are put into both lists, and taken out of both.
ghost use Rattle.std.specs.Prelude.{◌≡◌, ◌≢◌, ◌==◌, ◌&&◌, ◌+◌, ◌≤◌, ◌∷◌, cond, not, Some, None, is_none};
ghost use Rattle.std.specs.List.{filter};
ghost use Rattle.std.specs.List.Sorted.{IsPermutation};
ghost use Rattle.slab.specs.Slab.{get, slab_len, ContainsKey, HasRoomFor};
ghost use Rattle.chain_laws.specs.Links.{first_or, without, AreListed};
ghost use Rattle.linked_chains.specs.Chains.{put_at};
ghost use Rattle.curve_pieces.specs.PiecesInMemory.{after_place, curve_nodes, order_from, piece_in, rows_from, with_head, IsHeadOf, IsIndexOf, IsOrder};

use crate::index::PieceIndex;
use crate::links::{ends_with, ends_without, set_after, set_before, set_next, set_prior};
use crate::row::{Ends, Links, Row};
use slab::Slab;
use slab_laws::Piece;

// The row that comes after a place in the order, where nothing stands for the place before all.
fn after_place(rows: &Slab<Row>, first: Option<usize>, place: Option<usize>) -> Option<usize>
    requires { (n : _) → place ≡ Some n → ContainsKey rows.now n }
    ensures { result ≡ after_place rows.now first place }
{
    match place {
        Some(place) => rows[place].order.after,
        None => first,
    }
}

/// A row more, directly after another one in the order or before all, and before the first row of its curve, in room that is
/// there. The caller makes it the head of its curve.
pub(crate) fn put_row(
    rows: &mut Slab<Row>,
    ends: &mut Ends,
    place: Option<usize>,
    piece: Piece,
    head: Option<usize>,
) -> usize
    requires order { IsOrder rows.old ends.old }
    requires place { (n : _) → place ≡ Some n → ContainsKey rows.old n }
    requires head { IsHeadOf rows.old piece.curve.0 head }
    requires room { HasRoomFor rows.old 1 }
    ensures key { result ≡ rows.old.vacant_key }
    ensures order { IsOrder rows.new ends.new }
    ensures names { order_from rows.new ends.new.first ≡ put_at place result (order_from rows.old ends.old.first) }
    ensures more { IsPermutation ((result, piece) ∷ rows_from rows.old ends.old.first) (rows_from rows.new ends.new.first) }
    ensures vacant { get rows.old result ≡ None }
    ensures piece { piece_in rows.new result ≡ Some piece }
    ensures others { (n : _) → n ≢ result → piece_in rows.new n ≡ piece_in rows.old n }
    ensures curves { (heads : _) → AreListed (with_head piece.curve.0 head heads) (curve_nodes rows.old) → AreListed (with_head piece.curve.0 (Some result) heads) (curve_nodes rows.new) }
    ensures len { slab_len rows.new ≡ slab_len rows.old + 1 }
    ensures capacity { rows.new.capacity ≡ rows.old.capacity }
{
    let after = after_place(rows, ends.first, place);
    let order = Links {
        before: place,
        after,
    };
    let name = rows.insert_reserved(Row {
        piece,
        order,
        curve: Links {
            before: None,
            after: head,
        },
    });
    set_before(rows, after, Some(name));
    set_after(rows, place, Some(name));
    set_prior(rows, head, Some(name));
    *ends = ends_with(*ends, name, order);
    name
}

/// A row goes out of both lists. Where it was the head of its curve, the caller tells the next one.
pub(crate) fn take_row(rows: &mut Slab<Row>, ends: &mut Ends, name: usize) -> Row
    requires order { IsOrder rows.old ends.old }
    requires has { ContainsKey rows.old name }
    requires curves { (heads : _) × AreListed heads (curve_nodes rows.old) }
    ensures value { get rows.old name ≡ Some result }
    ensures order { IsOrder rows.new ends.new }
    ensures names { order_from rows.new ends.new.first ≡ without name (order_from rows.old ends.old.first) }
    ensures fewer { IsPermutation (rows_from rows.old ends.old.first) ((name, result.piece) ∷ rows_from rows.new ends.new.first) }
    ensures others { (n : _) → n ≢ name → piece_in rows.new n ≡ piece_in rows.old n }
    ensures curves { (heads left : _) → AreListed heads (curve_nodes rows.old) → ((k : _) → left k ≡ cond ((k == result.piece.curve.0) && is_none result.curve.before) (Some result.curve.after) (heads k)) → AreListed left (curve_nodes rows.new) }
    ensures len { slab_len rows.new + 1 ≡ slab_len rows.old }
    ensures capacity { rows.new.capacity ≡ rows.old.capacity }
{
    let gone = rows.remove(name);
    set_after(rows, gone.order.before, gone.order.after);
    set_before(rows, gone.order.after, gone.order.before);
    set_next(rows, gone.curve.before, gone.curve.after);
    set_prior(rows, gone.curve.after, gone.curve.before);
    *ends = ends_without(*ends, gone.order);
    gone
}

/// All rows of a curve go, from its first one on, and their entries in the index.
pub(crate) fn take_curve(
    rows: &mut Slab<Row>,
    ends: &mut Ends,
    index: &mut PieceIndex,
    curve: usize,
    first: Option<usize>,
)
    requires order { IsOrder rows.old ends.old }
    requires head { IsHeadOf rows.old curve first }
    requires index { IsIndexOf index.old (rows_from rows.old ends.old.first) }
    ensures order { IsOrder rows.new ends.new }
    ensures index { IsIndexOf index.new (rows_from rows.new ends.new.first) }
    ensures whole { index.new.whole ≡ index.old.whole }
    ensures rows { rows_from rows.new ends.new.first ≡ filter (λ r. not (r.1.curve.0 == curve)) (rows_from rows.old ends.old.first) }
    ensures curves { (heads : _) → AreListed (with_head curve first heads) (curve_nodes rows.old) → AreListed (with_head curve None heads) (curve_nodes rows.new) }
    ensures len { slab_len rows.new ≤ slab_len rows.old }
    ensures capacity { rows.new.capacity ≡ rows.old.capacity }
{
    let mut at = first;
    'each: while let Some(name) = at {
        let gone = take_row(rows, ends, name);
        index.take(name, &gone.piece);
        at = gone.curve.after;
    }
}
