//! Writes of single links: the neighbours of a row, and the ends of the order.
ghost use Rattle.std.specs.Prelude.{◌≡◌, Some, is_none, cond};
ghost use Rattle.slab.specs.Slab.{ContainsKey};
ghost use Rattle.chain_laws.specs.Rows.{IsChanged};
ghost use Rattle.curve_pieces.specs.Writes.{row_followed, row_led, row_next, row_prior};

use crate::row::{Ends, Links, Row};
use slab::Slab;

// The row, if there is one, has this one after it in the order.
pub(crate) fn set_after(rows: &mut Slab<Row>, row: Option<usize>, after: Option<usize>)
    requires { (n : _) → row ≡ Some n → ContainsKey rows.old n }
    ensures { IsChanged (row_followed after) row rows.old rows.new }
{
    if let Some(row) = row {
        rows[row].order.after = after;
    }
}

// The row, if there is one, has this one before it in the order.
pub(crate) fn set_before(rows: &mut Slab<Row>, row: Option<usize>, before: Option<usize>)
    requires { (n : _) → row ≡ Some n → ContainsKey rows.old n }
    ensures { IsChanged (row_led before) row rows.old rows.new }
{
    if let Some(row) = row {
        rows[row].order.before = before;
    }
}

// The row, if there is one, has this one after it in the list of its curve.
pub(crate) fn set_next(rows: &mut Slab<Row>, row: Option<usize>, next: Option<usize>)
    requires { (n : _) → row ≡ Some n → ContainsKey rows.old n }
    ensures { IsChanged (row_next next) row rows.old rows.new }
{
    if let Some(row) = row {
        rows[row].curve.after = next;
    }
}

// The row, if there is one, has this one before it in the list of its curve.
pub(crate) fn set_prior(rows: &mut Slab<Row>, row: Option<usize>, prior: Option<usize>)
    requires { (n : _) → row ≡ Some n → ContainsKey rows.old n }
    ensures { IsChanged (row_prior prior) row rows.old rows.new }
{
    if let Some(row) = row {
        rows[row].curve.before = prior;
    }
}

// The ends of the order without a row that has these neighbours.
pub(crate) fn ends_without(ends: Ends, gone: Links) -> Ends
    ensures first { result.first ≡ cond (is_none gone.before) gone.after ends.first }
    ensures last { result.last ≡ cond (is_none gone.after) gone.before ends.last }
{
    Ends {
        first: if gone.before.is_none() {
            gone.after
        } else {
            ends.first
        },
        last: if gone.after.is_none() {
            gone.before
        } else {
            ends.last
        },
    }
}

// The ends of the order with one more row, between these neighbours.
pub(crate) fn ends_with(ends: Ends, name: usize, put: Links) -> Ends
    ensures first { result.first ≡ cond (is_none put.before) (Some name) ends.first }
    ensures last { result.last ≡ cond (is_none put.after) (Some name) ends.last }
{
    Ends {
        first: if put.before.is_none() {
            Some(name)
        } else {
            ends.first
        },
        last: if put.after.is_none() {
            Some(name)
        } else {
            ends.last
        },
    }
}
