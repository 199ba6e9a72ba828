ghost use Rattle.std.specs.Prelude.{◌≡◌, ◌↔◌, ◌<◌, ◌≤◌, ◌+ℤ◌, ◌-ℤ◌, ◌*ℤ◌, neg_ℤ, unsigned_abs};
ghost use Rattle.std.specs.declared.cmp.Ordering.TheVariants.{Less, Equal};
ghost use Rattle.exact_plane.specs.declared.bounds.TheConstants.{MAX_DIFFERENCE, TURN_LIMIT};
ghost use Rattle.exact_plane.specs.Direction.{direction_of, opposite, place, last_place, turn_cmp, next_cmp, AreDirections, IsClockwise, IsOneDirection};

use crate::line::Line;
use std::cmp::Ordering;
use std::marker::Model;

/// A direction in the plane.
#[derive(Clone, Copy)]
pub struct Direction {
    x: i64,
    y: i64,
}

impl Model for Direction {
    ghost use Rattle.exact_plane.specs.Direction.{Direction as Way, IsDirection};

    ghost Value = { Way };

    ghost view = { λ d. record { x = d.x; y = d.y } };

    ghost invariant = { λ d. IsDirection (record { x = d.x; y = d.y }) };

    ghost inverse = { λ d. record { x = d.x; y = d.y } };
}

// The number with the opposite sign.
fn negated(number: i64) -> i64
    requires { unsigned_abs number ≤ MAX_DIFFERENCE }
    ensures { result ≡ neg_ℤ number }
{
    -number
}

impl Direction {
    /// The direction of a line, from its lower to its upper end.
    pub fn along(line: &Line) -> Direction
        ensures { result ≡ direction_of line.now }
    {
        Direction {
            x: line.b,
            y: negated(line.a),
        }
    }

    /// The opposite direction.
    pub fn back(self) -> Direction
        ensures { result ≡ opposite self }
    {
        Direction {
            x: negated(self.x),
            y: negated(self.y),
        }
    }
}

fn turn(x1: i64, y1: i64, x2: i64, y2: i64) -> i64
    requires { AreDirections x1 y1 x2 y2 }
    ensures value { result ≡ x1 *ℤ y2 -ℤ y1 *ℤ x2 }
    ensures small { unsigned_abs result < TURN_LIMIT }
{
    x1 * y2 - y1 * x2
}

fn alignment(x1: i64, y1: i64, x2: i64, y2: i64) -> i64
    requires { AreDirections x1 y1 x2 y2 }
    ensures value { result ≡ x1 *ℤ x2 +ℤ y1 *ℤ y2 }
    ensures small { unsigned_abs result < TURN_LIMIT }
{
    x1 * x2 + y1 * y2
}

// Where a direction stands clockwise from a first one: 0 it is the first, 1 before its opposite, 2 the opposite, 3 after it.
fn place_after(first: Direction, other: Direction) -> u8
    ensures { result ≡ place first other }
{
    let turn = turn(first.x, first.y, other.x, other.y);
    match turn.cmp(&0) {
        Ordering::Less => 1,
        Ordering::Greater => 3,
        Ordering::Equal => {
            let along = alignment(first.x, first.y, other.x, other.y);
            match along.cmp(&0) {
                Ordering::Greater => 0,
                Ordering::Less => 2,
                Ordering::Equal => 2,
            }
        }
    }
}

/// Which of two directions is met first, going clockwise from a first one.
///
/// The first one itself is met before all others. `Equal` is answered for one direction only. Of the three turns from
/// the first to a, from a to b and from b back to the first at least two go clockwise, by less than half a turn, where
/// a is met before b, and at most one does where it isn't.
pub fn turn_order(first: Direction, a: Direction, b: Direction) -> Ordering
    ensures value { result ≡ turn_cmp first a b }
    ensures one_direction { (result ≡ Equal) ↔ IsOneDirection a b }
    ensures first_before { IsOneDirection first a → ¬ IsOneDirection first b → result ≡ Less }
    ensures clockwise { ¬ IsOneDirection first a → ((result ≡ Less) ↔ IsClockwise first a b) }
{
    let by_place = place_after(first, a).cmp(&place_after(first, b));
    let turn = turn(a.x, a.y, b.x, b.y);
    by_place.then(turn.cmp(&0))
}

// The same as `place_after`, but the first one stands last, at 4.
fn last_place_after(first: Direction, other: Direction) -> u8
    ensures { result ≡ last_place first other }
{
    let place = place_after(first, other);
    if place == 0 { 4 } else { place }
}

/// Which of two directions is met first, going clockwise from just after a first one, which is met after all others, at the end of a
/// full turn. `Equal` is answered for one direction only.
pub fn next_order(first: Direction, a: Direction, b: Direction) -> Ordering
    ensures { result ≡ next_cmp first a b }
{
    let by_place = last_place_after(first, a).cmp(&last_place_after(first, b));
    let turn = turn(a.x, a.y, b.x, b.y);
    by_place.then(turn.cmp(&0))
}
