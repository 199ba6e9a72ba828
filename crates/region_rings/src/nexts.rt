//! Which dart follows which on the boundary.
ghost use Rattle.std.specs.Prelude.{◌≡◌, ◌+◌, ◌<◌, ℕ, length, IfOk, IfErr};
ghost use Rattle.region_rings.specs.Spokes.{AreSpokes};
ghost use Rattle.region_rings.specs.Closed.{IsErrorOf};
ghost use Rattle.region_rings.specs.Nexts.{IsFirstAt, IsFollower, IsLinkFrom, IsBlocked, AreLinked, AreNexts};

use crate::errors::RingsError;
use crate::spokes::Spoke;
use crate::tables::set_number;
use exact_plane::Point;
use std::alloc::Global;

// The place of the first end at the vertex of the one at a place, where that of the one before is known.
fn first_at(spokes: &[Spoke], place: usize, before: usize) -> usize
    requires place { place < length spokes.now }
    requires before { (i : ℕ) → place ≡ i + 1 → IsFirstAt spokes.now i before }
    ensures { IsFirstAt spokes.now place result }
{
    if place == 0 {
        return place;
    }
    if spokes[place - 1].at == spokes[place].at {
        return before;
    }
    place
}

// The place of the end that is met next, clockwise round the vertex of the one at a place.
fn follower(spokes: &[Spoke], place: usize, first: usize) -> usize
    requires place { place < length spokes.now }
    requires first { IsFirstAt spokes.now place first }
    ensures { IsFollower spokes.now place result }
{
    match spokes.get(place + 1) {
        Some(next) if next.at == spokes[place].at => place + 1,
        _ => first,
    }
}

// Of the dart that comes in at a place the one that follows.
fn next_from(spokes: &[Spoke], place: usize, first: usize) -> Result<usize, RingsError>
    requires place { place < length spokes.now }
    requires first { IsFirstAt spokes.now place first }
    ensures next { IfOk result (λ k. IsLinkFrom spokes.now place k) }
    ensures blocked { IfErr result (λ e. IsBlocked spokes.now place) }
{
    let next = spokes[follower(spokes, place, first)];
    if next.is_out {
        Ok(next.dart)
    } else {
        Err(RingsError::NotClosed)
    }
}

// Of each dart the one whose way out of its target is met first, clockwise from the way back.
fn links_of(
    alloc: Global,
    darts: &[(Point, Point)],
    spokes: &[Spoke],
) -> Result<Vec<usize>, RingsError>
    requires { AreSpokes darts.now spokes.now }
    ensures links { IfOk result (λ v. AreLinked darts.now spokes.now v.items) }
    ensures error { IfErr result (IsErrorOf darts.now) }
{
    let mut nexts = Vec::new(alloc);
    nexts.resize(darts.len(), 0)?;
    let mut first = 0;
    for place in 0..spokes.len() {
        first = first_at(spokes, place, first);
        let spoke = spokes[place];
        if !spoke.is_out {
            let next = next_from(spokes, place, first)?;
            set_number(&mut nexts, spoke.dart, next);
        }
    }
    Ok(nexts)
}

/// Of each dart the place of the one that follows it on the boundary: whose way out of its target is met first, of all ends there,
/// clockwise from the way back.
///
/// # Errors
///
/// What is met first is a dart that comes in, or there was no memory.
pub(crate) fn nexts_of(
    alloc: Global,
    darts: &[(Point, Point)],
    spokes: &[Spoke],
) -> Result<Vec<usize>, RingsError>
    requires { AreSpokes darts.now spokes.now }
    ensures nexts { IfOk result (λ v. AreNexts darts.now v.items) }
    ensures error { IfErr result (IsErrorOf darts.now) }
{
    let nexts = links_of(alloc, darts, spokes)?;
    Ok(nexts)
}
