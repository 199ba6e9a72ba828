ghost use Rattle.std.specs.Prelude.{◌≡◌, ◌<◌, ◌+◌, ℕ, List, length, slice_index_or, slice_set, Some, IfOk};
ghost use Rattle.polygon_sets.specs.Crossings.{crossing_at, AreWithin};
ghost use Rattle.polygon_sets.specs.Chains.{AreChains};
ghost use Rattle.polygon_sets.specs.Spread.{set_at, held, AreSpread, IsSpreading, IsCrossed};
ghost use Rattle.polygon_sets.specs.declared.crossings.Crossing.{Crossing as CrossingRow};

use crate::chains::{Chains, chains_of, place_at};
use crate::crossings::{Crossing, Inside, crossed};
use no_memory::NoMemory;
use std::alloc::Global;

// The faces that were reached, in the order in which they were, and the sets that hold them.
#[derive(Drop)]
struct Spread {
    sets: Vec<Option<Inside>>,
    reached: Vec<usize>,
}

fn crossing_at(crossings: &[Crossing], dart: usize) -> Crossing
    requires { dart < length crossings.now }
    ensures { result ≡ crossing_at crossings.now dart }
{
    crossings[dart]
}

fn set_at(sets: &[Option<Inside>], face: usize) -> Option<Inside>
    requires { face < length sets.now }
    ensures { result ≡ set_at sets.now face }
{
    sets[face]
}

fn face_at(reached: &[usize], place: usize) -> usize
    requires { place < length reached.now }
    ensures { result ≡ slice_index_or reached.now place 0 }
{
    reached[place]
}

fn put_set(sets: &mut Vec<Option<Inside>>, face: usize, inside: Inside)
    requires { face < length sets.old.items }
    ensures { sets.new.items ≡ slice_set sets.old.items face (Some inside) }
{
    sets[face] = Some(inside);
}

// Crosses a dart from a face that these sets hold.
fn cross(crossing: &Crossing, inside: Inside, spread: &mut Spread) -> Result<(), NoMemory>
    requires { crossing.now.right < length spread.old.sets.items }
    ensures { IfOk result (λ _. IsCrossed crossing.now inside spread.old spread.new) }
{
    match set_at(&spread.sets, crossing.right) {
        Some(_) => Ok(()),
        None => {
            put_set(&mut spread.sets, crossing.right, crossed(crossing, inside));
            spread.reached.push(crossing.right)?;
            Ok(())
        }
    }
}

// The sets that hold a face, where they are known.
pub(crate) fn held_at(sets: &[Option<Inside>], face: usize) -> Inside
    requires { face < length sets.now }
    ensures { result ≡ held (set_at sets.now face) }
{
    match set_at(sets, face) {
        Some(inside) => inside,
        None => Inside {
            red: false,
            blue: false,
        },
    }
}

// Crosses each of the darts that have the face on their left which was reached at the place.
fn cross_all(
    crossings: &[Crossing],
    chains: &Chains,
    spread: &mut Spread,
    place: usize,
) -> Result<(), NoMemory>
    requires within { AreWithin (length spread.old.sets.items) crossings.now }
    requires chains { AreChains crossings.now (length spread.old.sets.items) chains.now }
    requires reached { place < length spread.old.reached.items }
    requires spreading { IsSpreading crossings.now (length spread.old.sets.items) place spread.old }
    ensures { IfOk result (λ _. IsSpreading crossings.now (length spread.old.sets.items) (place + 1) spread.new) }
{
    let face = face_at(&spread.reached, place);
    let inside = held_at(&spread.sets, face);
    let mut current = place_at(&chains.last, face);
    'darts: while let Some(dart) = current {
        cross(&crossing_at(crossings, dart), inside, spread)?;
        current = place_at(&chains.before, dart);
    }
    Ok(())
}

// The unbounded face is the first one, and nothing holds it.
fn begin(alloc: Global, faces: usize) -> Result<Spread, NoMemory>
    requires { 0 < faces }
    ensures { IfOk result (λ s. (length s.sets.items ≡ faces) × ((crossings : List CrossingRow) → IsSpreading crossings faces 0 s)) }
{
    let mut sets = Vec::new(alloc);
    sets.resize(faces, None)?;
    put_set(
        &mut sets,
        0,
        Inside {
            red: false,
            blue: false,
        },
    );
    let mut reached = Vec::with_capacity(alloc, faces)?;
    reached.push(0)?;
    Ok(Spread { sets, reached })
}

/// Of each face the sets that hold it: none holds the unbounded one, and each dart tells what changes from the face on its left to that
/// on its right. Faces are reached one after the other, and each dart is crossed once (CGAL, the scan of faces in breadth of its
/// Boolean set operations).
///
/// # Errors
///
/// There was no memory.
pub(crate) fn sets_of(
    alloc: Global,
    faces: usize,
    crossings: &[Crossing],
) -> Result<Vec<Option<Inside>>, NoMemory>
    requires some { 0 < faces }
    requires within { AreWithin faces crossings.now }
    ensures { IfOk result (λ v. AreSpread crossings.now faces v.items) }
{
    let chains = chains_of(alloc, faces, crossings)?;
    let mut spread = begin(alloc, faces)?;
    let mut place = 0;
    'spread: while place < spread.reached.len() {
        cross_all(crossings, &chains, &mut spread, place)?;
        place += 1;
    }
    Ok(spread.sets)
}
