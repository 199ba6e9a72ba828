ghost use Rattle.std.specs.Prelude.{◌≡◌, ◌<◌, ℕ, length, slice_index_or, IfOk};
ghost use Rattle.face_roots.specs.CycleRanks.{root_at, rank_of_root, is_outer_root, IsAboveOf, AreRankedBy};

use no_memory::NoMemory;
use std::alloc::Global;

/// What tells the face of a cycle (CGAL manual, outer and inner boundary cycles of a face).
#[derive(Clone, Copy)]
pub enum Root {
    /// The cycle bounds its face from outside.
    Outer,
    /// The cycle is inner, and nothing is below its least vertex: its face is the unbounded one.
    Outside,
    /// The cycle is inner, and its face is that of an earlier cycle, told by its place: the one that runs above the edge directly
    /// below its least vertex.
    Above(usize),
}

// The rank at a place.
fn rank_at(ranks: &[usize], place: usize) -> usize
    requires { place < length ranks.now }
    ensures { result ≡ slice_index_or ranks.now place 0 }
{
    ranks[place]
}

// Whether the cycle has a face of its own.
fn adds_face(root: &Root) -> bool
    ensures { result ≡ is_outer_root root.now }
{
    matches!(root, Root::Outer)
}

// The rank of a cycle's face, by those of the cycles before it and how many faces they have.
fn rank_by(root: &Root, ranks: &[usize], count: usize) -> usize
    requires { (k : ℕ) → IsAboveOf root.now k → k < length ranks.now }
    ensures { result ≡ rank_of_root root.now ranks.now count }
{
    match root {
        Root::Outer => count,
        Root::Outside => 0,
        Root::Above(place) => rank_at(ranks, *place),
    }
}

/// The ranks of the faces of all cycles, by the roots of these in their order: the unbounded face has rank 0, and each outer cycle
/// has the next face. One pass, since the root of a cycle is an earlier one.
///
/// # Errors
///
/// There was no memory.
pub fn ranks_of(alloc: Global, roots: &[Root]) -> Result<Vec<usize>, NoMemory>
    requires { (c k : ℕ) → c < length roots.now → IsAboveOf (root_at roots.now c) k → k < c }
    ensures { IfOk result (λ v. AreRankedBy roots.now v.items) }
{
    let mut ranks = Vec::new(alloc);
    let mut count = 1;
    for root in roots {
        let rank = rank_by(root, &ranks, count);
        ranks.push(rank)?;
        if adds_face(root) {
            count += 1;
        }
    }
    Ok(ranks)
}
