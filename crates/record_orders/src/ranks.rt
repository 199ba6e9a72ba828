ghost use Rattle.std.specs.Prelude.{◌≡◌, IfOk, OnOk, length};
ghost use Rattle.std.specs.List.{position_or_len};
ghost use Rattle.record_orders.specs.CycleKeys.{same_face, ranked_faces, added, AreRanks};

use crate::cycles::CycleKey;
use crate::tables::{read_at, write_at};
use no_memory::NoMemory;
use slab_laws::{CycleKind, FaceId, Faced};
use std::alloc::Global;
use std::marker::Model;

/// Faces by rank, and the rank of each.
#[derive(Drop)]
pub struct Ranks {
    faces: Vec<FaceId>,
    // By the name of a face, its rank.
    ranks: Vec<Option<usize>>,
}

impl Model for Ranks {
    ghost use Rattle.std.specs.Prelude.{List};
    ghost use Rattle.slab_laws.specs.declared.names.FaceId.{FaceId};
    ghost use Rattle.record_orders.specs.CycleKeys.{AreRanks};

    ghost Value = { List FaceId };

    ghost view = { λ r. r.faces.items };

    ghost invariant = { λ r. AreRanks r.ranks.items r.faces.items };
}

// Appends a face to the others, unless it is among them.
fn add_face(
    faces: &mut Vec<FaceId>,
    ranks: &mut Vec<Option<usize>>,
    face: FaceId,
) -> Result<(), NoMemory>
    requires { AreRanks ranks.old.items faces.old.items }
    ensures ranks { OnOk result (AreRanks ranks.new.items faces.new.items) }
    ensures faces { OnOk result (faces.new.items ≡ added faces.old.items face) }
{
    let ranked = read_at(ranks, face.0, None).is_some();
    if !ranked {
        write_at(ranks, face.0, None, Some(faces.len()))?;
        faces.push(face)?;
    }
    Ok(())
}

/// The first face, then those of outer cycles in the order of these.
///
/// # Errors
///
/// There was no memory.
pub fn ranks_of<R: Faced>(
    alloc: Global,
    records: &R,
    cycles: &[CycleKey],
) -> Result<Ranks, NoMemory>
    ensures { IfOk result (λ r. r ≡ ranked_faces (R.faces records.now) cycles.now) }
{
    let mut faces = Vec::new(alloc);
    let mut ranks = Vec::new(alloc);
    if let Some(face) = records.face_after(None) {
        add_face(&mut faces, &mut ranks, face)?;
    }
    for cycle in cycles {
        if cycle.is_of(CycleKind::Outer) {
            add_face(&mut faces, &mut ranks, cycle.face)?;
        }
    }
    Ok(Ranks { faces, ranks })
}

impl Ranks {
    /// How many faces there are.
    pub fn len(&self) -> usize
        ensures { result ≡ length self.now }
    {
        self.faces.len()
    }

    /// The faces, by rank.
    pub fn as_slice(&self) -> &[FaceId]
        ensures { result.now ≡ self.now }
    {
        &self.faces
    }

    /// The rank of a face; for another name, how many faces there are.
    pub fn rank_of(&self, face: FaceId) -> usize
        ensures { result ≡ position_or_len (same_face face) self.now }
    {
        match read_at(&self.ranks, face.0, None) {
            Some(rank) => rank,
            None => self.faces.len(),
        }
    }
}
