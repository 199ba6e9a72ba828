ghost use Rattle.std.specs.Prelude.{◌≡◌, ◌++◌, ◌∷◌, [], map, IfOk, OnOk};
ghost use Rattle.library_tour.specs.Parcels.{copied, face_of, land, moved_one, owners, parcels_in, IsLandAfter, IsLandLinked, IsLandUnlinked, IsShared, IsSharedWhere, IsUnited, IsUnitedWhere};

use arrangement::{Change, CycleId, FaceId, Linked, NoMemory, Note, Unlinked, View};
use slab_laws::Moved;
use std::alloc::Global;
use std::collections::BTreeMap;

/// A parcel, by its number.
#[derive(Clone, Copy, PartialEq, Eq, PartialOrd, Ord)]
pub struct ParcelId(pub u32);

/// A parcel that has land in a face.
#[derive(Clone, Copy)]
pub struct Land {
    pub face: FaceId,
    pub parcel: ParcelId,
}

/// Which parcels have land in which faces of a map. The land follows the faces: where one is split, each parcel in it has land in both parts,
/// and where two are united, those of both have land in the one.
#[derive(Drop)]
pub struct Parcels {
    alloc: Global,
    /// The face that each boundary bounds, by the boundary's name, as notes tell it.
    pub bounds: BTreeMap<usize, FaceId>,
    pub land: Vec<Land>,
}

// The land of one face once more, as land of another.
fn copied(alloc: Global, all: &[Land], from: FaceId, to: FaceId) -> Result<Vec<Land>, NoMemory>
    ensures { IfOk result (λ v. v.items ≡ copied from to all.now) }
{
    let mut copies = Vec::new(alloc);
    for one in all {
        if one.face == from {
            copies.push(Land {
                face: to,
                parcel: one.parcel,
            })?;
        }
    }
    Ok(copies)
}

// All land, with that of one face as land of another.
fn moved(alloc: Global, all: &[Land], from: FaceId, to: FaceId) -> Result<Vec<Land>, NoMemory>
    ensures { IfOk result (λ v. v.items ≡ map (moved_one from to) all.now) }
{
    let mut land = Vec::new(alloc);
    for one in all {
        let face = if one.face == from { to } else { one.face };
        land.push(Land {
            face,
            parcel: one.parcel,
        })?;
    }
    Ok(land)
}

// The parcels of the land in a face, as they come.
fn owners(alloc: Global, all: &[Land], face: FaceId) -> Result<Vec<ParcelId>, NoMemory>
    ensures { IfOk result (λ v. v.items ≡ owners face all.now) }
{
    let mut parcels = Vec::new(alloc);
    for one in all {
        if one.face == face {
            parcels.push(one.parcel)?;
        }
    }
    Ok(parcels)
}

impl Parcels {
    /// No land, and no face is known.
    pub fn new(alloc: Global) -> Parcels
        ensures { result.land.items ≡ [] }
    {
        Parcels {
            alloc,
            bounds: BTreeMap::new(alloc),
            land: Vec::new(alloc),
        }
    }

    /// A parcel has land in a face.
    pub fn claim(&mut self, face: FaceId, parcel: ParcelId) -> Result<(), NoMemory>
        ensures { OnOk result (self.new.land.items ≡ self.old.land.items ++ (land face parcel ∷ [])) }
    {
        self.land.push(Land { face, parcel })?;
        Ok(())
    }

    /// The parcels that have land in a face, by ascending number.
    pub fn in_face(&self, face: FaceId) -> Result<Vec<ParcelId>, NoMemory>
        ensures { IfOk result (λ v. map (λ n. n.0) v.items ≡ parcels_in face self.now.land.items) }
    {
        let mut parcels = owners(self.alloc, &self.land, face)?;
        parcels.sort_unstable();
        parcels.dedup();
        Ok(parcels)
    }

    // A part of a face is a face of its own.
    fn share(&mut self, from: FaceId, fresh: FaceId) -> Result<(), NoMemory>
        ensures { OnOk result (IsShared from fresh self.old.land.items self.new.land.items) }
    {
        let mut copies = copied(self.alloc, &self.land, from, fresh)?;
        self.land.append(&mut copies)?;
        Ok(())
    }

    // A face is now a part of another one.
    fn unite(&mut self, gone: FaceId, kept: FaceId) -> Result<(), NoMemory>
        ensures { OnOk result (IsUnited gone kept self.old.land.items self.new.land.items) }
    {
        let land = moved(self.alloc, &self.land, gone, kept)?;
        self.land = land;
        Ok(())
    }

    // The face that a boundary bounds, if a note has told it.
    fn face_of(&self, cycle: CycleId) -> Option<FaceId>
        ensures { result ≡ face_of self.now.bounds cycle }
    {
        self.bounds.get(&cycle.0).copied()
    }

    // A boundary bounds a face.
    fn bound(&mut self, cycle: CycleId, face: FaceId) -> Result<(), NoMemory>
        ensures { self.new.land ≡ self.old.land }
    {
        self.bounds.insert(cycle.0, face)?;
        Ok(())
    }

    // Boundaries bound a face.
    fn bound_all(&mut self, cycles: &[CycleId], face: FaceId) -> Result<(), NoMemory>
        ensures { self.new.land ≡ self.old.land }
    {
        for cycle in cycles {
            self.bound(*cycle, face)?;
        }
        Ok(())
    }

    // An edge parts the face of a boundary, `kept`: what is bounded by `fresh` and by those that moved is a face of its own.
    fn follow_split(
        &mut self,
        kept: CycleId,
        fresh: CycleId,
        face: FaceId,
        moved: &Moved,
    ) -> Result<(), NoMemory>
        ensures { OnOk result (IsSharedWhere (face_of self.old.bounds kept) face self.old.land.items self.new.land.items) }
    {
        let whole = self.face_of(kept);
        self.bound(fresh, face)?;
        self.bound_all(moved.cycles(), face)?;
        match whole {
            Some(whole) => self.share(whole, face),
            None => Ok(()),
        }
    }

    // An edge between two faces goes: what `gone` bounded, and those that moved, are in the face of `kept`.
    fn follow_union(
        &mut self,
        kept: CycleId,
        gone: CycleId,
        face: FaceId,
        moved: &Moved,
    ) -> Result<(), NoMemory>
        ensures { OnOk result (IsUnitedWhere (face_of self.old.bounds kept) face self.old.land.items self.new.land.items) }
    {
        let Some(whole) = self.face_of(kept) else {
            return Ok(());
        };
        let _bounded = self.bounds.remove(&gone.0);
        self.bound_all(moved.cycles(), whole)?;
        self.unite(face, whole)
    }

    // An edge came.
    fn follow_linked(&mut self, linked: &Linked) -> Result<(), NoMemory>
        ensures { OnOk result (IsLandLinked (face_of self.old.bounds) linked.now self.old.land.items self.new.land.items) }
    {
        match linked {
            Linked::NewHole { cycle, face } => self.bound(*cycle, *face),
            Linked::Grows { .. } => Ok(()),
            Linked::Joins { gone, .. } => {
                let _bounded = self.bounds.remove(&gone.0);
                Ok(())
            }
            Linked::Splits {
                kept,
                fresh,
                fresh_face,
                moved,
                ..
            } => self.follow_split(*kept, *fresh, *fresh_face, moved),
        }
    }

    // An edge went.
    fn follow_unlinked(&mut self, unlinked: &Unlinked) -> Result<(), NoMemory>
        ensures { OnOk result (IsLandUnlinked (face_of self.old.bounds) unlinked.now self.old.land.items self.new.land.items) }
    {
        match unlinked {
            Unlinked::Vanishes { cycle, .. } => {
                let _bounded = self.bounds.remove(&cycle.0);
                Ok(())
            }
            Unlinked::Shrinks { .. } => Ok(()),
            Unlinked::Breaks { kept, fresh, .. } => match self.face_of(*kept) {
                Some(face) => self.bound(*fresh, face),
                None => Ok(()),
            },
            Unlinked::Unites {
                kept,
                gone,
                gone_face,
                moved,
            } => self.follow_union(*kept, *gone, *gone_face, moved),
        }
    }

    /// Follows a change that was made. Land changes where a face is split or united with another one, and all of it goes where all goes.
    ///
    /// # Errors
    ///
    /// There was no memory, and not all that the change says is followed.
    pub fn follow(&mut self, change: &Change) -> Result<(), NoMemory>
        ensures { OnOk result (IsLandAfter (face_of self.old.bounds) change.now self.old.land.items self.new.land.items) }
    {
        match change {
            Change::AddEdge { faces, .. } => self.follow_linked(faces),
            Change::RemoveEdge { faces, .. } => self.follow_unlinked(faces),
            Change::Clear { .. } => {
                self.bounds.clear();
                self.land.clear();
                Ok(())
            }
            _ => Ok(()),
        }
    }

    /// Takes the boundaries over from the map as it stands.
    ///
    /// # Errors
    ///
    /// There was no memory for them.
    pub fn begin(&mut self, view: &View) -> Result<(), NoMemory>
        ensures { self.new.land ≡ self.old.land }
    {
        for row in view.cycles() {
            self.bound(row.name, row.face)?;
        }
        Ok(())
    }

    /// Heeds a note.
    ///
    /// # Errors
    ///
    /// There was no memory for what it says.
    pub fn heed(&mut self, note: &Note) -> Result<(), NoMemory> {
        match note {
            Note::After(change) => self.follow(change),
            Note::Snapshot(view) => self.begin(view),
            Note::Before(_) => Ok(()),
        }
    }
}
