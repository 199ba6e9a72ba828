ghost use Rattle.std.specs.Prelude.{◌≡◌, ◌≢◌, ◌==◌, ◌<◌, [], ◌∷◌, ◌++◌, length};
ghost use Rattle.std.specs.List.{AllByRecursion, IsDistinct};
ghost use Rattle.std.specs.List.Sorted.{IsPermutation};
ghost use Rattle.slab.specs.Slab.{ContainsKey};
ghost use Rattle.slab_laws.specs.View.{HasFace, face_id};
ghost use Rattle.dcel_records.specs.RecordsView.{graph_part, rank_given};
ghost use Rattle.dcel_records.specs.RankOrders.{AreInKeyOrder, AreRanked};
ghost use Rattle.dcel_records.specs.StoredRows.{rank_at, IsReranked};

use crate::records::Records;
use crate::rows::StoredFace;
use crate::table::Table;
use exact_plane::Point;
use slab_laws::FaceId;

/// A face with the ends of a dart, by which it is ordered.
#[derive(Clone, Copy, PartialEq, Eq, PartialOrd, Ord)]
pub struct RankKey {
    pub source: Point,
    pub target: Point,
    pub face: FaceId,
}

// The faces of the keys have the ranks from 1 on, in the order of the keys; the unbounded face has 0, unless it is one of them.
fn give_ranks(faces: &mut Table<StoredFace>, order: &[RankKey])
    requires unbounded { ContainsKey faces.old 0 }
    requires keys { AllByRecursion (λ k. ContainsKey faces.old k.face.0) order.now }
    ensures kept { IsReranked faces.old faces.new }
    ensures ranked { IsDistinct (λ a b. a.face.0 == b.face.0) order.now → AreRanked (rank_at faces.new) 1 order.now }
    ensures unbounded { AllByRecursion (λ k. k.face ≢ face_id 0) order.now → rank_at faces.new (face_id 0) ≡ 0 }
{
    faces[0].rank = 0;
    for (place, key) in order.iter().enumerate() {
        faces[key.face.0].rank = place + 1;
    }
}

impl Records {
    /// The order of faces is begun anew.
    pub fn clear_order(&mut self)
        ensures order { self.new.ranks.order ≡ [] }
        ensures ranks { self.new.ranks.ranks ≡ self.old.ranks.ranks }
        ensures graph { graph_part self.new ≡ graph_part self.old }
        ensures faces { self.new.faces ≡ self.old.faces }
        ensures mapped { self.new.mapped ≡ self.old.mapped }
    {
        self.order.clear();
    }

    /// One face more to be ordered, in room that is there: there is room for as many as cycles fit.
    pub fn push_key(&mut self, key: RankKey)
        requires { length self.old.ranks.order < self.old.faces.capacity_of_cycles }
        ensures order { self.new.ranks.order ≡ self.old.ranks.order ++ key ∷ [] }
        ensures ranks { self.new.ranks.ranks ≡ self.old.ranks.ranks }
        ensures graph { graph_part self.new ≡ graph_part self.old }
        ensures faces { self.new.faces ≡ self.old.faces }
        ensures mapped { self.new.mapped ≡ self.old.mapped }
    {
        self.order.push_reserved(key);
    }

    /// The keys of the faces that are to be ordered, or were.
    pub fn rank_keys(&self) -> &[RankKey]
        ensures { result.now ≡ self.now.ranks.order }
    {
        &self.order
    }

    /// Puts the faces in the order of their keys, and gives each the rank that is its place, from 1 on. The unbounded face has the
    /// rank 0 where it has no key. It takes no memory.
    pub fn rank_in_order(&mut self)
        requires { AllByRecursion (λ k. HasFace self.old.faces.tables k.face) self.old.ranks.order }
        ensures keys { IsPermutation self.old.ranks.order self.new.ranks.order }
        ensures ordered { AreInKeyOrder self.new.ranks.order }
        ensures ranked { IsDistinct (λ a b. a.face.0 == b.face.0) self.old.ranks.order → AreRanked (rank_given self.new) 1 self.new.ranks.order }
        ensures unbounded { AllByRecursion (λ k. k.face ≢ face_id 0) self.old.ranks.order → rank_given self.new (face_id 0) ≡ 0 }
        ensures graph { graph_part self.new ≡ graph_part self.old }
        ensures faces { self.new.faces ≡ self.old.faces }
        ensures mapped { self.new.mapped ≡ self.old.mapped }
    {
        self.order.sort_unstable();
        give_ranks(&mut self.faces, &self.order);
    }

    /// The rank that the face was given last; 0 where it was given none.
    pub fn rank_of(&self, face: FaceId) -> usize
        requires { HasFace self.now.faces.tables face }
        ensures { result ≡ rank_given self.now face }
    {
        self.faces[face.0].rank
    }
}
