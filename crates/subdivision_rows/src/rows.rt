ghost use Rattle.std.specs.Prelude.{◌≡◌};
ghost use Rattle.plane_graphs.specs.Plane.{IsPlane};
ghost use Rattle.slab_laws.specs.FacesSound.{IsSound};
ghost use Rattle.subdivision_rows.specs.Listed.{view_of, faces_of, AreLinesOf};
ghost use Rattle.subdivision_rows.specs.RowsInMemory.{drawing_of, AreSoundRows};

use crate::lists::RowLists;
use std::marker::Model;

/// The subdivision of the plane by a graph, in ascending lists: anything's name is its place in its list, a face's is its
/// rank.
#[derive(Drop)]
pub struct Rows {
    pub(crate) lists: RowLists,
}

impl Model for Rows {
    ghost use Rattle.subdivision_rows.specs.Listed.{Drawing};

    ghost Value = { Drawing };

    ghost use Rattle.subdivision_rows.specs.RowsInMemory.{drawing_of, AreSoundRows};

    ghost view = { λ a. drawing_of a.lists };

    ghost invariant = { λ a. AreSoundRows a.lists };
}

impl Rows {
    /// The rows of these lists.
    pub fn of(lists: RowLists) -> Rows
        requires { AreSoundRows lists }
        ensures { result ≡ drawing_of lists }
    {
        Rows { lists }
    }

    /// The lists, to be read by place.
    pub fn lists(&self) -> &RowLists
        ensures sound { AreSoundRows result.now }
        ensures drawing { drawing_of result.now ≡ self.now }
    {
        &self.lists
    }

    /// What is true of all rows: their graph is plane, each of its edges has its line, and the records are a sound view of it: each
    /// bounded face has one outer cycle, and the unbounded one none.
    pub fn laws(&self)
        ensures plane { IsPlane self.now.graph }
        ensures lines { AreLinesOf self.now }
        ensures stands { IsSound (view_of self.now) (faces_of self.now) }
    {
        // Any use of a field tells what is kept.
        let _lists = &self.lists;
    }
}
