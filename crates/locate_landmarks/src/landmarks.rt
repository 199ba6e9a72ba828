//! The landmarks of records.
ghost use Rattle.std.specs.Prelude.{◌≡◌, ℕ, ◌+◌, ◌<◌, ◌≤◌, [], None, OnOk, OnErr};
ghost use Rattle.slab_laws.specs.View.{HasFace};
ghost use Rattle.dcel_records.specs.RecordsView.{tables_of};
ghost use Rattle.dcel_records.specs.SoundMaps.{IsSoundMap};
ghost use Rattle.dcel_records.specs.Spots.{IsVertexAt};
ghost use Rattle.counted_looks.specs.Looks.{vertex_looks};
ghost use Rattle.face_location.specs.Spots.{IsSpotOf};
ghost use Rattle.locate_walk.specs.Looks.{IsBelowOrNone};
ghost use Rattle.locate_landmarks.specs.Built.{IsBuiltFor, IsColumnBelow};
ghost use Rattle.locate_landmarks.specs.Grid.{landmark_at};
ghost use Rattle.locate_landmarks.specs.Ways.{IsFaceAt, IsSizeOfWay};

use crate::course::Course;
use crate::grid::{LANDMARKS, landmark_at, landmark_index, row_of};
use crate::walk::walk_from;
use counted_looks::{Glance, NameCalls};
use dcel_records::{Records, Spot};
use exact_plane::Point;
use locate_walk::{EdgeBelow, climb};
use no_memory::NoMemory;
use slab_laws::FaceId;
use std::alloc::Global;
use std::marker::{Brand, Model};
use std::sync::ledger::{Blank, Ledger};
use work_steps::Steps;

/// Where the landmarks lie in records, from column to column; nothing, where that isn't known or was forgotten.
#[derive(Drop)]
pub struct Landmarks {
    spots: Vec<Spot>,
}

impl Model for Landmarks {
    ghost use Rattle.std.specs.Prelude.{List};
    ghost use Rattle.dcel_records.specs.declared.spot.Spot.{Spot as Place};

    ghost Value = { List Place };

    ghost view = { λ l. l.spots.items };
}

// The walk up to a landmark, with a counter of its own.
fn climb_counted<L: Ledger>(
    blank: Blank,
    glance: &Glance,
    first: Option<EdgeBelow>,
    landmark: &Point,
) -> (Spot, Option<EdgeBelow>)
    requires name { blank.name ≡ L.name }
    requires parts { blank.parts ≡ L.parts }
    requires some { 0 < L.parts }
    requires map { IsSoundMap glance.now }
    requires first { IsBelowOrNone glance.now.graph landmark.now first }
    ensures spot { IsSpotOf glance.now.graph (tables_of glance.now) landmark.now result.0 }
    ensures last { IsBelowOrNone glance.now.graph landmark.now result.1 }
{
    let mut steps = Steps::<L>::new(blank);
    climb(glance, first, landmark, &mut steps)
}

// Where a landmark lies, by a walk up to it, and the edge that was passed last.
fn spot_of(glance: &Glance, first: Option<EdgeBelow>, landmark: &Point) -> (Spot, Option<EdgeBelow>)
    requires map { IsSoundMap glance.now }
    requires first { IsBelowOrNone glance.now.graph landmark.now first }
    ensures spot { IsSpotOf glance.now.graph (tables_of glance.now) landmark.now result.0 }
    ensures last { IsBelowOrNone glance.now.graph landmark.now result.1 }
{
    climb_counted::<Brand>(Blank::new(1), glance, first, landmark)
}

// From which edge the walk up to a landmark begins: at the lowest one of a column from none, at the others from the last edge below the
// one before.
fn first_below(glance: &Glance, index: usize, last: Option<EdgeBelow>) -> Option<EdgeBelow>
    requires map { IsSoundMap glance.now }
    requires last { IsColumnBelow glance.now.graph index last }
    ensures { IsBelowOrNone glance.now.graph (landmark_at index) result }
{
    if row_of(index) == 0 { None } else { last }
}

// A face at a spot: the one that it is in, or one that borders it.
fn face_at(glance: &Glance, spot: Spot) -> FaceId
    requires map { IsSoundMap glance.now }
    requires spot { (p : _) × IsSpotOf glance.now.graph (tables_of glance.now) p spot }
    ensures has { HasFace (tables_of glance.now) result }
    ensures at { IsFaceAt glance.now.graph (tables_of glance.now) spot result }
{
    match spot {
        Spot::Face(face) => face,
        Spot::Edge(dart) => glance.face(glance.cycle(dart)),
        Spot::Vertex(vertex) => match glance.out_of(vertex) {
            Some(dart) => glance.face(glance.cycle(dart)),
            None => glance.bare_face(vertex),
        },
    }
}

impl Landmarks {
    /// None, as after `forget`. It takes no memory.
    pub fn new(alloc: Global) -> Landmarks
        ensures { result ≡ [] }
    {
        Landmarks {
            spots: Vec::new(alloc),
        }
    }

    /// Finds where each landmark lies in the records, by the walk up along its vertical. Those of one column share it, so the walk to one
    /// goes on from the edge below the one before.
    ///
    /// # Errors
    ///
    /// There was no memory, and the landmarks are forgotten.
    pub fn build(&mut self, records: &Records) -> Result<(), NoMemory>
        requires { IsSoundMap records.now }
        ensures built { OnOk result (IsBuiltFor self.new records.now.graph (tables_of records.now)) }
        ensures forgotten { OnErr result (self.new ≡ []) }
    {
        self.spots.clear();
        self.spots.reserve(LANDMARKS)?;
        let glance = Glance::of(records);
        let mut last = None;
        for index in 0..LANDMARKS {
            let first = first_below(&glance, index, last);
            let (spot, below) = spot_of(&glance, first, &landmark_at(index));
            self.spots.push_reserved(spot);
            last = below;
        }
        Ok(())
    }

    /// Where a point lies in the records for which the landmarks were built: the vertex at it, else the edge that has it inside, else
    /// the face that it lies in (CGAL manual, `Arr_landmarks_point_location`).
    ///
    /// The records tell the vertex at the point (`Glance::vertex_at`). Where there is none, it walks from the landmark that
    /// `landmark_of` tells, along the horizontal to the point's abscissa and then along the vertical, by looks at the darts on the
    /// boundaries of the faces on the way: at most as many as these boundaries are long together, beside the question for the vertex. It
    /// takes no memory.
    pub fn locate<L: Ledger>(&self, glance: &Glance, p: &Point, steps: &mut Steps<L>) -> Spot
        requires map { IsSoundMap glance.now }
        requires built { IsBuiltFor self.now glance.now.graph (tables_of glance.now) }
        ensures spot { IsSpotOf glance.now.graph (tables_of glance.now) p.now result }
        ensures asked { (v : _) → result ≡ Spot.Vertex v → steps.new ≤ steps.old + vertex_looks glance.now }
        ensures looks { IsVertexAt glance.now.graph p.now None → (n : ℕ) × IsSizeOfWay glance.now p.now n × (steps.new ≤ steps.old + (vertex_looks glance.now + n)) }
    {
        if let Some(vertex) = glance.vertex_at(p, steps) {
            return Spot::Vertex(vertex);
        }
        let index = landmark_index(p);
        let face = face_at(glance, self.spots[index]);
        walk_from(glance, face, &Course::to(p, index), steps)
    }

    /// Forgets where the landmarks lie.
    pub fn forget(&mut self)
        ensures { self.new ≡ [] }
    {
        self.spots.clear();
    }
}
