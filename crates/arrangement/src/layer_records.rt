ghost use Rattle.std.specs.Prelude.{◌≡◌, ◌<◌, false, IfOk, OnOk, OnErr};
ghost use Rattle.slab_laws.specs.Sound.{IsGraphSound};
ghost use Rattle.slab_laws.specs.View.{HasFace};
ghost use Rattle.dcel_records.specs.RecordsView.{tables_of};
ghost use Rattle.dcel_records.specs.SoundMaps.{IsSoundMap};
ghost use Rattle.face_location.specs.Spots.{IsSpotOf};
ghost use Rattle.face_ranks.specs.Ranks.{rank_in};
ghost use Rattle.locate_landmarks.specs.Built.{IsBuiltFor as AreLandmarksOf};
ghost use Rattle.locate_trapezoid.specs.Built.{IsBuiltFor};
ghost use Rattle.slab_laws.specs.FacesSound.{IsSound};
ghost use Rattle.slab_laws.specs.Subdivision.{holds};
ghost use Rattle.told_steps.specs.RecordLayers.{IsLayer as IsLayerOf};
ghost use Rattle.arrangement.specs.LayerRecords.{IsMappedWhere, AreLandedWhere, subdivision_of};
ghost use Rattle.arrangement.specs.Questions.{TakesMemory};
ghost use Rattle.arrangement.specs.SpotCells.{HasSpot, cell_named};

use crate::spots::{edge_cell, walk_to};
use counted_looks::Glance;
use curve_history::History;
use dcel_records::{Records, Spot};
use exact_plane::Point;
use face_ranks::{Ranking, rank_of, rank_told};
use locate_landmarks::Landmarks;
use locate_naive::locate as look_at_all;
use locate_trapezoid::Trapezoids;
use no_memory::NoMemory;
use slab_laws::{Cell, Darts, FaceId, Strategy};
use sound_views::forward_dart;
use std::alloc::Global;
use std::marker::{Brand, Model};
use std::sync::ledger::{Blank, Ledger};
use work_steps::Steps;

/// What questions found in the records of a layer, for those that follow. An edit makes them other records, so it forgets this first.
#[derive(Drop)]
pub(crate) struct Findings {
    // What the records keep of the ranks of faces, of which an edit may change every one.
    pub(crate) ranking: Ranking,
    pub(crate) trapezoids: Trapezoids,
    // Whether the trapezoidal map is of these records.
    pub(crate) mapped: bool,
    pub(crate) landmarks: Landmarks,
    // Whether the landmarks lie in these records where they were found.
    pub(crate) landed: bool,
}

impl Findings {
    ghost use Rattle.face_ranks.specs.declared.order.Ranking.TheVariants.{Unknown};

    /// Nothing is said of any records from here on. The room for it stays.
    pub(crate) fn forget(&mut self)
        ensures ranking { self.new.ranking ≡ Unknown }
        ensures mapped { self.new.mapped ≡ false }
        ensures landed { self.new.landed ≡ false }
        ensures same { (self.new.trapezoids ≡ self.old.trapezoids) × (self.new.landmarks ≡ self.old.landmarks) }
    {
        self.ranking = Ranking::Unknown;
        self.mapped = false;
        self.landed = false;
    }
}

/// The records of a layer and their history, which stand for it together.
// The findings are a struct of their own, since contracts see its fields: of this type they see the records and the history alone, and
// an edit has to know that nothing is found.
#[derive(Drop)]
pub(crate) struct LayerRecords {
    pub(crate) records: Records,
    pub(crate) history: History,
    pub(crate) findings: Findings,
}

impl Model for LayerRecords {
    ghost use Rattle.told_steps.specs.RecordLayers.{IsLayer};
    ghost use Rattle.dcel_records.specs.RecordsView.{tables_of};
    ghost use Rattle.face_ranks.specs.Ranks.{AreRankedAs};
    ghost use Rattle.arrangement.specs.LayerRecords.{IsMappedWhere, AreLandedWhere, LayerRecordsView};

    ghost Value = { LayerRecordsView };

    ghost view = { λ l. record { graph = l.records.graph; faces = tables_of l.records; past = l.history } };

    ghost use Rattle.dcel_records.specs.SoundMaps.{IsMapAtRest};

    ghost invariant = { λ l. IsLayer l.records.graph l.history × (IsMapAtRest l.records × (AreRankedAs l.findings.ranking l.records × (IsMappedWhere l.findings.mapped l.records l.findings.trapezoids × AreLandedWhere l.findings.landed l.records l.findings.landmarks))) };
}

// Where a point lies by the trapezoidal map, with a counter of its own.
fn mapped_counted<L: Ledger>(
    blank: Blank,
    trapezoids: &Trapezoids,
    records: &Records,
    p: &Point,
) -> Spot
    requires name { blank.name ≡ L.name }
    requires parts { blank.parts ≡ L.parts }
    requires some { 0 < L.parts }
    requires map { IsSoundMap records.now }
    requires built { IsBuiltFor records.now.graph trapezoids.now }
    ensures { IsSpotOf records.now.graph (tables_of records.now) p.now result }
{
    let mut steps = Steps::<L>::new(blank);
    trapezoids.locate(&Glance::of(records), p, &mut steps)
}

// Where a point lies by the trapezoidal map. It takes no memory.
fn mapped_spot(trapezoids: &Trapezoids, records: &Records, p: &Point) -> Spot
    requires map { IsSoundMap records.now }
    requires built { IsBuiltFor records.now.graph trapezoids.now }
    ensures { IsSpotOf records.now.graph (tables_of records.now) p.now result }
{
    mapped_counted::<Brand>(Blank::new(1), trapezoids, records, p)
}

// Where a point lies by the walk from its landmark, with a counter of its own.
fn landed_counted<L: Ledger>(
    blank: Blank,
    landmarks: &Landmarks,
    records: &Records,
    p: &Point,
) -> Spot
    requires name { blank.name ≡ L.name }
    requires parts { blank.parts ≡ L.parts }
    requires some { 0 < L.parts }
    requires map { IsSoundMap records.now }
    requires built { AreLandmarksOf landmarks.now records.now.graph (tables_of records.now) }
    ensures { IsSpotOf records.now.graph (tables_of records.now) p.now result }
{
    let mut steps = Steps::<L>::new(blank);
    landmarks.locate(&Glance::of(records), p, &mut steps)
}

// Where a point lies by the walk from its landmark. It takes no memory.
fn landed_spot(landmarks: &Landmarks, records: &Records, p: &Point) -> Spot
    requires map { IsSoundMap records.now }
    requires built { AreLandmarksOf landmarks.now records.now.graph (tables_of records.now) }
    ensures { IsSpotOf records.now.graph (tables_of records.now) p.now result }
{
    landed_counted::<Brand>(Blank::new(1), landmarks, records, p)
}

// The landmarks are found in the records, unless it is known that they were.
fn land_unless(landed: bool, records: &Records, landmarks: &mut Landmarks) -> Result<(), NoMemory>
    requires map { IsSoundMap records.now }
    requires known { AreLandedWhere landed records.now landmarks.old }
    ensures { OnOk result (AreLandmarksOf landmarks.new records.now.graph (tables_of records.now)) }
{
    if landed {
        return Ok(());
    }
    landmarks.build(records)
}

// The trapezoidal map is built for the records, unless it is known to be.
fn build_unless(
    mapped: bool,
    alloc: Global,
    records: &Records,
    trapezoids: &mut Trapezoids,
) -> Result<(), NoMemory>
    requires sound { IsGraphSound records.now.graph }
    requires known { IsMappedWhere mapped records.now trapezoids.old }
    ensures { OnOk result (IsBuiltFor records.now.graph trapezoids.new) }
{
    if mapped {
        return Ok(());
    }
    trapezoids.build(alloc, records)
}

impl LayerRecords {
    // Where a point lies by the trapezoidal map, which the first question since the last edit builds.
    fn map_and_locate(&mut self, alloc: Global, p: &Point) -> Result<Spot, NoMemory>
        ensures spot { IfOk result (IsSpotOf self.old.graph self.old.faces p.now) }
        ensures same { self.new ≡ self.old }
    {
        let mapped = self.findings.mapped;
        // Until it is built.
        self.findings.mapped = false;
        build_unless(mapped, alloc, &self.records, &mut self.findings.trapezoids)?;
        self.findings.mapped = true;
        Ok(mapped_spot(&self.findings.trapezoids, &self.records, p))
    }

    // Where a point lies by the walk from its landmark; the first question since the last edit finds where the landmarks lie.
    fn land_and_locate(&mut self, p: &Point) -> Result<Spot, NoMemory>
        ensures spot { IfOk result (IsSpotOf self.old.graph self.old.faces p.now) }
        ensures same { self.new ≡ self.old }
    {
        let landed = self.findings.landed;
        // Until they are found.
        self.findings.landed = false;
        land_unless(landed, &self.records, &mut self.findings.landmarks)?;
        self.findings.landed = true;
        Ok(landed_spot(&self.findings.landmarks, &self.records, p))
    }

    // Where a point lies, found by the strategy.
    fn spot_by(&mut self, alloc: Global, strategy: Strategy, p: &Point) -> Result<Spot, NoMemory>
        ensures spot { IfOk result (IsSpotOf self.old.graph self.old.faces p.now) }
        ensures no_memory { OnErr result (TakesMemory strategy) }
        ensures same { self.new ≡ self.old }
    {
        match strategy {
            Strategy::Naive => Ok(look_at_all(&self.records, p)),
            Strategy::Walk => Ok(walk_to(&self.records, p)),
            Strategy::Landmarks => self.land_and_locate(p),
            Strategy::Trapezoid => self.map_and_locate(alloc, p),
        }
    }

    /// The rank of a face.
    ///
    /// The first question since the last edit goes once along each outer cycle and counts the faces that come before this one; the second
    /// one sorts as many keys as there are bounded faces, in room that the records have; the next ones look the rank up. It takes no
    /// memory.
    pub(crate) fn rank_of(&mut self, face: FaceId) -> usize
        requires { HasFace self.old.faces face }
        ensures rank { result ≡ rank_in self.old.graph self.old.faces face }
        ensures same { self.new ≡ self.old }
    {
        rank_of(&mut self.records, &mut self.findings.ranking, face)
    }

    // What is true of all: the history goes with the graph, and the map is sound.
    fn laws(&self)
        ensures layer { IsLayerOf self.now.graph self.now.past }
        ensures sound { IsSound self.now.graph self.now.faces }
    {
        // Any use of a field tells what is kept.
        let _ = &self.findings;
    }

    /// What a point is told to lie in, which lies at a spot.
    pub(crate) fn cell_at(&mut self, spot: Spot, p: &Point) -> Cell
        requires { IsSpotOf self.old.graph self.old.faces p.now spot }
        ensures cell { result ≡ holds (subdivision_of self.old) p.now }
        ensures same { self.new ≡ self.old }
    {
        self.laws();
        p.laws();
        match spot {
            Spot::Vertex(_) => Cell::Vertex(*p),
            Spot::Edge(dart) => edge_cell(&self.records, dart),
            Spot::Face(face) => Cell::Face(self.rank_of(face)),
        }
    }

    /// What location says of a spot that the records name: a face by its rank, told by what is kept of ranks, or by two walks along each
    /// outer cycle where nothing is. It takes no memory and keeps nothing.
    pub(crate) fn cell_of(&self, spot: Spot) -> Cell
        requires spot { HasSpot self.now.graph self.now.faces spot }
        ensures cell { result ≡ cell_named self.now.graph self.now.faces spot }
    {
        match spot {
            Spot::Vertex(vertex) => Cell::Vertex(self.records.point(vertex)),
            Spot::Edge(dart) => edge_cell(&self.records, forward_dart(&self.records, dart)),
            Spot::Face(face) => {
                Cell::Face(rank_told(&self.records, self.findings.ranking, face))
            }
        }
    }

    /// Where a point lies, found by the strategy.
    ///
    /// By the trapezoidal map: the first question since the last edit builds it, and the next ones go down in it. From landmarks: the
    /// first one finds where they lie. Of a point in a face, the first question since the last edit counts the faces before it, the second
    /// one ranks all, and the next ones look the rank up.
    ///
    /// # Errors
    ///
    /// There was no memory, by the trapezoidal map or from landmarks.
    pub(crate) fn locate(
        &mut self,
        alloc: Global,
        strategy: Strategy,
        p: &Point,
    ) -> Result<Cell, NoMemory>
        ensures cell { IfOk result (λ c. c ≡ holds (subdivision_of self.old) p.now) }
        ensures no_memory { OnErr result (TakesMemory strategy) }
        ensures same { self.new ≡ self.old }
    {
        let spot = self.spot_by(alloc, strategy, p)?;
        Ok(self.cell_at(spot, p))
    }
}
