ghost use Rattle.std.specs.Prelude.{◌≡◌, ◌≤◌, ◌∷◌, [], IfOk, OnOk, OnErr};
ghost use Rattle.exact_plane.specs.Point.{IsPoint};
ghost use Rattle.plane_graphs.specs.Graph.{graph};
ghost use Rattle.edit_steps.specs.Edits.{Insert, Drop, Pin, Unpin, Merge, ClearAll};
ghost use Rattle.edit_steps.specs.Layer.{empty_layer};
ghost use Rattle.edit_steps.specs.Refusals.{IsAnswerFor};
ghost use Rattle.curve_history.specs.Past.{curves_on};
ghost use Rattle.segment_insert.specs.Insertion.{insert_said};
ghost use Rattle.segment_remove.specs.Refused.{cut_between, cut_said, drop_said};
ghost use Rattle.pin_points.specs.Pins.{pin_said, unpin_said};
ghost use Rattle.pin_points.specs.Splits.{split_at, split_said};
ghost use Rattle.pin_points.specs.Merges.{merge_said};
ghost use Rattle.slab_laws.specs.FacesSound.{IsSound};
ghost use Rattle.slab_laws.specs.Sound.{IsGraphSound};
ghost use Rattle.slab_laws.specs.Subdivision.{holds};
ghost use Rattle.dcel_records.specs.RecordsView.{tables_of};
ghost use Rattle.dcel_records.specs.SoundMaps.{IsSoundMap};
ghost use Rattle.face_location.specs.Spots.{IsSpotOf};
ghost use Rattle.told_steps.specs.RecordLayers.{layer_of, IsLayer};
ghost use Rattle.told_steps.specs.LayerNames.{IsNamedBy};
ghost use Rattle.arrangement.specs.declared.limits.TheConstants.{MAX_CURVES, MAX_PIECES, MAX_PINS};
ghost use Rattle.curve_history.specs.declared.history.TheConstants.{LAST_CURVE};
ghost use Rattle.observer_bus.specs.RoundLaws.{HaveNamesApart};
ghost use Rattle.observer_bus.specs.Rows.{bus_row};
ghost use Rattle.arrangement.specs.Arranged.{arranged, layer_in, subdivision_by, IsWatched, refusal_in};
ghost use Rattle.arrangement.specs.Edited.{IsEdited, IsAsBefore};
ghost use Rattle.arrangement.specs.SpotCells.{HasSpot, cell_named};

use crate::counted::{insert_counted, insert_path_counted};
use crate::layer_records::{Findings, LayerRecords};
use crate::limits::Limits;
use crate::spots::{spot_at, starts_of};
use curve_history::History;
use dcel_records::{Records, Spot};
use exact_plane::{Path, Point, Segment};
use face_ranks::Ranking;
use locate_landmarks::Landmarks;
use locate_trapezoid::Trapezoids;
use no_memory::NoMemory;
use observer_bus::Bus;
use pin_points::{
    MergeError, NotPinned, PinError, SplitError, clear, merge_edge, pin, split_edge, unpin,
};
use segment_insert::InsertError;
use segment_remove::{CutError, DropError, remove_curve, remove_edge};
use slab_laws::{Cell, CurveId};
use std::alloc::Global;
use std::marker::Brand;
use std::sync::ledger::Blank;

/// A layer: segments that are curves with numbers, pinned points, and the subdivision of the plane that they make (CGAL
/// manual, `Arrangement_with_history_2`).
///
/// Vertices and edges that are there before and after an edit keep the names of their records. Observers are told of each step of an
/// edit before and after it (CGAL manual, `Arr_observer`).
#[derive(Drop)]
pub struct Arrangement {
    pub(crate) alloc: Global,
    pub(crate) limits: Limits,
    pub(crate) layer: LayerRecords,
    pub(crate) bus: Bus,
}

// Records of nothing but the unbounded face, and a history whose first curve gets the number `first`. The history takes no memory, which
// is a clause of it, so no way leads out while the records stand.
fn empty_records(alloc: Global, first: u32) -> Result<LayerRecords, NoMemory>
    requires { 1 ≤ first }
    ensures { IfOk result (λ l. layer_of l.graph l.past ≡ empty_layer first) }
{
    let records = Records::new(alloc)?;
    let history = History::new(alloc, first).unwrap();
    Ok(LayerRecords {
        records,
        history,
        findings: Findings {
            ranking: Ranking::Unknown,
            trapezoids: Trapezoids::new(),
            mapped: false,
            landmarks: Landmarks::new(alloc),
            landed: false,
        },
    })
}

impl Arrangement {
    /// A layer of nothing, whose first curve gets the number `limits.first`, over a bus that has no observers yet.
    ///
    /// A script's layer holds 2,000 curves, 10,000 pieces and 10,000 pins ([`Limits::FULL`]); others hold what their limits say, any number.
    /// The last number that a curve can get is 4,294,967,295, whatever the limits are.
    ///
    /// # Errors
    ///
    /// There was no memory for the record of the unbounded face.
    pub fn new(alloc: Global, limits: Limits, bus: Bus) -> Result<Arrangement, NoMemory>
        requires first { 1 ≤ limits.first }
        requires alone { (bus_row Observer-dyn bus).seats ≡ [] }
        ensures curves { MAX_CURVES ≡ 2000 }
        ensures pieces { MAX_PIECES ≡ 10000 }
        ensures pins { MAX_PINS ≡ 10000 }
        ensures last { LAST_CURVE ≡ 4294967295 }
        ensures empty { IfOk result (λ a. layer_in (arranged Observer-dyn a) ≡ empty_layer limits.first) }
        ensures limits { IfOk result (λ a. (arranged Observer-dyn a).limits ≡ limits) }
        ensures bus { IfOk result (λ a. (arranged Observer-dyn a).bus ≡ bus_row Observer-dyn bus) }
    {
        let layer = empty_records(alloc, limits.first)?;
        Ok(Arrangement {
            alloc,
            limits,
            layer,
            bus,
        })
    }

    /// The segment becomes a new curve, whose number is answered; all of it, or, at a refusal or for want of memory, nothing
    /// (CGAL manual, `insert`).
    ///
    /// # Errors
    ///
    /// One more curve or one more piece would pass its limit, the last number was drawn, or there was no memory.
    pub fn insert(&mut self, segment: Segment) -> Result<CurveId, InsertError>
        requires watched { IsWatched (arranged Observer-dyn self.old) }
        ensures number { IfOk result (λ c. c.0 ≡ (arranged Observer-dyn self.old).past.next) }
        ensures edit { OnOk result (IsEdited (arranged Observer-dyn self.old) (arranged Observer-dyn self.new) (Insert (arranged Observer-dyn self.old).past.next (segment ∷ []))) }
        ensures refused { IsAnswerFor insert_said (refusal_in (arranged Observer-dyn self.old) (Insert (arranged Observer-dyn self.old).past.next (segment ∷ []))) result }
        ensures as_before { OnErr result (IsAsBefore (arranged Observer-dyn self.old) (arranged Observer-dyn self.new)) }
        ensures limits { (arranged Observer-dyn self.new).limits ≡ (arranged Observer-dyn self.old).limits }
        ensures watched { IsWatched (arranged Observer-dyn self.new) }
    {
        let start = spot_at(&self.layer.records, &self.layer.history, &segment.lower());
        self.layer.findings.forget();
        insert_counted::<Brand>(
            Blank::new(1),
            self.alloc,
            &mut self.layer.records,
            &mut self.layer.history,
            &mut self.bus,
            self.limits.curves,
            self.limits.pieces,
            start,
            &segment,
        )
    }

    /// The path becomes a new curve of its sides, whose number is answered; all of it, or, at a refusal or for want of memory, nothing
    /// (CGAL manual, `insert` of a polyline). A path of one side is inserted as the segment that it is.
    ///
    /// # Errors
    ///
    /// One more curve or a piece more for each side would pass its limit, the last number was drawn, or there was no memory.
    pub fn insert_path(&mut self, path: &Path) -> Result<CurveId, InsertError>
        requires watched { IsWatched (arranged Observer-dyn self.old) }
        ensures number { IfOk result (λ c. c.0 ≡ (arranged Observer-dyn self.old).past.next) }
        ensures edit { OnOk result (IsEdited (arranged Observer-dyn self.old) (arranged Observer-dyn self.new) (Insert (arranged Observer-dyn self.old).past.next path.now)) }
        ensures refused { IsAnswerFor insert_said (refusal_in (arranged Observer-dyn self.old) (Insert (arranged Observer-dyn self.old).past.next path.now)) result }
        ensures as_before { OnErr result (IsAsBefore (arranged Observer-dyn self.old) (arranged Observer-dyn self.new)) }
        ensures limits { (arranged Observer-dyn self.new).limits ≡ (arranged Observer-dyn self.old).limits }
        ensures watched { IsWatched (arranged Observer-dyn self.new) }
    {
        let sides = path.sides();
        let starts = starts_of(&self.layer.records, &self.layer.history, sides);
        let (starts, _) = starts.split_at(sides.len());
        self.layer.findings.forget();
        insert_path_counted::<Brand>(
            Blank::new(1),
            self.alloc,
            &mut self.layer.records,
            &mut self.layer.history,
            &mut self.bus,
            self.limits.curves,
            self.limits.pieces,
            starts,
            path,
        )
    }

    /// A curve goes, with each edge along which no other curve runs; then each vertex that is redundant (CGAL
    /// manual, `remove_curve`). At a refusal or for want of memory nothing is changed.
    ///
    /// # Errors
    ///
    /// No curve has the number, or there was no memory for the list of its edges.
    pub fn remove_curve(&mut self, curve: CurveId) -> Result<(), DropError>
        requires watched { IsWatched (arranged Observer-dyn self.old) }
        ensures edit { OnOk result (IsEdited (arranged Observer-dyn self.old) (arranged Observer-dyn self.new) (Drop curve.0)) }
        ensures refused { IsAnswerFor drop_said (refusal_in (arranged Observer-dyn self.old) (Drop curve.0)) result }
        ensures as_before { OnErr result (IsAsBefore (arranged Observer-dyn self.old) (arranged Observer-dyn self.new)) }
        ensures limits { (arranged Observer-dyn self.new).limits ≡ (arranged Observer-dyn self.old).limits }
        ensures watched { IsWatched (arranged Observer-dyn self.new) }
    {
        self.layer.findings.forget();
        remove_curve(
            self.alloc,
            &mut self.layer.records,
            &mut self.layer.history,
            &mut self.bus,
            curve,
        )
    }

    /// The edge between two points, which come in either order, goes from all its curves, which keep the rest as shorter pieces
    /// (CGAL manual, `remove_edge`; the pieces: this project). At a refusal or for want of memory nothing is changed.
    ///
    /// # Errors
    ///
    /// No edge joins the points, the pieces that are left would pass their limit, or there was no memory for them.
    pub fn remove_edge(&mut self, p: &Point, q: &Point) -> Result<(), CutError>
        requires watched { IsWatched (arranged Observer-dyn self.old) }
        ensures edit { OnOk result (IsEdited (arranged Observer-dyn self.old) (arranged Observer-dyn self.new) (cut_between p.now q.now)) }
        ensures refused { IsAnswerFor cut_said (refusal_in (arranged Observer-dyn self.old) (cut_between p.now q.now)) result }
        ensures as_before { OnErr result (IsAsBefore (arranged Observer-dyn self.old) (arranged Observer-dyn self.new)) }
        ensures limits { (arranged Observer-dyn self.new).limits ≡ (arranged Observer-dyn self.old).limits }
        ensures watched { IsWatched (arranged Observer-dyn self.new) }
    {
        self.layer.findings.forget();
        remove_edge(
            self.alloc,
            &mut self.layer.records,
            &mut self.layer.history,
            &mut self.bus,
            self.limits.pieces,
            p,
            q,
        )
    }

    /// Pins a point: it is a vertex until it is unpinned. At a refusal or for want of memory nothing is changed.
    ///
    /// # Errors
    ///
    /// The point is pinned, one more pin would pass the limit, or there was no memory.
    pub fn pin(&mut self, p: &Point) -> Result<(), PinError>
        requires watched { IsWatched (arranged Observer-dyn self.old) }
        ensures edit { OnOk result (IsEdited (arranged Observer-dyn self.old) (arranged Observer-dyn self.new) (Pin p.now)) }
        ensures refused { IsAnswerFor pin_said (refusal_in (arranged Observer-dyn self.old) (Pin p.now)) result }
        ensures as_before { OnErr result (IsAsBefore (arranged Observer-dyn self.old) (arranged Observer-dyn self.new)) }
        ensures limits { (arranged Observer-dyn self.new).limits ≡ (arranged Observer-dyn self.old).limits }
        ensures watched { IsWatched (arranged Observer-dyn self.new) }
    {
        let at = spot_at(&self.layer.records, &self.layer.history, p);
        self.layer.findings.forget();
        pin(
            self.alloc,
            &mut self.layer.records,
            &mut self.layer.history,
            &mut self.bus,
            self.limits.pins,
            at,
            p,
        )
    }

    /// Unpins a point: it stays a vertex only where segments make it one. It takes no memory.
    ///
    /// # Errors
    ///
    /// The point isn't pinned, and nothing is changed.
    pub fn unpin(&mut self, p: &Point) -> Result<(), NotPinned>
        requires watched { IsWatched (arranged Observer-dyn self.old) }
        ensures edit { OnOk result (IsEdited (arranged Observer-dyn self.old) (arranged Observer-dyn self.new) (Unpin p.now)) }
        ensures refused { IsAnswerFor unpin_said (refusal_in (arranged Observer-dyn self.old) (Unpin p.now)) result }
        ensures as_before { OnErr result (IsAsBefore (arranged Observer-dyn self.old) (arranged Observer-dyn self.new)) }
        ensures limits { (arranged Observer-dyn self.new).limits ≡ (arranged Observer-dyn self.old).limits }
        ensures watched { IsWatched (arranged Observer-dyn self.new) }
    {
        self.layer.findings.forget();
        unpin(
            self.alloc,
            &mut self.layer.records,
            &mut self.layer.history,
            &mut self.bus,
            p,
        )
    }

    /// Pins a point inside the edge between two others, which come in either order (CGAL manual, `split_edge`; the pin: this
    /// project). At a refusal or for want of memory nothing is changed.
    ///
    /// # Errors
    ///
    /// No edge joins the points, the point isn't strictly inside it, one more pin would pass the limit, or there was no memory.
    pub fn split_edge(&mut self, p: &Point, q: &Point, r: &Point) -> Result<(), SplitError>
        requires watched { IsWatched (arranged Observer-dyn self.old) }
        ensures edit { OnOk result (IsEdited (arranged Observer-dyn self.old) (arranged Observer-dyn self.new) (split_at p.now q.now r.now)) }
        ensures refused { IsAnswerFor split_said (refusal_in (arranged Observer-dyn self.old) (split_at p.now q.now r.now)) result }
        ensures as_before { OnErr result (IsAsBefore (arranged Observer-dyn self.old) (arranged Observer-dyn self.new)) }
        ensures limits { (arranged Observer-dyn self.new).limits ≡ (arranged Observer-dyn self.old).limits }
        ensures watched { IsWatched (arranged Observer-dyn self.new) }
    {
        self.layer.findings.forget();
        split_edge(
            self.alloc,
            &mut self.layer.records,
            &mut self.layer.history,
            &mut self.bus,
            self.limits.pins,
            p,
            q,
            r,
        )
    }

    /// Unpins a point that its pin alone makes a vertex, where two edges meet: they become one (CGAL manual, `merge_edge`; the
    /// pin: this project). It takes no memory.
    ///
    /// # Errors
    ///
    /// No vertex is at the point; or it isn't pinned, would be a vertex without its pin, or has no edge. Nothing is changed.
    pub fn merge_edge(&mut self, r: &Point) -> Result<(), MergeError>
        requires watched { IsWatched (arranged Observer-dyn self.old) }
        ensures edit { OnOk result (IsEdited (arranged Observer-dyn self.old) (arranged Observer-dyn self.new) (Merge r.now)) }
        ensures refused { IsAnswerFor merge_said (refusal_in (arranged Observer-dyn self.old) (Merge r.now)) result }
        ensures as_before { OnErr result (IsAsBefore (arranged Observer-dyn self.old) (arranged Observer-dyn self.new)) }
        ensures limits { (arranged Observer-dyn self.new).limits ≡ (arranged Observer-dyn self.old).limits }
        ensures watched { IsWatched (arranged Observer-dyn self.new) }
    {
        self.layer.findings.forget();
        merge_edge(
            self.alloc,
            &mut self.layer.records,
            &mut self.layer.history,
            &mut self.bus,
            r,
        )
    }

    /// No segment and no pin is left; the next curve gets the number that it would have got (CGAL manual, `clear`). It takes
    /// no memory.
    pub fn clear(&mut self)
        requires watched { IsWatched (arranged Observer-dyn self.old) }
        ensures edit { IsEdited (arranged Observer-dyn self.old) (arranged Observer-dyn self.new) ClearAll }
        ensures limits { (arranged Observer-dyn self.new).limits ≡ (arranged Observer-dyn self.old).limits }
        ensures watched { IsWatched (arranged Observer-dyn self.new) }
    {
        self.layer.findings.forget();
        clear(
            self.alloc,
            &mut self.layer.records,
            &mut self.layer.history,
            &mut self.bus,
        );
    }

    /// What is true of all arrangements: the records are sound, as calls on them ask (`zone_walk::zone`, for one), and so are
    /// their cycles and faces; with the history they stand for the layer; their names are those of the vertices, edges and pins of
    /// the present; and no two observers have one name.
    pub fn laws(&self)
        ensures sound { IsGraphSound (arranged Observer-dyn self.now).graph }
        ensures faced { IsSound (arranged Observer-dyn self.now).graph (arranged Observer-dyn self.now).faces }
        ensures layer { IsLayer (arranged Observer-dyn self.now).graph (arranged Observer-dyn self.now).past }
        ensures apart { HaveNamesApart (arranged Observer-dyn self.now).bus.seats }
        ensures named { IsNamedBy (arranged Observer-dyn self.now).graph (curves_on (arranged Observer-dyn self.now).past) (graph (layer_in (arranged Observer-dyn self.now)).present) }
    {
        // Any use of a field tells what is kept.
        let _records = &self.layer.records;
        self.bus.laws();
    }

    /// The records of vertices and darts, to be read by name.
    pub fn records(&self) -> &Records
        ensures graph { result.now.graph ≡ (arranged Observer-dyn self.now).graph }
        ensures faces { tables_of result.now ≡ (arranged Observer-dyn self.now).faces }
        ensures map { IsSoundMap result.now }
    {
        &self.layer.records
    }

    /// What [`locate`](Arrangement::locate) answers of the points at a spot, which names a vertex, an edge or a face of the records: the
    /// point of the vertex, the lower and the upper end of the edge, whichever of its darts is named, or the number of the face (this
    /// project).
    ///
    /// It keeps nothing, so that it takes the arrangement as `&self`, and no memory. A vertex and an edge are looked up. The number of a face
    /// is looked up where two locations in faces have been answered since the last edit; after one of them each outer boundary is looked at
    /// once, and before that each outer boundary is gone along twice. For many faces call [`number_of`](Arrangement::number_of) first.
    pub fn cell_of(&self, spot: Spot) -> Cell
        requires spot { HasSpot (arranged Observer-dyn self.now).graph (arranged Observer-dyn self.now).faces spot }
        ensures cell { result ≡ cell_named (arranged Observer-dyn self.now).graph (arranged Observer-dyn self.now).faces spot }
        ensures located { (p : _) → IsPoint p → IsSpotOf (arranged Observer-dyn self.now).graph (arranged Observer-dyn self.now).faces p spot → result ≡ holds (subdivision_by (arranged Observer-dyn self.now)) p }
    {
        self.laws();
        self.layer.cell_of(spot)
    }

    /// The history of the curves, to be read beside the records.
    pub fn history(&self) -> &History
        ensures { result.now ≡ (arranged Observer-dyn self.now).past }
    {
        &self.layer.history
    }
}
