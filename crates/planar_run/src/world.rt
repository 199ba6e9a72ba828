ghost use Rattle.std.specs.Prelude.{◌≡◌, ◌∷◌, [], true, length, map, IfOk, IfErr, OnOk, OnErr};
ghost use Rattle.plane_graphs.specs.Graph.{curves};
ghost use Rattle.arrangement.specs.Arranged.{arranged};
ghost use Rattle.arrangement.specs.Questions.{TakesMemory};
ghost use Rattle.arrangement.specs.Answers.{insert_said, drop_said, cut_said, pin_said, unpin_said, split_said, merge_said, edge_of, cut_between, split_at};
ghost use Rattle.edit_steps.specs.Edits.{Insert, Drop, Pin, Unpin, Merge, ClearAll};
ghost use Rattle.edit_steps.specs.Refusals.{IsAnswerFor};
ghost use Rattle.slab_laws.specs.Sound.{edge_between};
ghost use Rattle.slab_laws.specs.Subdivision.{holds};
ghost use Rattle.slab_laws.specs.Text.{skeleton, present_text};
ghost use Rattle.vertical_laws.specs.VerticalText.{vertical_text};
ghost use Rattle.envelope_laws.specs.EnvelopeText.{envelope_text};
ghost use Rattle.planar_run.specs.World.{first_half, first_world};
ghost use Rattle.planar_run.specs.Premises.{graph_of, is_named, is_edge};
ghost use Rattle.planar_run.specs.Answer.{counted, edges_along, subdivision_of, IsDone};
ghost use Rattle.planar_run.specs.Refusals.{refusal_of, BarsEdge, BarsEdges};
ghost use Rattle.planar_run.specs.Rows.{arranged_row, half_in, waiting_rows, world_row, IsKept, IsKeptWorld};

use crate::places::all_waiting;
use arr_notes::Observer;
use arrangement::{
    Arrangement, Bus, Counts, CutError, DropError, EdgeError, HistoryError, InsertError, Limits,
    MergeError, NotPinned, PinError, SEATS, SplitError, Went, Which,
};
use exact_plane::{Path, Point, Segment};
use no_memory::NoMemory;
use slab_laws::{Cell, CurveId, Strategy};
use std::alloc::Global;

/// What the lines of a script have built so far, two arrangements, each under the limits of a script, the one that lines mean and the
/// other; the observers that wait, each at the place of its number; and how points are located, which shows in no reply but `no memory`.
///
/// Contracts see it as a row (`specs/Rows.antt`): what a boxed observer means is handed to them by the observers' own words.
#[derive(Drop)]
pub struct World {
    pub(crate) arrangement: Arrangement,
    // The arrangement that lines don't mean, and whether they mean the blue one.
    pub(crate) other: Arrangement,
    pub(crate) is_blue: bool,
    pub(crate) observers: Vec<Option<Box<dyn Observer>>>,
    pub(crate) alloc: Global,
    pub(crate) strategy: Strategy,
}

// An arrangement of nothing, under the limits of a script, over a bus with room for all its seats and nobody in them.
fn empty_arrangement(alloc: Global) -> Result<Arrangement, NoMemory>
    ensures first { IfOk result (λ a. half_in (arranged Observer-dyn a) ≡ first_half) }
    ensures kept { IfOk result (λ a. IsKept (arranged Observer-dyn a)) }
{
    let bus = Bus::new(alloc, Vec::with_capacity(alloc, SEATS)?)?;
    Arrangement::new(alloc, Limits::FULL, bus)
}

impl World {
    /// The world before the first line, where lines mean the red arrangement and all observers wait.
    pub fn new(
        alloc: Global,
        strategy: Strategy,
        observers: Vec<Box<dyn Observer>>,
    ) -> Result<World, NoMemory>
        ensures first { IfOk result (λ w. world_row Observer-dyn w ≡ first_world strategy (waiting_rows Observer-dyn observers.items)) }
        ensures kept { IfOk result (λ w. IsKeptWorld Observer-dyn w) }
    {
        let observers = all_waiting(alloc, observers)?;
        let red = empty_arrangement(alloc)?;
        let blue = empty_arrangement(alloc)?;
        Ok(World {
            arrangement: red,
            other: blue,
            is_blue: false,
            observers,
            alloc,
            strategy,
        })
    }

    /// Makes a segment a new curve, under the next number, which is answered.
    pub fn insert(&mut self, segment: Segment) -> Result<CurveId, InsertError>
        requires kept { IsKeptWorld Observer-dyn self.old }
        ensures number { IfOk result (λ c. c.0 ≡ (world_row Observer-dyn self.old).layer.next) }
        ensures done { OnOk result (IsDone (Insert (world_row Observer-dyn self.old).layer.next (segment ∷ [])) (world_row Observer-dyn self.old) (world_row Observer-dyn self.new) (arranged_row Observer-dyn self.new).bus.went) }
        ensures refused { IsAnswerFor insert_said (refusal_of (world_row Observer-dyn self.old) (Insert (world_row Observer-dyn self.old).layer.next (segment ∷ []))) result }
        ensures err { OnErr result (world_row Observer-dyn self.new ≡ world_row Observer-dyn self.old) }
        ensures kept { IsKeptWorld Observer-dyn self.new }
    {
        self.arrangement.laws();
        self.arrangement.insert(segment)
    }

    /// Makes a path a new curve, under the next number, which is answered.
    pub fn insert_path(&mut self, path: &Path) -> Result<CurveId, InsertError>
        requires kept { IsKeptWorld Observer-dyn self.old }
        ensures number { IfOk result (λ c. c.0 ≡ (world_row Observer-dyn self.old).layer.next) }
        ensures done { OnOk result (IsDone (Insert (world_row Observer-dyn self.old).layer.next path.now) (world_row Observer-dyn self.old) (world_row Observer-dyn self.new) (arranged_row Observer-dyn self.new).bus.went) }
        ensures refused { IsAnswerFor insert_said (refusal_of (world_row Observer-dyn self.old) (Insert (world_row Observer-dyn self.old).layer.next path.now)) result }
        ensures err { OnErr result (world_row Observer-dyn self.new ≡ world_row Observer-dyn self.old) }
        ensures kept { IsKeptWorld Observer-dyn self.new }
    {
        self.arrangement.laws();
        self.arrangement.insert_path(path)
    }

    /// Takes a curve away.
    pub fn remove_curve(&mut self, curve: CurveId) -> Result<(), DropError>
        requires kept { IsKeptWorld Observer-dyn self.old }
        ensures done { OnOk result (IsDone (Drop curve.0) (world_row Observer-dyn self.old) (world_row Observer-dyn self.new) (arranged_row Observer-dyn self.new).bus.went) }
        ensures refused { IsAnswerFor drop_said (refusal_of (world_row Observer-dyn self.old) (Drop curve.0)) result }
        ensures err { OnErr result (world_row Observer-dyn self.new ≡ world_row Observer-dyn self.old) }
        ensures kept { IsKeptWorld Observer-dyn self.new }
    {
        self.arrangement.laws();
        self.arrangement.remove_curve(curve)
    }

    /// Takes the edge between two points, which come in either order, from all its curves.
    pub fn remove_edge(&mut self, p: &Point, q: &Point) -> Result<(), CutError>
        requires kept { IsKeptWorld Observer-dyn self.old }
        ensures done { OnOk result (IsDone (cut_between p.now q.now) (world_row Observer-dyn self.old) (world_row Observer-dyn self.new) (arranged_row Observer-dyn self.new).bus.went) }
        ensures refused { IsAnswerFor cut_said (refusal_of (world_row Observer-dyn self.old) (cut_between p.now q.now)) result }
        ensures err { OnErr result (world_row Observer-dyn self.new ≡ world_row Observer-dyn self.old) }
        ensures kept { IsKeptWorld Observer-dyn self.new }
    {
        self.arrangement.laws();
        self.arrangement.remove_edge(p, q)
    }

    /// Pins a point.
    pub fn pin(&mut self, point: &Point) -> Result<(), PinError>
        requires kept { IsKeptWorld Observer-dyn self.old }
        ensures done { OnOk result (IsDone (Pin point.now) (world_row Observer-dyn self.old) (world_row Observer-dyn self.new) (arranged_row Observer-dyn self.new).bus.went) }
        ensures refused { IsAnswerFor pin_said (refusal_of (world_row Observer-dyn self.old) (Pin point.now)) result }
        ensures err { OnErr result (world_row Observer-dyn self.new ≡ world_row Observer-dyn self.old) }
        ensures kept { IsKeptWorld Observer-dyn self.new }
    {
        self.arrangement.laws();
        self.arrangement.pin(point)
    }

    /// Unpins a point.
    pub fn unpin(&mut self, point: &Point) -> Result<(), NotPinned>
        requires kept { IsKeptWorld Observer-dyn self.old }
        ensures done { OnOk result (IsDone (Unpin point.now) (world_row Observer-dyn self.old) (world_row Observer-dyn self.new) (arranged_row Observer-dyn self.new).bus.went) }
        ensures refused { IsAnswerFor unpin_said (refusal_of (world_row Observer-dyn self.old) (Unpin point.now)) result }
        ensures err { OnErr result (world_row Observer-dyn self.new ≡ world_row Observer-dyn self.old) }
        ensures kept { IsKeptWorld Observer-dyn self.new }
    {
        self.arrangement.laws();
        self.arrangement.unpin(point)
    }

    /// Pins a point inside the edge between two others, which come in either order.
    pub fn split_edge(&mut self, p: &Point, q: &Point, r: &Point) -> Result<(), SplitError>
        requires kept { IsKeptWorld Observer-dyn self.old }
        ensures done { OnOk result (IsDone (split_at p.now q.now r.now) (world_row Observer-dyn self.old) (world_row Observer-dyn self.new) (arranged_row Observer-dyn self.new).bus.went) }
        ensures refused { IsAnswerFor split_said (refusal_of (world_row Observer-dyn self.old) (split_at p.now q.now r.now)) result }
        ensures err { OnErr result (world_row Observer-dyn self.new ≡ world_row Observer-dyn self.old) }
        ensures kept { IsKeptWorld Observer-dyn self.new }
    {
        self.arrangement.laws();
        self.arrangement.split_edge(p, q, r)
    }

    /// Unpins a point that its pin alone makes a vertex, where two edges meet.
    pub fn merge_edge(&mut self, r: &Point) -> Result<(), MergeError>
        requires kept { IsKeptWorld Observer-dyn self.old }
        ensures done { OnOk result (IsDone (Merge r.now) (world_row Observer-dyn self.old) (world_row Observer-dyn self.new) (arranged_row Observer-dyn self.new).bus.went) }
        ensures refused { IsAnswerFor merge_said (refusal_of (world_row Observer-dyn self.old) (Merge r.now)) result }
        ensures err { OnErr result (world_row Observer-dyn self.new ≡ world_row Observer-dyn self.old) }
        ensures kept { IsKeptWorld Observer-dyn self.new }
    {
        self.arrangement.laws();
        self.arrangement.merge_edge(r)
    }

    /// Takes every segment and pin away.
    pub fn clear(&mut self)
        requires kept { IsKeptWorld Observer-dyn self.old }
        ensures done { IsDone ClearAll (world_row Observer-dyn self.old) (world_row Observer-dyn self.new) (arranged_row Observer-dyn self.new).bus.went }
        ensures kept { IsKeptWorld Observer-dyn self.new }
    {
        self.arrangement.laws();
        self.arrangement.clear();
    }

    /// The curves along the edge between two points, which come in either order.
    pub fn curves_of(&self, p: &Point, q: &Point) -> Result<Vec<CurveId>, EdgeError>
        ensures curves { IfOk result (λ v. map (λ c. c.0) v.items ≡ curves (graph_of (world_row Observer-dyn self.now)) (edge_between p.now q.now).low (edge_between p.now q.now).high) }
        ensures allowed { OnOk result (is_edge (edge_between p.now q.now) (world_row Observer-dyn self.now) ≡ true) }
        ensures barred { IfErr result (λ e. BarsEdge e (edge_between p.now q.now) (world_row Observer-dyn self.now)) }
    {
        self.arrangement.curves_of(p, q)
    }

    /// The edges along which a curve runs, in their order.
    pub fn edges_of(&self, curve: CurveId) -> Result<Vec<(Point, Point)>, HistoryError>
        ensures edges { IfOk result (λ v. map edge_of v.items ≡ edges_along curve.0 (graph_of (world_row Observer-dyn self.now))) }
        ensures allowed { OnOk result (is_named curve.0 (world_row Observer-dyn self.now) ≡ true) }
        ensures barred { IfErr result (λ e. BarsEdges e curve.0 (world_row Observer-dyn self.now)) }
    {
        self.arrangement.edges_of(curve)
    }

    /// Where a point lies. Naive and walking location take no memory.
    pub fn locate(&mut self, point: &Point) -> Result<Cell, NoMemory>
        ensures cell { IfOk result (λ c. c ≡ holds (subdivision_of (world_row Observer-dyn self.old)) point.now) }
        ensures no_memory { OnErr result (TakesMemory self.old.strategy) }
        ensures same { self.new ≡ self.old }
    {
        self.arrangement.locate(self.strategy, point)
    }

    /// How many vertices, edges, faces, inner cycles, isolated vertices and named curves there are. It takes no memory.
    pub fn counts(&self) -> Counts
        ensures { result.vertices ∷ result.edges ∷ result.faces ∷ result.inner ∷ result.isolated ∷ result.curves ∷ [] ≡ counted (subdivision_of (world_row Observer-dyn self.now)) (length (world_row Observer-dyn self.now).layer.names) }
    {
        self.arrangement.counts()
    }

    /// The text of the subdivision.
    pub fn text(&self) -> Result<Vec<u8>, NoMemory>
        ensures { IfOk result (λ bytes. bytes.items ≡ present_text (world_row Observer-dyn self.now).layer.present) }
    {
        self.arrangement.text()
    }

    /// The text of what is directly above and below each vertex.
    pub fn vertical_text(&self) -> Result<Vec<u8>, NoMemory>
        ensures { IfOk result (λ bytes. bytes.items ≡ vertical_text (skeleton (graph_of (world_row Observer-dyn self.now)))) }
    {
        self.arrangement.vertical_text()
    }

    /// The text of the lower or the upper envelope.
    pub fn envelope_text(&self, which: Which) -> Result<Vec<u8>, NoMemory>
        ensures { IfOk result (λ bytes. bytes.items ≡ envelope_text which (world_row Observer-dyn self.now).layer.present) }
    {
        self.arrangement.envelope_text(which)
    }

    /// The names of the observers that joined, left and were lost in the last edit.
    pub fn went(&self) -> &Went
        ensures { result.now ≡ (arranged_row Observer-dyn self.now).bus.went }
    {
        self.arrangement.went()
    }
}
