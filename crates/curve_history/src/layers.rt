ghost use Rattle.std.specs.Prelude.{◌≡◌, ◌≢◌, ◌<◌, ◌≤◌, ◌+◌, ◌^◌, ◌↔◌, ◌==◌, ◌∷◌, ◌++◌, [], not, true, false, map, length, nat_lt, IsOk, IfOk, IfSome, IsErrOf, OnOk, Contains};
ghost use Rattle.std.specs.List.{filter, IsDistinct};
ghost use Rattle.std.specs.Ordering.{nat_cmp};
ghost use Rattle.plane_graphs.specs.Ascending.{Member, IsAscending};
ghost use Rattle.plane_graphs.specs.Graph.{same_curve};
ghost use Rattle.slab_laws.specs.Pieces.{piece_of};
ghost use Rattle.curve_history.specs.Changed.{IsRoomier};
ghost use Rattle.curve_history.specs.Cuts.{rests_of, IsPlanOfCut};
ghost use Rattle.curve_history.specs.HistoryInMemory.{number_of, pair_room};
ghost use Rattle.curve_history.specs.Past.{curves_on, strands_on, HasRoom, SameCurves, SameStrands, SameLayer, SameHistoryCapacity, IsSpare};

use crate::cuts::{CutPlan, cut_all, plan_of_cut};
use crate::history::{History, HistoryError, LAST_CURVE};
use crate::walks::{count_along, curves_along, edges_along, says_same};
use curve_pieces::{Iter, Pieces};
use exact_plane::Point;
use linked_chains::Chains;
use no_memory::NoMemory;
use slab_laws::{CurveId, DartId, Piece};
use std::alloc::Global;

// Room for so many pairs and names more, in both chains.
fn reserve_pairs(
    edges: &mut Chains,
    curves: &mut Chains,
    names: usize,
    pairs: usize,
) -> Result<(), NoMemory>
    ensures names { OnOk result (names ≤ curves.new.spare_keys) }
    ensures pairs { OnOk result (pairs ≤ pair_room edges.new curves.new) }
    ensures succeeds { names ≤ curves.old.spare_keys → pairs ≤ pair_room edges.old curves.old → IsOk result }
    ensures by_edge { IsRoomier edges.old edges.new }
    ensures by_curve { IsRoomier curves.old curves.new }
{
    edges.reserve(pairs, pairs)?;
    curves.reserve(names, pairs)?;
    Ok(())
}

// The number after one, or `None` after the last.
fn number_after(number: u32) -> Option<u32>
    ensures after { number_of result ≡ number + 1 }
    ensures fits { IfSome result (λ n. (1 ≤ n) × (n < 2 ^ 32)) }
{
    number.checked_add(1)
}

// Several sides of a curve may run along an edge, which then stands in its chain several times.
fn each_once(edges: Vec<DartId>) -> Vec<DartId>
    ensures edges { (d : _) → Contains result.items d ↔ Contains edges.items d }
    ensures once { IsDistinct (λ a b. a.0 == b.0) result.items }
{
    let mut edges = edges;
    edges.sort_unstable();
    edges.dedup();
    edges
}

impl History {
    /// No curves, of which the first gets this number.
    pub fn new(alloc: Global, first: u32) -> Result<History, NoMemory>
        requires { 1 ≤ first }
        ensures succeeds { IsOk result }
        ensures nothing { IfOk result (λ h. (d : _) → strands_on h d ≡ []) }
        ensures curves { IfOk result (λ h. (d : _) → curves_on h d ≡ []) }
        ensures names { IfOk result (λ h. h.names ≡ []) }
        ensures pieces { IfOk result (λ h. h.pieces ≡ []) }
        ensures next { IfOk result (λ h. h.next ≡ first) }
    {
        Ok(History {
            by_edge: Chains::new(alloc),
            by_curve: Chains::new(alloc),
            pieces: Pieces::new(alloc),
            next: Some(first),
        })
    }

    /// Makes room for so many names, pieces and pairs of an edge and one more curve; the history stays, whatever comes.
    ///
    /// # Errors
    ///
    /// There was no memory for them.
    pub fn reserve(&mut self, names: u32, pieces: u32, nodes: usize) -> Result<(), NoMemory>
        ensures names { OnOk result (names ≤ self.new.spare_names) }
        ensures pieces { OnOk result (pieces ≤ self.new.spare_pieces) }
        ensures nodes { OnOk result (nodes ≤ self.new.spare_pairs) }
        ensures succeeds { HasRoom self.old names pieces nodes → IsOk result }
        ensures layer { SameLayer self.old self.new }
        ensures strands { SameStrands self.old self.new }
        ensures curves { SameCurves self.old self.new }
        ensures keeps { IsSpare self.old self.new 0 0 0 }
    {
        reserve_pairs(&mut self.by_edge, &mut self.by_curve, names as usize, nodes)?;
        self.pieces.reserve(pieces as usize)?;
        Ok(())
    }

    /// What is true of all histories: curves along edges have names, which ascend and are below the next number, which is 2^32
    /// once the last one was drawn; and a `usize` counts the room for more pairs.
    pub fn laws(&self)
        ensures named { (d : _) (k : _) → Member k (curves_on self.now d) → Member k self.now.names }
        ensures ascend { IsAscending nat_cmp self.now.names }
        ensures numbers { (k : _) → Member k self.now.names → (1 ≤ k) × (k < self.now.next) }
        ensures next { self.now.next ≤ LAST_CURVE + 1 }
        ensures last { LAST_CURVE ≡ 4294967295 }
        ensures few { length self.now.pieces < 2 ^ 32 }
        ensures spare { self.now.spare_pairs < 2 ^ 64 }
    {
        self.by_curve.laws();
    }

    /// Whether the last number was drawn.
    pub fn spent(&self) -> bool
        ensures { result ≡ nat_lt LAST_CURVE self.now.next }
    {
        self.next.is_none()
    }

    /// A new curve gets the next number, in room that is there.
    pub fn draw(&mut self) -> CurveId
        requires unspent { self.old.next ≤ LAST_CURVE }
        requires room { 1 ≤ self.old.spare_names }
        ensures number { result.0 ≡ self.old.next }
        ensures names { self.new.names ≡ self.old.names ++ self.old.next ∷ [] }
        ensures next { self.new.next ≡ self.old.next + 1 }
        ensures pieces { self.new.pieces ≡ self.old.pieces }
        ensures strands { SameStrands self.old self.new }
        ensures curves { SameCurves self.old self.new }
        ensures spare_names { self.old.spare_names ≤ self.new.spare_names + 1 }
        ensures spare_pieces { self.old.spare_pieces ≤ self.new.spare_pieces }
        ensures spare_pairs { self.old.spare_pairs ≤ self.new.spare_pairs }
    {
        let number = self.next.unwrap();
        self.by_curve.add_key(number as usize);
        self.next = number_after(number);
        CurveId(number)
    }

    /// One more piece, in room that is there.
    pub fn add_piece(&mut self, piece: Piece)
        requires few { length self.old.pieces + 1 < 2 ^ 32 }
        requires room { 1 ≤ self.old.spare_pieces }
        ensures pieces { self.new.pieces ≡ self.old.pieces ++ piece_of piece ∷ [] }
        ensures names { self.new.names ≡ self.old.names }
        ensures next { self.new.next ≡ self.old.next }
        ensures strands { SameStrands self.old self.new }
        ensures curves { SameCurves self.old self.new }
        ensures spare_names { self.old.spare_names ≤ self.new.spare_names }
        ensures spare_pieces { self.old.spare_pieces ≤ self.new.spare_pieces + 1 }
        ensures spare_pairs { self.old.spare_pairs ≤ self.new.spare_pairs }
    {
        self.pieces.add(piece);
    }

    /// What the cut of the edge between two points will leave of the pieces that hold both. It takes no memory.
    pub fn plan_cut(&self, p: &Point, q: &Point) -> CutPlan
        ensures { IsPlanOfCut p.now q.now self.now.pieces result }
    {
        plan_of_cut(&self.pieces, p, q)
    }

    /// The edge between two points goes from all pieces that hold both, in room that is there: such a piece keeps what is
    /// below the lower point and what is above the upper one, as one or two pieces of the same curve, or goes (CGAL manual,
    /// `remove_edge`; that curves lose the edge is this project's).
    pub fn cut_pieces(&mut self, p: &Point, q: &Point, plan: CutPlan)
        requires plan { IsPlanOfCut p.now q.now self.old.pieces plan }
        requires few { length (rests_of p.now q.now self.old.pieces) < 2 ^ 32 }
        requires room { length (rests_of p.now q.now self.old.pieces) ≤ length self.old.pieces + self.old.spare_pieces }
        ensures pieces { self.new.pieces ≡ rests_of p.now q.now self.old.pieces }
        ensures names { self.new.names ≡ self.old.names }
        ensures next { self.new.next ≡ self.old.next }
        ensures strands { SameStrands self.old self.new }
        ensures curves { SameCurves self.old self.new }
        ensures spare_names { self.old.spare_names ≤ self.new.spare_names }
        ensures spare_pairs { self.old.spare_pairs ≤ self.new.spare_pairs }
    {
        // All pieces and the room for more are within what fits.
        self.pieces.laws();
        cut_all(&mut self.pieces, p, q, plan);
    }

    /// The name of a curve that runs along no edge goes, and its pieces, at the cost of their number alone.
    pub fn drop_name(&mut self, curve: CurveId)
        requires named { Member curve.0 self.old.names }
        requires free { (d : _) → ¬ Member curve.0 (curves_on self.old d) }
        ensures names { self.new.names ≡ filter (λ n. not (same_curve n curve.0)) self.old.names }
        ensures pieces { self.new.pieces ≡ filter (λ k. not (same_curve k.curve curve.0)) self.old.pieces }
        ensures next { self.new.next ≡ self.old.next }
        ensures strands { SameStrands self.old self.new }
        ensures curves { SameCurves self.old self.new }
        ensures keeps { IsSpare self.old self.new 0 0 0 }
        ensures capacity { SameHistoryCapacity self.old self.new }
    {
        // No node is left in its chain.
        self.by_curve.laws();
        self.by_curve.remove_key(curve.0 as usize);
        self.pieces.remove_curve(curve);
    }

    /// The curves along an edge, ascending.
    ///
    /// # Errors
    ///
    /// There was no memory for the list.
    pub fn curves_of(&self, alloc: Global, d: DartId) -> Result<Vec<CurveId>, NoMemory>
        ensures { IfOk result (λ v. map (λ c. c.0) v.items ≡ curves_on self.now d) }
    {
        // The numbers fit, and stand in the edge's chain from the greatest to the least, those of one curve together.
        self.by_edge.laws();
        self.by_curve.laws();
        let mut curves = curves_along(&self.by_edge, alloc, d.0)?;
        curves.reverse();
        curves.dedup();
        Ok(curves)
    }

    /// Whether a curve runs along an edge.
    pub fn has_curves(&self, d: DartId) -> bool
        ensures { result ≡ true ↔ curves_on self.now d ≢ [] }
    {
        self.by_edge.laws();
        self.by_edge.has_key(d.0)
    }

    /// How many sides of curves run along an edge, which are as many pieces. It takes no memory.
    pub fn count_on(&self, d: DartId) -> usize
        ensures { result ≡ length (strands_on self.now d) }
    {
        // Each side is one node.
        self.by_edge.laws();
        count_along(&self.by_edge, d.0)
    }

    /// Whether the same sides of curves run along both edges. It takes no memory.
    pub fn same_strands(&self, d: DartId, n: DartId) -> bool
        ensures same { result ≡ true → strands_on self.now d ≡ strands_on self.now n }
        ensures differ { result ≡ false → strands_on self.now d ≢ strands_on self.now n }
    {
        // Both chains are in order.
        self.by_edge.laws();
        says_same(&self.by_edge, d.0, n.0)
    }

    /// The edges along which a curve runs, each once, in no particular order.
    ///
    /// # Errors
    ///
    /// No curve has the number, or there was no memory for the list.
    pub fn edges_of(&self, alloc: Global, curve: CurveId) -> Result<Vec<DartId>, HistoryError>
        ensures edges { IfOk result (λ v. (d : _) → Contains v.items d ↔ Member curve.0 (curves_on self.now d)) }
        ensures once { IfOk result (λ v. IsDistinct (λ a b. a.0 == b.0) v.items) }
        ensures unknown { IsErrOf result HistoryError.Unknown ↔ ¬ Member curve.0 self.now.names }
    {
        if !self.by_curve.has_key(curve.0 as usize) {
            return Err(HistoryError::Unknown);
        }
        self.by_curve.laws();
        match edges_along(&self.by_curve, alloc, curve.0 as usize) {
            Ok(edges) => Ok(each_once(edges)),
            Err(NoMemory) => Err(HistoryError::NoMemory),
        }
    }

    /// How many pieces there are.
    pub fn pieces(&self) -> u32
        ensures { result ≡ length self.now.pieces }
    {
        self.pieces.len() as u32
    }

    /// How many curves have a name.
    pub fn named(&self) -> u32
        ensures { result ≡ length self.now.names }
    {
        // No name stands twice.
        self.by_curve.laws();
        self.by_curve.count_keys() as u32
    }

    /// All pieces, in their order, each at the same cost. It takes no memory.
    pub fn pieces_in_order(&self) -> Iter<'_>
        ensures { map piece_of result ≡ self.now.pieces }
    {
        self.pieces.iter()
    }

    /// No curve has a name, and no piece is left; the next number stays.
    pub fn clear(&mut self)
        ensures strands { (d : _) → strands_on self.new d ≡ [] }
        ensures curves { (d : _) → curves_on self.new d ≡ [] }
        ensures names { self.new.names ≡ [] }
        ensures pieces { self.new.pieces ≡ [] }
        ensures next { self.new.next ≡ self.old.next }
        ensures keeps { IsSpare self.old self.new 0 0 0 }
        ensures capacity { SameHistoryCapacity self.old self.new }
    {
        self.by_edge.clear();
        self.by_curve.clear();
        self.pieces.clear();
    }
}
