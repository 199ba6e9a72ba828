//! The edge of a piece that a point is abreast of.
ghost use Rattle.std.specs.Prelude.{◌≡◌, ◌≤◌, true, false, IfSome, IfNone};
ghost use Rattle.plane_graphs.specs.Strands.{strand as strand_number};
ghost use Rattle.slab_laws.specs.Sound.{IsGraphSound};
ghost use Rattle.slab_laws.specs.View.{dart_id, HasDart};
ghost use Rattle.curve_history.specs.DrawnRecords.{passes, IsPassed, IsTold};
ghost use Rattle.curve_history.specs.HistoryInMemory.{Says};

use crate::cuts::comes_before;
use crate::history::History;
use crate::strands::strand;
use crate::walks::find_strand;
use exact_plane::Point;
use linked_chains::Chains;
use slab_laws::{DartId, Darts, Piece};

// Whether a point is between the ends of an edge, in point order.
fn passes<R: Darts>(records: &R, d: DartId, p: &Point) -> bool
    requires sound { IsGraphSound (R.graph records.now) }
    requires has { HasDart (R.graph records.now) d }
    ensures { result ≡ passes (R.graph records.now) d p.now }
{
    let lower = records.point(records.source(d));
    let upper = records.point(records.target(d));
    comes_before(&lower, p) && comes_before(p, &upper)
}

// Whether a side of a curve runs along an edge.
fn says_strand(edges: &Chains, d: DartId, strand: usize) -> bool
    ensures runs { result ≡ true → Says edges.now d.0 strand }
    ensures not { result ≡ false → ¬ Says edges.now d.0 strand }
{
    match find_strand(edges, d.0, strand) {
        Some(_) => true,
        None => false,
    }
}

// Whether both are so.
fn is_abreast<R: Darts>(edges: &Chains, records: &R, d: DartId, strand: usize, p: &Point) -> bool
    requires sound { IsGraphSound (R.graph records.now) }
    requires has { HasDart (R.graph records.now) d }
    ensures yes { result ≡ true → Says edges.now d.0 strand × (passes (R.graph records.now) d p.now ≡ true) }
    ensures no { result ≡ false → Says edges.now d.0 strand → passes (R.graph records.now) d p.now ≡ false }
{
    if !passes(records, d, p) {
        return false;
    }
    says_strand(edges, d, strand)
}

// Of the edges along which a curve runs, one along which this side of it runs, and between whose ends the point is.
fn edge_along<R: Darts>(
    edges: &Chains,
    curves: &Chains,
    records: &R,
    curve: usize,
    strand: usize,
    p: &Point,
) -> Option<DartId>
    requires sound { IsGraphSound (R.graph records.now) }
    requires darts { (i : _) → Says curves.now curve i → HasDart (R.graph records.now) (dart_id i) }
    ensures some { IfSome result (λ d. Says edges.now d.0 strand × (passes (R.graph records.now) d p.now ≡ true)) }
    ensures none { IfNone result ((d : _) → Says curves.now curve d.0 → Says edges.now d.0 strand → passes (R.graph records.now) d p.now ≡ false) }
{
    curves.laws();
    let mut at = curves.first(curve);
    'walk: while let Some(node) = at {
        let d = DartId(curves.entry(node).item);
        if is_abreast(edges, records, d, strand, p) {
            return Some(d);
        }
        at = curves.after(node);
    }
    None
}

impl History {
    /// The dart, from the lower to the upper end, of an edge along which a piece's side of its curve runs, and between whose ends a point is in
    /// point order, so that the vertical through the point meets it; `None` where there is none. It walks along the curve's edges, and takes no memory.
    pub fn edge_at<R: Darts>(&self, records: &R, piece: &Piece, p: &Point) -> Option<DartId>
        requires sound { IsGraphSound (R.graph records.now) }
        requires told { IsTold (R.graph records.now) self.now }
        requires side { piece.now.side ≤ 8 }
        ensures some { IfSome result (IsPassed (R.graph records.now) self.now piece.now p.now) }
        ensures none { IfNone result ((d : _) → ¬ IsPassed (R.graph records.now) self.now piece.now p.now d) }
    {
        edge_along(
            &self.by_edge,
            &self.by_curve,
            records,
            piece.curve.0 as usize,
            strand(piece.curve, piece.side),
            p,
        )
    }
}
