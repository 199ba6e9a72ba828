ghost use Rattle.std.specs.Prelude.{◌≡◌, ◌≢◌, true, false, not};
ghost use Rattle.std.specs.List.{list_any};
ghost use Rattle.plane_graphs.specs.Graph.{same_curve};
ghost use Rattle.curve_history.specs.HistoryInMemory.{Says};
ghost use Rattle.curve_history.specs.Past.{curves_on};
ghost use Rattle.edit_steps.specs.EditLaws.{curve_of as curve_number};

use crate::history::History;
use crate::strands::curve_of;
use linked_chains::Chains;
use slab_laws::{CurveId, DartId};

// Whether a node of an edge says a side of another curve. The sides of a curve stand together in the chain, at most eight of them.
fn says_other(edges: &Chains, edge: usize, curve: usize) -> bool
    ensures other { result ≡ true → (i : _) × Says edges.now edge i × (curve_number i ≢ curve) }
    ensures none { result ≡ false → (i : _) → Says edges.now edge i → curve_number i ≡ curve }
{
    edges.laws();
    let mut at = edges.first(edge);
    'walk: while let Some(node) = at {
        if curve_of(edges.entry(node).item) != curve {
            return true;
        }
        at = edges.after(node);
    }
    false
}

impl History {
    /// Whether another curve than this one runs along an edge. It looks at one side of another curve at most, and takes no
    /// memory (CGAL manual, originating curves of an edge).
    pub fn has_other(&self, d: DartId, curve: CurveId) -> bool
        ensures { result ≡ list_any (λ k. not (same_curve k curve.0)) (curves_on self.now d) }
    {
        says_other(&self.by_edge, d.0, curve.0 as usize)
    }
}
