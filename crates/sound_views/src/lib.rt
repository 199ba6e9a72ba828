//! Sound views: what records that are read by name say of the graph that they draw, with the curves of its edges, and in which
//! order their vertices, darts, cycles and faces stand.
//!
//! Names needn't be in any order. The vertices in point order have the graph's points in their order, the darts by source and
//! target the graph's darts. Going round a vertex by twins and followers meets its darts clockwise; going through the darts in
//! order meets each cycle first at its least dart. `graphs_are_drawn` is a law: its contract states it, and its body, being empty,
//! computes nothing. What each walk asks of a single dart of sound records is computed here once: the first of two twins, the
//! forward one, and the edge with its line.
#![tactic(auto)]

mod darts;

ghost use Rattle.sound_views.specs.RecordGraphLaws.{GraphsAreDrawn};

pub use darts::{forward_dart, is_first, span_of};

/// The vertices and edges of the graph are those that the records draw.
pub fn graphs_are_drawn()
    ensures { GraphsAreDrawn }
{}
