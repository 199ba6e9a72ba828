//! The overlay of two layers by a plane sweep.
//!
//! The faces of the overlay have the labels of the faces of each layer that they lie in (CGAL manual, overlay of arrangements; Fogel,
//! Halperin and Wein: an overlay by one sweep over the curves of both). An edge that has a curve of a layer lies on an edge of that
//! layer, whose upper side tells the label above it; any other edge has one label on both sides, which is that of what is below it.
//! So the label above each edge is that of an earlier edge or of one of the layer, and the labels are one pass: no faces are joined,
//! and no cells are made. What holds of the two layers are laws: their contracts state them, and their bodies, being empty, compute nothing.
#![tactic(auto)]

mod bare;
mod counted;
mod counts;
mod curves;
mod darts;
mod faces;
mod graphs;
mod join;
mod kinds;
mod known;
mod layers;
mod own;
mod pieces;
mod roots;
mod rows;

ghost use Rattle.overlay_sweep.specs.KnownLabels.{LabelsByKnownEdges};
ghost use Rattle.overlay_sweep.specs.LayerLabels.{LabelsByOwnEdges};

pub use bare::{bare_ranks, rank_above};
pub use counted::{CountedRows, counted_rows};
pub use counts::pieces_of_edges;
pub use curves::curves_of_edges;
pub use darts::forward_dart;
pub use faces::labels_of_faces;
pub use graphs::{LayerGraph, graph_of};
pub use join::overlay;
pub use kinds::is_inner;
pub use known::known_labels;
pub use layers::labels_above;
pub use own::OwnEdge;
pub use pieces::piece_along;
pub use roots::{cycle_ranks, roots_of};

/// The labels of an overlay's faces are told by the edges of each layer.
pub fn labels_by_own_edges()
    ensures { LabelsByOwnEdges }
{}

/// The labels of an overlay's faces are told by those known along the edges of each layer.
pub fn labels_by_known_edges()
    ensures { LabelsByKnownEdges }
{}
