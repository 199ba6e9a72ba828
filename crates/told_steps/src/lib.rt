//! Each step of an edit, made once in records and their history, and told to observers before and after it.
//!
//! Records and history that stand for a layer stand in `specs/RecordLayers.antt`, and what steps make of them in
//! `specs/LayerSteps.antt`.
//!
//! What is told, and proved of it, covers vertices and darts with their cycles and faces. Where a change splits a face or unites two,
//! it has the lists of what moves; once observers have been told it, the records get them back (`settle`).
//!
//! A run of told steps stands in `specs/ToldRuns.antt`; what is true of all runs in `specs/ToldLaws.antt`.
//!
//! Redundant vertices go by told steps too: those with no edge, or with two along one line that have the same sides of curves, where
//! no pin holds them (CGAL manual, removing a curve).
#![tactic(auto)]

mod carried;
mod clears;
mod curves;
mod edges;
mod ends;
mod laws;
mod links;
mod pins;
mod redundant;
mod spots;
mod through;
mod told;
mod vertices;

pub use clears::clear;
pub use curves::{add_curve, add_side, remove_curve};
pub use edges::{merge_edge, remove_edge, split_edge};
pub use laws::{layers_are_named, steps_make_layers, told_runs_are_lawful};
pub use links::add_edge;
pub use pins::{clear_pin, set_pin};
pub use redundant::{remove_if_redundant, remove_redundant};
pub use spots::make_vertex;
pub use through::is_mergeable;
pub use vertices::{add_vertex, remove_vertex};
