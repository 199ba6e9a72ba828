//! The headline, row by row: what `planar_run` promises of a run, what every arrangement is, and what the model's words mean.
//!
//! For every script, strategy, source, sink and list of observers, each reply written is the one that the subdivision built afresh
//! from the present segments and points gives, for shows, locations, overlays and attached mirrors alike; a line is refused exactly
//! for its named premise, or for want of memory, and then changes nothing.
//!
//! Nothing calls these functions. Each calls one of the public calls and states one row of what it promises, in the words of
//! `specs/Rows.antt` and `specs/Maps.antt`, so that a clause that a crate below loses, or weakens, is missed here. The two of
//! `walls.rt` call nothing: they are laws of the model, in the words of `specs/Intervals.antt`.
#![tactic(auto)]

mod made_input;
mod maps;
mod rows;
mod walls;
mod whole;

pub use made_input::made;
pub use maps::{blue_curves, blue_face, laws, overlaid, red_curves, red_face};
pub use rows::{done, no_memory, read_fault, too_long, usage, write_fault};
pub use walls::{cells_meet_across_intervals, intervals_are_covered_whole};
pub use whole::{complete, exit, faults, limits, other_words, reads};
