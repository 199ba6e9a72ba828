//! Writing along cycles and through the lists of a face: the darts of a cycle, or of a run of it, are put on another cycle,
//! and what a face has, or a part of it, moves to another face.
//!
//! Each is one walk, over the darts that are written or over the lists of one face, and takes no memory.
#![tactic(auto)]

ghost use Rattle.cycle_writers.specs.RunLaws.{RunsAreCycles};
ghost use Rattle.cycle_writers.specs.RunSteps.{RunsAreSteps};
ghost use Rattle.cycle_writers.specs.TakenLaws.{TakenFits};

mod carried;
mod moves;
mod runs;

pub use carried::carry_off;
pub use moves::{Which, move_cycles, move_isolated};
pub use runs::{put_orbit, put_run};

/// A run of darts is a whole cycle, where it comes back to its first dart; that of one of two cycles that are joined by an
/// edge; or that of the one that goes, where two are united. This is a law: the body, being empty, computes nothing.
pub fn runs_are_cycles()
    ensures { RunsAreCycles }
{}

/// What is written along a run is what the step of a join or of a union writes. This is a law: the body, being empty, computes
/// nothing.
pub fn runs_are_steps()
    ensures { RunsAreSteps }
{}

/// What is taken from a face is what a split or a union of faces asks for, and is listed so: nothing else, each name once. This
/// is a law: the body, being empty, computes
/// nothing.
pub fn taken_fits()
    ensures { TakenFits }
{}
