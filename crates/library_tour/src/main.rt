//! A small program over the library `arrangement`: a map is edited while an observer of the program's own tells each change in words
//! (`changes`), a walk goes from dart to dart round the two faces at an edge and prints their corners (`faces`), a face tells its boundaries, what
//! is isolated in it, and its neighbours (`neighbours`), an observer keeps whose land the faces are, and its owner reads that (`survey`), and roads
//! tell what they would meet (`roads`).
#![tactic(auto)]

mod changes;
mod faces;
mod maps;
mod narrator;
mod neighbours;
mod parcels;
mod roads;
mod survey;
mod surveyor;
mod walk;
mod words;

use crate::changes::told_changes;
use crate::faces::corners_at_fence;
use crate::neighbours::told_neighbours;
use crate::roads::told_roads;
use crate::survey::told_land;
use outside::{StdSink, write_all};
use std::process::ExitCode;

fn run(rt: &HostRuntime) -> anyhow::Result<Vec<u8>> {
    let mut lines = told_changes(rt.alloc())?;
    lines.extend_from_slice(&corners_at_fence(rt.alloc())?)?;
    lines.extend_from_slice(told_neighbours(rt.alloc())?.as_bytes())?;
    lines.extend_from_slice(told_land(rt.alloc())?.as_bytes())?;
    lines.extend_from_slice(told_roads(rt.alloc())?.as_bytes())?;
    Ok(lines)
}

// Writes all lines, and says whether it could.
fn write(rt: &HostRuntime, lines: &[u8]) -> ExitCode {
    let mut sink = StdSink::new(rt.stdout());
    match write_all(&mut sink, lines) {
        Ok(()) => ExitCode::SUCCESS,
        Err(_) => ExitCode::FAILURE,
    }
}

fn main(rt: HostRuntime) -> ExitCode {
    match run(&rt) {
        Ok(lines) => write(&rt, &lines),
        Err(error) => {
            let _told = eprintln!(rt; "{error:#}");
            ExitCode::FAILURE
        }
    }
}
