//! Tests of what no script shows: how a run ends, sources and sinks that fail, limits and observers of one's own, and the bus of
//! observers.
#![tactic(auto)]

#[cfg(test)]
mod observers;
#[cfg(test)]
mod program;
