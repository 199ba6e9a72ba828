//! Tests of layers by the calls of `Arrangement`, which need no program: edits and questions row by row, names that stay, regions, zones
//! and overlays, each beside what the subdivision built afresh says.
#![tactic(auto)]

#[cfg(test)]
mod layers;
#[cfg(test)]
mod shapes;
