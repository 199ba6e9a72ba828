//! Tests of what needs no program, and what no script shows: the exact plane and the sweep over it, records row by row,
//! boundary cycles, and looks that are counted.
#![tactic(auto)]

#[cfg(test)]
mod plane;
#[cfg(test)]
mod records;
#[cfg(test)]
mod shapes;
