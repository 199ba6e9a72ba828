//! A large script from two numbers, for measurements and for tests: how many segments, and a seed.
//!
//! [`Maker`] gives its lines one after another. The draws are those of the portable `rand` that the C standard shows as an
//! example: a linear congruential generator modulo 2^31, of whose state the upper fifteen bits are drawn. The same two
//! numbers give the same script everywhere. No call takes memory.
#![tactic(auto)]

mod draws;
mod maker;
mod put;

pub use maker::{LINE_ROOM, Maker};
