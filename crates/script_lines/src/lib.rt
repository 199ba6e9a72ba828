//! Lines of a script, read as commands.
//!
//! A script is a list of lines, and each line is one command with its numbers. [`read_line`] says
//! which command a line is; what a command does isn't known here. [`read_number`] reads a number
//! alone, as it stands in a line. No call takes memory.
#![tactic(auto)]

mod command;
mod error;
mod form;
mod name;
mod number;
mod points;
mod words;

pub use command::{Command, MAX_LINE, read_line};
pub use error::LineError;
pub use number::{NUMBER_LIMIT, read_number};
pub use points::{BatchPoints, PathPoints};
