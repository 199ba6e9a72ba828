//! The words of the command line, read as options.
//!
//! `clap` parts the words into names and values; the grammar is this crate's own: any first word, then options in any order,
//! each name at most once, as two words `--name value` or as one word `--name=value`. `--locate` names the way of location;
//! `--make` asks for a made script of so many segments, and `--seed` says what it begins with. There are no abbreviations, and
//! `--`, `--help` and `--version` are no options.
//!
//! One more option is one more argument of the command, one more field of [`Options`] with its values, and its name among
//! those of the grammar; what is proved of each option by itself, how its words are read and that no value of it begins with a
//! hyphen, stands apart from what is proved of any number of options.
#![tactic(auto)]

mod command;
mod numbers;
mod options;
mod read;
mod strategy;

pub use options::{MAX_SEGMENTS, Options, WordsError};
pub use read::read_words;
