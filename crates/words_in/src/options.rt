use slab_laws::Strategy;
use std::alloc::AllocError;
use thiserror::Error;

/// How many segments `--make` may ask for at most.
pub const MAX_SEGMENTS: u32 = 2000;

/// What the words ask for.
#[derive(Clone, Copy, PartialEq, Eq)]
pub struct Options {
    /// By which way points are located; where the words name none, [`Strategy::Naive`].
    pub strategy: Strategy,
    /// How many segments the made script has that is run in place of the source's, from 1 to [`MAX_SEGMENTS`]; None where the
    /// words name none, and the source's script is run.
    pub make: Option<u32>,
    /// What the made script begins with; where the words name none, 1. Without a made script it changes nothing.
    pub seed: u32,
}

/// Why the words are no options.
#[derive(Clone, Copy, Debug, PartialEq, Eq, Error)]
pub enum WordsError {
    /// The words are outside the grammar.
    #[error("the words are outside the grammar")]
    Usage,
    /// There was no memory.
    #[error("no memory")]
    NoMemory,
}

impl From<AllocError> for WordsError {
    ghost use Rattle.std.specs.Prelude.{◌≡◌};
    ghost use Rattle.words_in.specs.declared.options.WordsError.TheVariants.{NoMemory};

    ghost from_gives = { λ _ e. e ≡ NoMemory };

    fn from(_error: AllocError) -> WordsError {
        WordsError::NoMemory
    }
}
