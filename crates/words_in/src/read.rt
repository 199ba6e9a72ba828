ghost use Rattle.std.specs.Prelude.{◌≡◌, codes, drop, map, option_map, string_bytes, bytes_eq, IfOk};
ghost use Rattle.std.specs.List.{list_any};
ghost use Rattle.words_in.specs.Values.{options_read};
ghost use Rattle.words_in.specs.Grammar.{HasOptions, AreOutside};

use crate::command::matches_of;
use crate::numbers::{make_of, seed_of};
use crate::options::{MAX_SEGMENTS, Options, WordsError};
use crate::strategy::strategy_of;
use std::alloc::Global;

// Whether a word behind the first is `--`, which `clap` passes over.
fn has_dashes(words: &[String]) -> bool
    ensures { result ≡ list_any (λ word. bytes_eq (string_bytes word) (codes "--")) (drop 1 words.now) }
{
    words.iter().skip(1).any(|word| word.as_str() == "--")
}

// The options of the values of `--locate`, `--make` and `--seed`, each where it was given; None where one of them is no value
// of its option.
fn options_of(locate: Option<&str>, make: Option<&str>, seed: Option<&str>) -> Option<Options>
    ensures { result ≡ options_read (option_map (λ s. s.now) locate.entry) (option_map (λ s. s.now) make.entry)
        (option_map (λ s. s.now) seed.entry) }
{
    let strategy = strategy_of(locate)?;
    let make = make_of(make)?;
    let seed = seed_of(seed)?;
    Some(Options {
        strategy,
        make,
        seed,
    })
}

/// The options that the words of a command line give, the program's name first.
///
/// Behind the first word, which may be any, stand options in any order, each name at most once, as two words `--name value` or
/// as one word `--name=value`:
///
/// - `locate` with `naive`, `walk`, `landmarks` or `trapezoid`, for [`Options::strategy`];
/// - `make` with a number from 1 to [`MAX_SEGMENTS`], for [`Options::make`];
/// - `seed` with a number from 0 to 4294967295, for [`Options::seed`], with `make` or without it.
///
/// A number is spelt as in a script, `0` or a digit 1 to 9 and any digits: neither `01` nor `+1` is one.
///
/// # Errors
///
/// [`WordsError::Usage`] for words outside the grammar alone; for any words, [`WordsError::NoMemory`].
pub fn read_words(alloc: Global, words: &[String]) -> Result<Options, WordsError>
    ensures given { IfOk result (λ options. HasOptions (map string_bytes words.now) options) }
    ensures alone { IfOk result (λ options. (other : Options) → HasOptions (map string_bytes words.now) other → other ≡ options) }
    ensures usage { result ≡ Err WordsError.Usage → AreOutside (map string_bytes words.now) }
    ensures limit { MAX_SEGMENTS ≡ 2000 }
{
    if words.is_empty() {
        return Err(WordsError::Usage);
    }
    if has_dashes(words) {
        return Err(WordsError::Usage);
    }
    let matches = matches_of(alloc, words)?;
    options_of(
        matches.get_str("locate"),
        matches.get_str("make"),
        matches.get_str("seed"),
    )
    .ok_or(WordsError::Usage)
}
