ghost use Rattle.std.specs.Prelude.{◌≡◌, option_map};
ghost use Rattle.words_in.specs.Numbers.{within, number_between, make_read, seed_read};

use crate::options::MAX_SEGMENTS;
use script_lines::read_number;

// The number, where it is from the least to the greatest.
fn within(least: u32, greatest: u32, number: i128) -> Option<u32>
    ensures { result ≡ within least greatest number }
{
    if number < i128::from(least) || i128::from(greatest) < number {
        return None;
    }
    Some(number as u32)
}

// The number that a word is, where it is from the least to the greatest. What is read of a number past every such range is past
// it too.
fn number_between(least: u32, greatest: u32, word: &str) -> Option<u32>
    ensures { result ≡ number_between least greatest word.now }
{
    let number = read_number(word.as_bytes())?;
    within(least, greatest, number)
}

/// How many segments the value of `--make` asks for, none at all where it wasn't given; None where it is no number from 1 to
/// [`MAX_SEGMENTS`].
pub(crate) fn make_of(make: Option<&str>) -> Option<Option<u32>>
    ensures { result ≡ make_read (option_map (λ s. s.now) make.entry) }
{
    match make {
        None => Some(None),
        Some(word) => number_between(1, MAX_SEGMENTS, word).map(Some),
    }
}

/// The seed that the value of `--seed` says, or the default where it wasn't given; None where it is no number from 0 to
/// 4294967295.
pub(crate) fn seed_of(seed: Option<&str>) -> Option<u32>
    ensures { result ≡ seed_read (option_map (λ s. s.now) seed.entry) }
{
    match seed {
        None => Some(1),
        Some(word) => number_between(0, u32::MAX, word),
    }
}
