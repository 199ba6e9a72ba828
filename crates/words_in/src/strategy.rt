ghost use Rattle.std.specs.Prelude.{◌≡◌, find, bytes_eq, option_map};
ghost use Rattle.words_in.specs.Strategies.{strategy_name, strategy_named, strategy_read};

use slab_laws::Strategy;

// Every way of location.
const STRATEGIES: [Strategy; 4] = [
    Strategy::Naive,
    Strategy::Walk,
    Strategy::Landmarks,
    Strategy::Trapezoid,
];

// How a way of location is spelt.
fn name_of(strategy: Strategy) -> &'static str
    ensures { result.now ≡ strategy_name strategy }
{
    match strategy {
        Strategy::Naive => "naive",
        Strategy::Walk => "walk",
        Strategy::Landmarks => "landmarks",
        Strategy::Trapezoid => "trapezoid",
    }
}

// The first of these that the word spells.
fn first_spelt(strategies: &[Strategy], word: &str) -> Option<Strategy>
    ensures { result ≡ find (λ s. bytes_eq (strategy_name s) word.now) strategies.now }
{
    strategies
        .iter()
        .copied()
        .find(|strategy| name_of(*strategy) == word)
}

// The way of location that a word spells.
fn strategy_named(word: &str) -> Option<Strategy>
    ensures { result ≡ strategy_named word.now }
{
    first_spelt(&STRATEGIES, word)
}

/// The way of location that the value of `--locate` says, or the default where none was given; None where it is no way of
/// location.
pub(crate) fn strategy_of(locate: Option<&str>) -> Option<Strategy>
    ensures { result ≡ strategy_read (option_map (λ s. s.now) locate.entry) }
{
    match locate {
        None => Some(Strategy::Naive),
        Some(word) => strategy_named(word),
    }
}
