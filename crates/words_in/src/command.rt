ghost use Rattle.std.specs.Prelude.{◌≡◌, ◌≢◌, ◌↔◌, [], ℕ, List, map, string_bytes, IfOk};
ghost use Rattle.clap.specs.Faults.{fault_of};
ghost use Rattle.clap.specs.Matches.{found_of, first_value};
ghost use Rattle.clap.specs.Simple.{app_of, matches_of, with_rule};
ghost use Rattle.clap.specs.Walk.{first_of};
ghost use Rattle.words_in.specs.Command.{option_rule, planar_app};

use crate::options::WordsError;
use clap::error::ErrorKind;
use clap::{Arg, ArgMatches, Command};
use std::alloc::{AllocError, Global};

// The command with one option more, which takes a text. The option is made where it is taken: one that waited would have to be let go
// wherever another finds no memory.
fn with_option<'a>(
    alloc: Global,
    command: Command<'a>,
    name: &'a str,
) -> Result<Command<'a>, AllocError>
    ensures { IfOk result (λ c. app_of c ≡ with_rule (app_of command.entry) (option_rule name.entry.now)) }
{
    command.arg(Arg::new(alloc, name).long(name))
}

// The command whose options the words give.
fn planar_command<'a>(alloc: Global) -> Result<Command<'a>, AllocError>
    ensures { IfOk result (λ c. app_of c ≡ planar_app) }
{
    let command = Command::new(alloc, "planar").disable_help_flag(true);
    let command = with_option(alloc, command, "locate")?;
    let command = with_option(alloc, command, "make")?;
    with_option(alloc, command, "seed")
}

// What a refusal of `clap` means here.
fn error_of(kind: ErrorKind) -> WordsError
    ensures { result ≡ WordsError.NoMemory ↔ kind ≡ ErrorKind.OutOfMemory }
{
    match kind {
        ErrorKind::OutOfMemory => WordsError::NoMemory,
        _ => WordsError::Usage,
    }
}

/// The values that `clap` finds in the words.
pub(crate) fn matches_of<'a>(
    alloc: Global,
    words: &'a [String],
) -> Result<ArgMatches<'a>, WordsError>
    ensures taken { IfOk result (λ m. fault_of planar_app (map string_bytes words.entry.now) ≡ []) }
    ensures found { IfOk result (λ m. (name : List ℕ) → first_value (found_of m) name
        ≡ first_of name (matches_of planar_app (map string_bytes words.entry.now))) }
    ensures refused { result ≡ Err WordsError.Usage → fault_of planar_app (map string_bytes words.entry.now) ≢ [] }
{
    let command = planar_command(alloc)?;
    match command.try_get_matches_from(words) {
        Ok(matches) => Ok(matches),
        Err(error) => Err(error_of(error.kind())),
    }
}
