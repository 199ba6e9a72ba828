ghost use Rattle.std.specs.Prelude.{◌≡◌, Some};
ghost use Rattle.script_lines.specs.LineError.{refusal_number, error_text};

use std::error::Error;
use std::fmt;

/// Why a line is no command.
///
/// Where several fit, the first in this order is meant: `Long`, `Byte`, `Word` for the first word,
/// `Count`, `Word` for a fixed word (the `at` of `attach i at n` is one), `Number`, `Range`.
#[derive(Clone, Copy, Debug, PartialEq, Eq)]
pub enum LineError {
    /// The first word isn't a command; or, where the count of words is right, a fixed word isn't spelt as it must be.
    Word,
    /// The command has no form of this count of words.
    Count,
    /// A word in a number's place isn't a number.
    Number,
    /// A number is out of its range.
    Range,
    /// The line has more than [`MAX_LINE`](crate::MAX_LINE) bytes.
    Long,
    /// A byte of the line is outside 32 to 126.
    Byte,
}

impl LineError {
    /// The number by which a script is told of the error, from 1 to 6.
    pub fn number(self) -> u8
        ensures { result ≡ refusal_number self }
    {
        match self {
            LineError::Word => 1,
            LineError::Count => 2,
            LineError::Number => 3,
            LineError::Range => 4,
            LineError::Long => 5,
            LineError::Byte => 6,
        }
    }

    // What is wrong with the line, in words.
    fn text(self) -> &'static str
        ensures { result.now ≡ error_text self }
    {
        match self {
            LineError::Word => "the first word isn't a command, or a fixed word isn't spelt so",
            LineError::Count => "the count of words isn't one that the command has",
            LineError::Number => "a word in a number's place isn't a number",
            LineError::Range => "a number is out of its range",
            LineError::Long => "the line has more than 300 bytes",
            LineError::Byte => "a byte of the line is outside 32 to 126",
        }
    }
}

impl fmt::Display for LineError {
    ghost output = { λ error. Some (error_text error) };

    fn fmt<W: fmt::Write>(&self, f: &mut fmt::Formatter<W>) -> fmt::Result {
        f.write_str(self.text())
    }
}

impl Error for LineError {}
