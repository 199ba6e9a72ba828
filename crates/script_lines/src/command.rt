ghost use Rattle.std.specs.Prelude.{◌≡◌, ◌<◌, ◌≤◌, ◌⊎◌, ◌↔◌, length, Any, IsErrOf};
ghost use Rattle.std.specs.List.{list_all};
ghost use Rattle.script_lines.specs.Words.{words};
ghost use Rattle.script_lines.specs.Form.{forms_reading};
ghost use Rattle.script_lines.specs.Command.{command_of, row_of, words_reading, is_printable};
ghost use Rattle.script_lines.specs.Refusals.{IsOtherByte, IsText, IsSilent, IsNoCommand, HasWrongWord, HasWrongCount, HasNoNumber, IsOutOfRange};

use crate::error::LineError;
use crate::form::{
    bare_command, batch, curve, envelope, layer, observer, observer_when, pair, path, point,
    region, segment, triple,
};
use crate::name::Name;
use crate::points::{BatchPoints, PathPoints};
use crate::words::next_word;
use envelope_laws::Which;
use exact_plane::Point;
use set_laws::Op;

/// How many bytes a line may have. A longer one is refused whatever it says.
pub const MAX_LINE: usize = 300;

/// What a line asks for.
#[derive(Clone, Copy)]
pub enum Command {
    /// A comment, or a line without words: nothing is asked for, and nothing is replied.
    Nothing,
    /// `segment x1 y1 x2 y2`: the segment between two points with whole coordinates becomes a curve.
    Segment(i64, i64, i64, i64),
    /// `path x0 y0 x1 y1 .. xk yk`: the polyline along two to nine points with whole coordinates becomes a curve.
    Path(PathPoints),
    /// `drop c`: the curve of this number goes.
    Drop(u32),
    /// `cut X Y W X Y W`: the edge between two points goes from each curve that it lies on.
    Cut(Point, Point),
    /// `pin X Y W`: the point becomes a vertex, and stays one until it is unpinned.
    Pin(Point),
    /// `unpin X Y W`: the point need no longer be a vertex.
    Unpin(Point),
    /// `split X Y W X Y W X Y W`: the third point, inside the edge between the first two, is pinned.
    Split(Point, Point, Point),
    /// `merge X Y W`: the point is unpinned, and its two edges become one.
    Merge(Point),
    /// `clear`: every curve and every pin goes.
    Clear,
    /// `locate X Y W`: which cell holds the point.
    Locate(Point),
    /// `edge X Y W X Y W`: which curves the edge between two points lies on.
    Edge(Point, Point),
    /// `curve c`: the edges of the curve of this number.
    Curve(u32),
    /// `count`: how many vertices, edges, faces, inner cycles, isolated vertices and curves there are.
    Count,
    /// `show`: the text of the arrangement.
    Show,
    /// `overlay`: the text of the overlay of both layers.
    Overlay,
    /// `region union`, `region intersection`, `region difference` or `region symmetric`: the border of what the layers' sets make.
    Region(Op),
    /// `vertical`: what is directly above and below each vertex.
    Vertical,
    /// `batch X Y W .. X Y W`: which cells hold one to eight points.
    Batch(BatchPoints),
    /// `envelope lower` or `envelope upper`: the envelope of the edges.
    Envelope(Which),
    /// `attach i`: observer i joins now; `attach i at n`: in the n-th round from now.
    Attach(u32, Option<u32>),
    /// `leave i`: observer i leaves now; `leave i at n`: in the n-th round from now.
    Leave(u32, Option<u32>),
    /// `mirror i`: the report of observer i.
    Mirror(u32),
    /// `layer red`: later lines mean the red layer.
    LayerRed,
    /// `layer blue`: later lines mean the blue layer.
    LayerBlue,
}

// The command of a name and the words after it.
fn read_named(name: Name, rest: &[u8]) -> Result<Command, LineError>
    ensures { result ≡ forms_reading (row_of name).forms (words rest.now) }
{
    match name {
        Name::Segment => segment(rest),
        Name::Path => path(rest),
        Name::Drop => curve(rest).map(Command::Drop),
        Name::Cut => pair(rest).map(|(p, q)| Command::Cut(p, q)),
        Name::Pin => point(rest).map(Command::Pin),
        Name::Unpin => point(rest).map(Command::Unpin),
        Name::Split => triple(rest).map(|((p, q), r)| Command::Split(p, q, r)),
        Name::Merge => point(rest).map(Command::Merge),
        Name::Clear => bare_command(rest, Command::Clear),
        Name::Locate => point(rest).map(Command::Locate),
        Name::Edge => pair(rest).map(|(p, q)| Command::Edge(p, q)),
        Name::Curve => curve(rest).map(Command::Curve),
        Name::Count => bare_command(rest, Command::Count),
        Name::Show => bare_command(rest, Command::Show),
        Name::Overlay => bare_command(rest, Command::Overlay),
        Name::Region => region(rest),
        Name::Vertical => bare_command(rest, Command::Vertical),
        Name::Batch => batch(rest),
        Name::Envelope => envelope(rest),
        Name::Attach => observer_when(rest).map(|(i, n)| Command::Attach(i, n)),
        Name::Leave => observer_when(rest).map(|(i, n)| Command::Leave(i, n)),
        Name::Mirror => observer(rest).map(Command::Mirror),
        Name::Layer => layer(rest),
    }
}

// The command of a line that is text.
fn read_words(line: &[u8]) -> Result<Command, LineError>
    ensures { result ≡ words_reading (words line.now) }
{
    match next_word(line) {
        None | Some(([b'#', ..], _)) => Ok(Command::Nothing),
        Some((word, rest)) => {
            let name = Name::of(word).ok_or(LineError::Word)?;
            read_named(name, rest)
        }
    }
}

// Whether every byte is one that prints.
fn is_text(line: &[u8]) -> bool
    ensures { result ≡ list_all is_printable line.now }
{
    line.iter().all(|byte| (b' '..=b'~').contains(byte))
}

// The command of any line, by the one equation from which `read_line` tells when each error comes.
fn read(line: &[u8]) -> Result<Command, LineError>
    ensures { result ≡ command_of line.now }
{
    if line.len() > MAX_LINE {
        return Err(LineError::Long);
    }
    if !is_text(line) {
        return Err(LineError::Byte);
    }
    read_words(line)
}

/// The command of a line, given without the byte that ends it.
///
/// Words are parted by one or more spaces, and spaces at either end don't matter. A number is `0`,
/// or an optional `-`, a digit 1 to 9 and any digits, however many. A point is three numbers
/// `X Y W`, which needn't be in lowest terms; where a command has several points, any of them may
/// be equal. A segment is four numbers `x1 y1 x2 y2`, and its two ends may be one point. A path is
/// 4, 6, .. or 18 numbers `x0 y0 x1 y1 .. xk yk`, and any of its points may be equal. A batch is
/// 3, 6, .. or 24 numbers `X Y W .. X Y W`, one to eight points. Behind `region` stands `union`,
/// `intersection`, `difference` or `symmetric`, and behind `envelope` `lower` or `upper`. A curve's
/// number is from 1 to 4294967295, an observer's from 1 to 64 and a round's from 1 to 1000000. A
/// line without words, or whose first word begins with `#`, is [`Command::Nothing`]. Where a line
/// is refused for several reasons, [`LineError`] says which one is given.
pub fn read_line(line: &[u8]) -> Result<Command, LineError>
    ensures value { result ≡ command_of line.now }

    // What the bytes alone decide.
    ensures long { IsErrOf result LineError.Long ↔ (MAX_LINE < length line.now) }
    ensures byte { IsErrOf result LineError.Byte ↔ ((length line.now ≤ MAX_LINE) × Any IsOtherByte line.now) }

    // What the words of a line decide that is text.
    ensures word { IsErrOf result LineError.Word
        ↔ (IsText line.now × (IsNoCommand (words line.now) ⊎ HasWrongWord (words line.now))) }
    ensures count { IsErrOf result LineError.Count ↔ (IsText line.now × HasWrongCount (words line.now)) }
    ensures number { IsErrOf result LineError.Number ↔ (IsText line.now × HasNoNumber (words line.now)) }
    ensures range { IsErrOf result LineError.Range ↔ (IsText line.now × IsOutOfRange (words line.now)) }
    ensures nothing { (result ≡ Ok Command.Nothing) ↔ (IsText line.now × IsSilent (words line.now)) }

    // The limit itself.
    ensures limit { MAX_LINE ≡ 300 }
{
    read(line)
}
