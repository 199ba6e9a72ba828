ghost use Rattle.std.specs.Prelude.{◌≡◌, find, bytes_eq};
ghost use Rattle.script_lines.specs.Command.{row_of, name_of};

/// The name of a command, its first word.
#[derive(Clone, Copy)]
pub enum Name {
    Segment,
    Path,
    Drop,
    Cut,
    Pin,
    Unpin,
    Split,
    Merge,
    Clear,
    Locate,
    Edge,
    Curve,
    Count,
    Show,
    Overlay,
    Region,
    Vertical,
    Batch,
    Envelope,
    Attach,
    Leave,
    Mirror,
    Layer,
}

// Every name.
const NAMES: [Name; 23] = [
    Name::Segment,
    Name::Path,
    Name::Drop,
    Name::Cut,
    Name::Pin,
    Name::Unpin,
    Name::Split,
    Name::Merge,
    Name::Clear,
    Name::Locate,
    Name::Edge,
    Name::Curve,
    Name::Count,
    Name::Show,
    Name::Overlay,
    Name::Region,
    Name::Vertical,
    Name::Batch,
    Name::Envelope,
    Name::Attach,
    Name::Leave,
    Name::Mirror,
    Name::Layer,
];

impl Name {
    /// How it is spelt.
    fn text(self) -> &'static str
        ensures { result.now ≡ (row_of self).name }
    {
        match self {
            Name::Segment => "segment",
            Name::Path => "path",
            Name::Drop => "drop",
            Name::Cut => "cut",
            Name::Pin => "pin",
            Name::Unpin => "unpin",
            Name::Split => "split",
            Name::Merge => "merge",
            Name::Clear => "clear",
            Name::Locate => "locate",
            Name::Edge => "edge",
            Name::Curve => "curve",
            Name::Count => "count",
            Name::Show => "show",
            Name::Overlay => "overlay",
            Name::Region => "region",
            Name::Vertical => "vertical",
            Name::Batch => "batch",
            Name::Envelope => "envelope",
            Name::Attach => "attach",
            Name::Leave => "leave",
            Name::Mirror => "mirror",
            Name::Layer => "layer",
        }
    }

    /// The name that a word spells.
    pub fn of(word: &[u8]) -> Option<Name>
        ensures { result ≡ name_of word.now }
    {
        first_spelt(&NAMES, word)
    }
}

// The first of these names that the word spells.
fn first_spelt(names: &[Name], word: &[u8]) -> Option<Name>
    ensures { result ≡ find (λ n. bytes_eq (row_of n).name word.now) names.now }
{
    names
        .iter()
        .copied()
        .find(|name| name.text().as_bytes() == word)
}
