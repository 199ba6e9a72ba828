ghost use Rattle.std.specs.Prelude.{◌≡◌, ◌≢◌, ◌≤◌, length, map, string_bytes};
ghost use Rattle.outside.specs.Bytes.{Gains, GainsPrefix};
ghost use Rattle.words_in.specs.Grammar.{AreInGrammar, AreOutside};
ghost use Rattle.planar_run.specs.Made.{AskForScript, LocateBy};
ghost use Rattle.planar_run.specs.Rows.{waiting_rows};
ghost use Rattle.planar_run.specs.Clauses.{usage_line, Used};
ghost use Rattle.headline.specs.Rows.{script_limit, IsDone, IsReadFault, IsTooLong, IsWriteFault};

use arr_notes::Observer;
use outside::{Sink, Source};
use planar_run::{Status, planar};
use std::alloc::Global;

/// The row `Done`: the source's rest is empty, and what was written is a run of all lines.
pub fn done<S: Source, K: Sink>(
    alloc: Global,
    words: &[String],
    source: &mut S,
    sink: &mut K,
    observers: Vec<Box<dyn Observer>>,
) -> Status
    ensures known { result ≡ Status.Done → AreInGrammar (map string_bytes words.now) }
    ensures done { AskForScript (map string_bytes words.now) → result ≡ Status.Done →
        LocateBy (map string_bytes words.now) (λ strategy.
        IsDone strategy (waiting_rows Observer-dyn observers.items)
        (S.left source.old) (S.left source.new) (K.taken sink.old) (K.taken sink.new)) }
{
    planar(alloc, words, source, sink, observers)
}

/// The row `ReadFault`: what was written is a run of the lines whose end was read.
pub fn read_fault<S: Source, K: Sink>(
    alloc: Global,
    words: &[String],
    source: &mut S,
    sink: &mut K,
    observers: Vec<Box<dyn Observer>>,
) -> Status
    ensures { result ≡ Status.ReadFault →
        LocateBy (map string_bytes words.now) (λ strategy.
        IsReadFault strategy (waiting_rows Observer-dyn observers.items)
        (S.left source.old) (S.left source.new) (K.taken sink.old) (K.taken sink.new)) }
{
    planar(alloc, words, source, sink, observers)
}

/// The row `TooLong`: one byte past the limit was read, and what was written is a run of the lines that end within it. With
/// another status no more than the limit was read.
pub fn too_long<S: Source, K: Sink>(
    alloc: Global,
    words: &[String],
    source: &mut S,
    sink: &mut K,
    observers: Vec<Box<dyn Observer>>,
) -> Status
    ensures too_long { result ≡ Status.TooLong →
        LocateBy (map string_bytes words.now) (λ strategy.
        IsTooLong strategy (waiting_rows Observer-dyn observers.items)
        (S.left source.old) (S.left source.new) (K.taken sink.old) (K.taken sink.new)) }
    ensures within { result ≢ Status.TooLong →
        Used (S.left source.old) (S.left source.new) (λ used. length used ≤ script_limit) }
{
    planar(alloc, words, source, sink, observers)
}

/// The row `WriteFault`: what was written begins a run of the lines of what was read, or the usage line.
pub fn write_fault<S: Source, K: Sink>(
    alloc: Global,
    words: &[String],
    source: &mut S,
    sink: &mut K,
    observers: Vec<Box<dyn Observer>>,
) -> Status
    ensures script { AskForScript (map string_bytes words.now) → result ≡ Status.WriteFault →
        LocateBy (map string_bytes words.now) (λ strategy.
        IsWriteFault strategy (waiting_rows Observer-dyn observers.items)
        (S.left source.old) (S.left source.new) (K.taken sink.old) (K.taken sink.new)) }
    ensures usage { AreOutside (map string_bytes words.now) → result ≡ Status.WriteFault →
        GainsPrefix (K.taken sink.old) (K.taken sink.new) usage_line }
{
    planar(alloc, words, source, sink, observers)
}

/// The row `Usage`: the words are outside the grammar, nothing was read, and the usage line was written.
pub fn usage<S: Source, K: Sink>(
    alloc: Global,
    words: &[String],
    source: &mut S,
    sink: &mut K,
    observers: Vec<Box<dyn Observer>>,
) -> Status
    ensures { result ≡ Status.Usage → AreOutside (map string_bytes words.now) × (source.new ≡ source.old)
        × Gains (K.taken sink.old) (K.taken sink.new) usage_line }
{
    planar(alloc, words, source, sink, observers)
}

/// The row `NoMemory`: nothing was read, and nothing written.
pub fn no_memory<S: Source, K: Sink>(
    alloc: Global,
    words: &[String],
    source: &mut S,
    sink: &mut K,
    observers: Vec<Box<dyn Observer>>,
) -> Status
    ensures { result ≡ Status.NoMemory →
        (S.left source.new ≡ S.left source.old) × (K.taken sink.new ≡ K.taken sink.old) }
{
    planar(alloc, words, source, sink, observers)
}
