ghost use Rattle.std.specs.Prelude.{◌≡◌, ◌⊎◌, ◌+◌, ◌≤◌, length, map, string_bytes, IsSomeAnd};
ghost use Rattle.outside.specs.Counts.{Rose};
ghost use Rattle.words_in.specs.Grammar.{AreInGrammar, AreOutside};
ghost use Rattle.script_lines.specs.declared.command.TheConstants.{MAX_LINE};
ghost use Rattle.arrangement.specs.declared.limits.TheConstants.Limits.{FULL};
ghost use Rattle.headline.specs.Rows.{script_limit, exit_of, IsCaused};

use arr_notes::Observer;
use outside::{Sink, Source};
use planar_run::{Status, planar};
use std::alloc::Global;

/// Counts of faults: `ReadFault` and `WriteFault` come only where their count rose, all else only where both stayed.
pub fn faults<S: Source, K: Sink>(
    alloc: Global,
    words: &[String],
    source: &mut S,
    sink: &mut K,
    observers: Vec<Box<dyn Observer>>,
) -> Status
    ensures { IsCaused result (S.faults source.old) (S.faults source.new) (K.faults sink.old) (K.faults sink.new) }
{
    planar(alloc, words, source, sink, observers)
}

/// Completeness: for words in the grammar, a source and a sink whose faults don't rise, and a script within the limit, a run is
/// done, but for want of memory before its first line.
pub fn complete<S: Source, K: Sink>(
    alloc: Global,
    words: &[String],
    source: &mut S,
    sink: &mut K,
    observers: Vec<Box<dyn Observer>>,
) -> Status
    ensures { AreInGrammar (map string_bytes words.now) →
        ¬ Rose (S.faults source.old) (S.faults source.new) → ¬ Rose (K.faults sink.old) (K.faults sink.new) →
        IsSomeAnd (S.left source.old) (λ script. length script ≤ script_limit) →
        (result ≡ Status.Done) ⊎ (result ≡ Status.NoMemory) }
{
    planar(alloc, words, source, sink, observers)
}

/// Words outside the grammar: the source isn't read, and no run begins.
pub fn other_words<S: Source, K: Sink>(
    alloc: Global,
    words: &[String],
    source: &mut S,
    sink: &mut K,
    observers: Vec<Box<dyn Observer>>,
) -> Status
    ensures unread { AreOutside (map string_bytes words.now) → source.new ≡ source.old }
    ensures status { AreOutside (map string_bytes words.now) →
        (result ≡ Status.Usage) ⊎ ((result ≡ Status.WriteFault) ⊎ (result ≡ Status.NoMemory)) }
{
    planar(alloc, words, source, sink, observers)
}

/// The source is asked at most once for each byte of a script of the limit's length, and once more.
pub fn reads<S: Source, K: Sink>(
    alloc: Global,
    words: &[String],
    source: &mut S,
    sink: &mut K,
    observers: Vec<Box<dyn Observer>>,
) -> Status
    ensures { S.calls source.new ≤ S.calls source.old + (script_limit + 1) }
{
    planar(alloc, words, source, sink, observers)
}

/// The limits of a line, and of a layer of a script, which the words of the rows cite.
pub fn limits<S: Source, K: Sink>(
    alloc: Global,
    words: &[String],
    source: &mut S,
    sink: &mut K,
    observers: Vec<Box<dyn Observer>>,
) -> Status
    ensures line { MAX_LINE ≡ 300 }
    ensures curves { FULL.curves ≡ 2000 }
    ensures pieces { FULL.pieces ≡ 10000 }
    ensures pins { FULL.pins ≡ 10000 }
{
    planar(alloc, words, source, sink, observers)
}

/// The exit status of the program that tells how a run ended.
pub fn exit(status: Status) -> u8
    ensures { result ≡ exit_of status }
{
    status.exit_code()
}
