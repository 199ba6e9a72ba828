ghost use Rattle.std.specs.Prelude.{◌≡◌, ◌≢◌, ◌⊎◌, ◌+◌, ◌^◌, ◌≤◌, ℕ, [], length, map, string_bytes, IsSomeAnd};
ghost use Rattle.outside.specs.Bytes.{Gains, GainsPrefix};
ghost use Rattle.outside.specs.Counts.{Rose};
ghost use Rattle.words_in.specs.Grammar.{AreInGrammar, AreOutside};
ghost use Rattle.script_maker.specs.Script.{script};
ghost use Rattle.script_lines.specs.declared.command.TheConstants.{MAX_LINE};
ghost use Rattle.arrangement.specs.declared.limits.TheConstants.Limits.{FULL};
ghost use Rattle.planar_run.specs.Made.{AnswersMade, AnswersMadePart, AskForMade, AskForScript, LocateBy};
ghost use Rattle.planar_run.specs.World.{first_world};
ghost use Rattle.planar_run.specs.Rows.{waiting_rows, world_row, IsKeptWorld};
ghost use Rattle.planar_run.specs.Clauses.{usage_line, Used, ReadToEnd, AnswersScript, AnswersScriptPart};
ghost use Rattle.planar_run.specs.Clauses.{AnswersEnded, AnswersToLimit, Ends, Causes};

use crate::engine::Engine;
use crate::status::Status;
use arr_notes::Observer;
use outside::{Sink, Source, read_byte, write_all};
use script_maker::Maker;
use slab_laws::Strategy;
use std::alloc::Global;
use words_in::{WordsError, read_words};

/// How many bytes a script may have.
pub const SCRIPT_LIMIT: usize = 1 << 26;

// How many bytes a call of `read` asks for, as long as the limit leaves so many.
const BUFFER: usize = 4096;

// Reads the script and answers its lines, by an engine that stands before the first byte.
fn answer_script<S: Source, K: Sink>(engine: &mut Engine, source: &mut S, sink: &mut K) -> Status
    requires line { engine.old.line ≡ [] }
    requires kept { IsKeptWorld Observer-dyn engine.old.world }
    ensures ends { Ends (world_row Observer-dyn engine.old.world) result
        (S.left source.old) (S.left source.new) (K.taken sink.old) (K.taken sink.new) }
    ensures causes { Causes result
        (S.faults source.old) (S.faults source.new) (K.faults sink.old) (K.faults sink.new) }
    ensures reads { S.calls source.new ≤ S.calls source.old + (SCRIPT_LIMIT + 1) }
{
    let mut buffer = [0u8; BUFFER];
    let mut room = SCRIPT_LIMIT;
    'reads: while room > 0 {
        let (part, _) = buffer.split_at_mut(room.min(BUFFER));
        let count = match source.read(part) {
            Ok(count) => count,
            Err(_) => return Status::ReadFault,
        };
        if count == 0 {
            return engine.finish(sink);
        }
        let (bytes, _) = buffer.split_at(count);
        match engine.feed(bytes, sink) {
            Ok(()) => room -= count,
            Err(_) => return Status::WriteFault,
        }
    }
    match read_byte(source) {
        Err(_) => Status::ReadFault,
        Ok(None) => engine.finish(sink),
        Ok(Some(_)) => Status::TooLong,
    }
}

// The same by a new engine, where there is memory for it. A call drops it, since what a scope drops at its end is proved there
// anew, in all its parts.
fn run<S: Source, K: Sink>(
    alloc: Global,
    strategy: Strategy,
    source: &mut S,
    sink: &mut K,
    observers: Vec<Box<dyn Observer>>,
) -> Status
    ensures ends { Ends (first_world strategy (waiting_rows Observer-dyn observers.items)) result
        (S.left source.old) (S.left source.new) (K.taken sink.old) (K.taken sink.new) }
    ensures causes { Causes result
        (S.faults source.old) (S.faults source.new) (K.faults sink.old) (K.faults sink.new) }
    ensures reads { S.calls source.new ≤ S.calls source.old + (SCRIPT_LIMIT + 1) }
{
    match Engine::new(alloc, strategy, observers) {
        Ok(mut engine) => {
            let status = answer_script(&mut engine, source, sink);
            drop(engine);
            status
        }
        Err(_) => Status::NoMemory,
    }
}

// Writes the last reply to a made script, by an engine that stands before the first line.
fn answer_made<K: Sink>(engine: &mut Engine, segments: u32, seed: u32, sink: &mut K) -> Status
    requires kept { IsKeptWorld Observer-dyn engine.old.world }
    ensures made { result ≡ Status.Done → AnswersMade (K.taken sink.old) (K.taken sink.new)
        (world_row Observer-dyn engine.old.world) (script segments seed) }
    ensures broken { result ≡ Status.WriteFault → AnswersMadePart (K.taken sink.old) (K.taken sink.new)
        (world_row Observer-dyn engine.old.world) (script segments seed) }
    ensures only { (result ≡ Status.Done) ⊎ (result ≡ Status.WriteFault) }
    ensures causes { Causes result 0 0 (K.faults sink.old) (K.faults sink.new) }
{
    let mut maker = Maker::new(segments, seed);
    match engine.write_made(&mut maker, sink) {
        Ok(()) => Status::Done,
        Err(_) => Status::WriteFault,
    }
}

// The same by a new engine, where there is memory for it.
fn run_made<K: Sink>(
    alloc: Global,
    strategy: Strategy,
    segments: u32,
    seed: u32,
    sink: &mut K,
    observers: Vec<Box<dyn Observer>>,
) -> Status
    ensures made { result ≡ Status.Done → AnswersMade (K.taken sink.old) (K.taken sink.new)
        (first_world strategy (waiting_rows Observer-dyn observers.items)) (script segments seed) }
    ensures broken { result ≡ Status.WriteFault → AnswersMadePart (K.taken sink.old) (K.taken sink.new)
        (first_world strategy (waiting_rows Observer-dyn observers.items)) (script segments seed) }
    ensures no_memory { result ≡ Status.NoMemory → K.taken sink.new ≡ K.taken sink.old }
    ensures only { (result ≡ Status.Done) ⊎ ((result ≡ Status.WriteFault) ⊎ (result ≡ Status.NoMemory)) }
    ensures causes { Causes result 0 0 (K.faults sink.old) (K.faults sink.new) }
{
    match Engine::new(alloc, strategy, observers) {
        Ok(mut engine) => {
            let status = answer_made(&mut engine, segments, seed, sink);
            drop(engine);
            status
        }
        Err(_) => Status::NoMemory,
    }
}

// The usage line in place of a run.
fn refuse_words<K: Sink>(sink: &mut K) -> Status
    ensures usage { result ≡ Status.Usage → Gains (K.taken sink.old) (K.taken sink.new) usage_line }
    ensures broken { result ≡ Status.WriteFault → GainsPrefix (K.taken sink.old) (K.taken sink.new) usage_line }
    ensures only { (result ≡ Status.Usage) ⊎ (result ≡ Status.WriteFault) }
    ensures causes { Causes result 0 0 (K.faults sink.old) (K.faults sink.new) }
{
    match write_all(
        sink,
        b"usage: planar [--locate naive|walk|landmarks|trapezoid] [--make N] [--seed N]\n",
    ) {
        Ok(()) => Status::Usage,
        Err(_) => Status::WriteFault,
    }
}

/// Runs the script that the source gives, and hands the replies to the sink.
///
/// `words` are those of the command line, the program's name first, which [`read_words`] reads; how points are located
/// shows in no reply but `no memory`. Where they ask for a made script, the source isn't read, and the reply to the last line of that script
/// alone is written, or, where a line of it finds no memory, the reply to the first such line. Each line is answered when its
/// end was read. A line that was begun isn't answered after a failed read, and the first failed read or write ends the run.
/// Replies are gathered, and handed over before more is read. Lines and scripts of any length take bounded memory.
pub fn planar<S: Source, K: Sink>(
    alloc: Global,
    words: &[String],
    source: &mut S,
    sink: &mut K,
    observers: Vec<Box<dyn Observer>>,
) -> Status
    // Where the words ask for the script of the source, what the sink took is a run of its lines, and its end was reached.
    ensures read_to_end { AskForScript (map string_bytes words.now) → result ≡ Status.Done →
        ReadToEnd (S.left source.old) (S.left source.new) }
    ensures answered { AskForScript (map string_bytes words.now) → result ≡ Status.Done →
        LocateBy (map string_bytes words.now) (λ strategy.
        AnswersScript (first_world strategy (waiting_rows Observer-dyn observers.items))
        (S.left source.old) (S.left source.new) (K.taken sink.old) (K.taken sink.new)) }

    // After a fault, or past the limit, the lines whose end was read are answered.
    ensures answered_to_read_fault { result ≡ Status.ReadFault →
        LocateBy (map string_bytes words.now) (λ strategy.
        AnswersEnded (first_world strategy (waiting_rows Observer-dyn observers.items))
        (S.left source.old) (S.left source.new) (K.taken sink.old) (K.taken sink.new)) }
    ensures answered_to_limit { result ≡ Status.TooLong →
        LocateBy (map string_bytes words.now) (λ strategy.
        AnswersToLimit (first_world strategy (waiting_rows Observer-dyn observers.items))
        (S.left source.old) (S.left source.new) (K.taken sink.old) (K.taken sink.new)) }
    ensures answered_to_write_fault { AskForScript (map string_bytes words.now) → result ≡ Status.WriteFault →
        LocateBy (map string_bytes words.now) (λ strategy.
        AnswersScriptPart (first_world strategy (waiting_rows Observer-dyn observers.items))
        (S.left source.old) (S.left source.new) (K.taken sink.old) (K.taken sink.new)) }

    // Where they ask for a made script, it took the last reply to its lines, and nothing is read.
    ensures made { (segments seed : ℕ) → AskForMade (map string_bytes words.now) segments seed →
        result ≡ Status.Done → LocateBy (map string_bytes words.now) (λ strategy.
        AnswersMade (K.taken sink.old) (K.taken sink.new)
        (first_world strategy (waiting_rows Observer-dyn observers.items)) (script segments seed)) }
    ensures made_to_write_fault { (segments seed : ℕ) → AskForMade (map string_bytes words.now) segments seed →
        result ≡ Status.WriteFault → LocateBy (map string_bytes words.now) (λ strategy.
        AnswersMadePart (K.taken sink.old) (K.taken sink.new)
        (first_world strategy (waiting_rows Observer-dyn observers.items)) (script segments seed)) }
    ensures made_without_source { (segments seed : ℕ) → AskForMade (map string_bytes words.now) segments seed →
        (source.new ≡ source.old)
        × ((result ≡ Status.Done) ⊎ ((result ≡ Status.WriteFault) ⊎ (result ≡ Status.NoMemory))) }

    // A run is done only where the words are in the grammar.
    ensures known { result ≡ Status.Done → AreInGrammar (map string_bytes words.now) }

    // Words outside the grammar are answered by the usage line, where there is memory to read them, and nothing is read.
    ensures usage { result ≡ Status.Usage →
        AreOutside (map string_bytes words.now) × Gains (K.taken sink.old) (K.taken sink.new) usage_line }
    ensures usage_broken { AreOutside (map string_bytes words.now) → result ≡ Status.WriteFault →
        GainsPrefix (K.taken sink.old) (K.taken sink.new) usage_line }
    ensures other_words { AreOutside (map string_bytes words.now) →
        (result ≡ Status.Usage) ⊎ ((result ≡ Status.WriteFault) ⊎ (result ≡ Status.NoMemory)) }
    ensures nothing_read { AreOutside (map string_bytes words.now) → source.new ≡ source.old }

    ensures no_memory { result ≡ Status.NoMemory →
        (S.left source.new ≡ S.left source.old) × (K.taken sink.new ≡ K.taken sink.old) }

    // It is too long exactly where one byte past the limit was read.
    ensures too_long { result ≡ Status.TooLong →
        Used (S.left source.old) (S.left source.new) (λ used. length used ≡ SCRIPT_LIMIT + 1) }
    ensures not_too_long { result ≢ Status.TooLong →
        Used (S.left source.old) (S.left source.new) (λ used. length used ≤ SCRIPT_LIMIT) }

    // A fault is answered only where its count rose, and nothing else is where one rose.
    ensures read_fault { result ≡ Status.ReadFault → Rose (S.faults source.old) (S.faults source.new) }
    ensures write_fault { result ≡ Status.WriteFault → Rose (K.faults sink.old) (K.faults sink.new) }
    ensures no_read_fault { result ≢ Status.ReadFault → S.faults source.new ≡ S.faults source.old }
    ensures no_write_fault { result ≢ Status.WriteFault → K.faults sink.new ≡ K.faults sink.old }

    // A script within the limit, over a source and a sink whose faults don't rise, is run to its end.
    ensures complete { AskForScript (map string_bytes words.now) →
        ¬ Rose (S.faults source.old) (S.faults source.new) → ¬ Rose (K.faults sink.old) (K.faults sink.new) →
        IsSomeAnd (S.left source.old) (λ script. length script ≤ SCRIPT_LIMIT) →
        (result ≡ Status.Done) ⊎ (result ≡ Status.NoMemory) }

    // The source is asked at most once for each byte of a script of the limit's length, and once more.
    ensures reads { S.calls source.new ≤ S.calls source.old + (SCRIPT_LIMIT + 1) }

    // The limits themselves: bytes of a script, bytes of a line, and what a layer of a script may hold.
    ensures limit { SCRIPT_LIMIT ≡ 2 ^ 26 }
    ensures line_limit { MAX_LINE ≡ 300 }
    ensures full { (FULL.curves ≡ 2000) × (FULL.pieces ≡ 10000) × (FULL.pins ≡ 10000) }
{
    match read_words(alloc, words) {
        Ok(options) => match options.make {
            None => run(alloc, options.strategy, source, sink, observers),
            Some(segments) => run_made(
                alloc,
                options.strategy,
                segments,
                options.seed,
                sink,
                observers,
            ),
        },
        Err(WordsError::Usage) => refuse_words(sink),
        Err(WordsError::NoMemory) => Status::NoMemory,
    }
}
