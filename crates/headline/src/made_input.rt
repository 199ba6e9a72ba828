ghost use Rattle.std.specs.Prelude.{◌≡◌, ◌⊎◌, ℕ, map, string_bytes};
ghost use Rattle.planar_run.specs.Made.{AskForMade, LocateBy};
ghost use Rattle.planar_run.specs.Rows.{waiting_rows};
ghost use Rattle.headline.specs.Rows.{WritesMadeReply, WritesPartOfMadeReply};

use arr_notes::Observer;
use outside::{Sink, Source};
use planar_run::{Status, planar};
use std::alloc::Global;

/// Words that ask for a made script: nothing is read, and one reply alone is written.
pub fn made<S: Source, K: Sink>(
    alloc: Global,
    words: &[String],
    source: &mut S,
    sink: &mut K,
    observers: Vec<Box<dyn Observer>>,
) -> Status
    ensures status { (segments seed : ℕ) → AskForMade (map string_bytes words.now) segments seed →
        (result ≡ Status.Done) ⊎ ((result ≡ Status.WriteFault) ⊎ (result ≡ Status.NoMemory)) }
    ensures unread { (segments seed : ℕ) → AskForMade (map string_bytes words.now) segments seed →
        source.new ≡ source.old }
    ensures done { (segments seed : ℕ) → AskForMade (map string_bytes words.now) segments seed →
        result ≡ Status.Done → LocateBy (map string_bytes words.now) (λ strategy.
        WritesMadeReply strategy (waiting_rows Observer-dyn observers.items) segments seed
        (K.taken sink.old) (K.taken sink.new)) }
    ensures broken { (segments seed : ℕ) → AskForMade (map string_bytes words.now) segments seed →
        result ≡ Status.WriteFault → LocateBy (map string_bytes words.now) (λ strategy.
        WritesPartOfMadeReply strategy (waiting_rows Observer-dyn observers.items) segments seed
        (K.taken sink.old) (K.taken sink.new)) }
{
    planar(alloc, words, source, sink, observers)
}
