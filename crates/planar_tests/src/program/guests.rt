ghost use Rattle.std.specs.Prelude.{◌<◌, IfSome};

use crate::observers::recorder::Recorder;
use crate::program::mute::Mute;
use arr_notes::Observer;
use mirror_observer::{Fading, Mirror};
use outside::{MemorySink, Source};
use planar_run::{Status, planar};
use std::alloc::Global;
use std::test::Fail;

/// An observer of a run.
#[derive(Clone, Copy)]
pub enum Guest {
    /// A mirror, which leaves after so many notes, 0 for never.
    Mirror(u64),
    /// One that finds no memory at the note of this number, snapshots aside.
    Fading(u64),
    /// One that finds no memory for a snapshot.
    Deaf,
    /// One that finds no memory for its report.
    Mute,
}

/// The observers that the program has.
pub const FOUR: [Guest; 4] = [Guest::Mirror(0); 4];

// A number of notes that is given; 0 stands for none.
fn notes_of(number: u64) -> Option<u64>
    ensures { IfSome result (λ n. 0 < n) }
{
    if number == 0 { None } else { Some(number) }
}

/// How a script ends that the source gives, under these words, with these observers.
pub fn status_with<S: Source>(
    alloc: Global,
    words: &[String],
    source: &mut S,
    sink: &mut MemorySink,
    guests: &[Guest],
) -> Result<Status, Fail> {
    let mut observers: Vec<Box<dyn Observer>> = Vec::new(alloc);
    for guest in guests {
        match guest {
            Guest::Mirror(left) => {
                let mirror = Mirror::new(alloc, notes_of(*left))?;
                observers.push(Box::new(alloc, mirror)?)?;
            }
            Guest::Fading(k) => observers.push(Box::new(alloc, Fading::new(alloc, *k))?)?,
            Guest::Deaf => observers.push(Box::new(alloc, Recorder::new(alloc, None, 0))?)?,
            Guest::Mute => observers.push(Box::new(alloc, Mute)?)?,
        }
    }
    Ok(planar(alloc, words, source, sink, observers))
}
