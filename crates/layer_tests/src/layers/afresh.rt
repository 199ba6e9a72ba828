ghost use Rattle.arrangement.specs.Arranged.{arranged, IsWatched};

use crate::layers::texts::{layer_with_mirror, texts_that_differ};
use arrangement::Arrangement;
use no_memory::NoMemory;
use script_lines::{Command, read_line};
use std::alloc::Global;
use std::test::Fail;

// An overlap that comes and goes.
const OVERLAP: [&str; 3] = ["segment 2 0 4 0", "segment 0 0 6 0", "drop 1"];

// A triangle in a square in a square, which a bridge joins, and which is taken away again.
const NESTED: [&str; 13] = [
    "segment 0 0 20 0",
    "segment 20 0 20 20",
    "segment 20 20 0 20",
    "segment 0 20 0 0",
    "segment 5 5 15 5",
    "segment 15 5 15 15",
    "segment 15 15 5 15",
    "segment 5 15 5 5",
    "segment 8 8 12 8",
    "segment 12 8 10 12",
    "segment 10 12 8 8",
    "segment 0 0 5 5",
    "drop 12",
];

// A face with two holes and two isolated vertices, which a divider parts, and which is one again.
const DIVIDED: [&str; 14] = [
    "segment 0 0 12 0",
    "segment 12 0 12 12",
    "segment 12 12 0 12",
    "segment 0 12 0 0",
    "segment 1 1 3 1",
    "segment 3 1 2 3",
    "segment 2 3 1 1",
    "segment 9 9 11 9",
    "segment 11 9 10 11",
    "segment 10 11 9 9",
    "pin 8 2 1",
    "pin 3 9 1",
    "segment 6 0 6 12",
    "drop 11",
];

// A pin that outlives its edge.
const PINNED: [&str; 3] = ["pin 2 0 1", "segment 0 0 4 0", "drop 1"];

// Two equal curves that go edge by edge.
const CUT: [&str; 8] = [
    "segment 0 0 9 0",
    "segment 0 0 9 0",
    "pin 3 0 1",
    "pin 6 0 1",
    "cut 3 0 1 6 0 1",
    "unpin 3 0 1",
    "cut 0 0 1 3 0 1",
    "cut 6 0 1 9 0 1",
];

fn are_alike(alloc: Global, layer: &mut Arrangement, lines: &[&str]) -> Result<bool, NoMemory>
    requires watched { IsWatched (arranged Observer-dyn layer.old) }
{
    'lines: for line in lines {
        let command = read_line(line.as_bytes()).unwrap_or(Command::Nothing);
        if texts_that_differ(alloc, layer, &command)?.is_some() {
            return Ok(false);
        }
    }
    Ok(true)
}

// Whether after each line the layer's text is that of a subdivision made afresh.
fn is_text_made_afresh(alloc: Global, lines: &[&str]) -> Result<bool, NoMemory> {
    let mut layer = layer_with_mirror(alloc)?;
    let alike = are_alike(alloc, &mut layer, lines);
    drop(layer);
    alike
}

#[test]
fn the_text_of_records_is_that_made_afresh(rt: HostRuntime) -> Result<(), Fail> {
    assert!(rt; is_text_made_afresh(rt.alloc(), &OVERLAP)?);
    assert!(rt; is_text_made_afresh(rt.alloc(), &NESTED)?);
    assert!(rt; is_text_made_afresh(rt.alloc(), &DIVIDED)?);
    assert!(rt; is_text_made_afresh(rt.alloc(), &PINNED)?);
    assert!(rt; is_text_made_afresh(rt.alloc(), &CUT)?);
    Ok(())
}
