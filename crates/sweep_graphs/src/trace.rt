ghost use Rattle.std.specs.Prelude.{◌≡◌, ◌++◌, ◌<◌, ℕ, length, map, slice_index_or, slice_set, Some, IfOk, OnOk};
ghost use Rattle.plane_graphs.specs.Ascending.{Member};
ghost use Rattle.sweep_graphs.specs.Traces.{stretch_to, open_at, traced_of, IsUntouched, IsNoted, IsTrace};

use exact_plane::{Point, Span};
use no_memory::NoMemory;
use slab_laws::Sequence;
use std::alloc::Global;
use sweep_events::{Event, Sweep};

/// The part of a piece between two vertices that follow each other on it. Vertices and pieces are told by their places.
#[derive(Clone, Copy, PartialEq, Eq, PartialOrd, Ord)]
pub struct Stretch {
    /// The lower vertex.
    pub low: usize,
    /// The upper vertex.
    pub high: usize,
    /// The piece.
    pub piece: usize,
}

/// A stretch that is told while the sweep hasn't come to its upper vertex yet.
#[derive(Clone, Copy, PartialEq, Eq, PartialOrd, Ord)]
pub struct OpenStretch {
    /// The lower vertex.
    pub low: usize,
    /// The piece.
    pub piece: usize,
}

/// What a sweep over pieces and pins leaves.
#[derive(Drop)]
pub struct Trace {
    /// The vertices, in the order of points.
    pub points: Sequence<Point>,
    /// The stretches of the pieces between them, each once, by their upper vertices.
    pub stretches: Sequence<Stretch>,
    /// Of each vertex the stretch directly below it: of those that run along one edge, the one of the last piece.
    pub below: Sequence<Option<OpenStretch>>,
}

// A trace that is being made, with the last vertex on each piece.
#[derive(Drop)]
pub(crate) struct Tracer {
    pub(crate) trace: Trace,
    pub(crate) lasts: Vec<usize>,
}

// The last vertex on a piece.
fn last_on(lasts: &[usize], piece: usize) -> usize
    requires { piece < length lasts.now }
    ensures { result ≡ slice_index_or lasts.now piece 0 }
{
    lasts[piece]
}

fn set_last(lasts: &mut Vec<usize>, piece: usize, vertex: usize)
    requires { piece < length lasts.old.items }
    ensures { lasts.new.items ≡ slice_set lasts.old.items piece vertex }
{
    lasts[piece] = vertex;
}

// The open stretch of a piece.
fn open_stretch(lasts: &[usize], piece: Option<usize>) -> Option<OpenStretch>
    requires { (j : ℕ) → piece ≡ Some j → j < length lasts.now }
    ensures { result ≡ open_at lasts.now piece }
{
    match piece {
        Some(piece) => Some(OpenStretch {
            low: last_on(lasts, piece),
            piece,
        }),
        None => None,
    }
}

// Adds the stretches of pieces that come to a vertex.
fn add_stretches(
    stretches: &mut Sequence<Stretch>,
    lasts: &[usize],
    pieces: &[usize],
    high: usize,
) -> Result<(), NoMemory>
    requires { (i : ℕ) → Member i pieces.now → i < length lasts.now }
    ensures { OnOk result (stretches.new ≡ stretches.old ++ map (stretch_to lasts.now high) pieces.now) }
{
    for piece in pieces {
        stretches.push(Stretch {
            low: last_on(lasts, *piece),
            high,
            piece: *piece,
        })?;
    }
    Ok(())
}

// Puts a vertex as the last one on pieces.
fn set_lasts(lasts: &mut Vec<usize>, pieces: &[usize], vertex: usize)
    requires { (i : ℕ) → Member i pieces.now → i < length lasts.old.items }
    ensures length { length lasts.new.items ≡ length lasts.old.items }
    ensures set { (i : ℕ) → Member i pieces.now → slice_index_or lasts.new.items i 0 ≡ vertex }
    ensures kept { (i : ℕ) → (Member i pieces.now → ⊥) → slice_index_or lasts.new.items i 0 ≡ slice_index_or lasts.old.items i 0 }
{
    for piece in pieces {
        set_last(lasts, *piece, vertex);
    }
}

impl Tracer {
    // Before the first event, of so many pieces.
    fn new(alloc: Global, count: usize) -> Result<Tracer, NoMemory>
        ensures { IfOk result (λ t. IsUntouched count (traced_of t)) }
    {
        let mut lasts = Vec::new(alloc);
        lasts.resize(count, 0)?;
        let trace = Trace {
            points: Sequence::new(alloc),
            stretches: Sequence::new(alloc),
            below: Sequence::new(alloc),
        };
        Ok(Tracer { trace, lasts })
    }

    // Adds a vertex with the stretches that come to it, and what is below it.
    fn note(&mut self, event: &Event, below: Option<usize>) -> Result<(), NoMemory>
        requires ends { (i : ℕ) → Member i event.now.ends → i < length self.old.lasts.items }
        requires starts { (i : ℕ) → Member i event.now.starts → i < length self.old.lasts.items }
        requires passes { (i : ℕ) → Member i event.now.passes → i < length self.old.lasts.items }
        requires below { (i : ℕ) → below ≡ Some i → i < length self.old.lasts.items }
        ensures { OnOk result (IsNoted (traced_of self.old) (traced_of self.new) event.now below) }
    {
        let vertex = self.trace.points.as_slice().len();
        add_stretches(
            &mut self.trace.stretches,
            &self.lasts,
            event.ends.as_slice(),
            vertex,
        )?;
        add_stretches(
            &mut self.trace.stretches,
            &self.lasts,
            event.passes.as_slice(),
            vertex,
        )?;
        set_lasts(&mut self.lasts, event.passes.as_slice(), vertex);
        set_lasts(&mut self.lasts, event.starts.as_slice(), vertex);
        self.trace.below.push(open_stretch(&self.lasts, below))?;
        self.trace.points.push(event.point)?;
        Ok(())
    }
}

/// The vertices of the arrangement of pieces and pins, the stretches of the pieces between them, and what is directly below each
/// vertex, by one plane sweep. Pieces may overlap, and pins may stand twice.
///
/// # Errors
///
/// There was no memory.
pub fn trace_of(alloc: Global, pieces: &[Span], pins: &[Point]) -> Result<Trace, NoMemory>
    ensures { IfOk result (λ t. IsTrace pieces.now pins.now t) }
{
    let mut sweep = Sweep::new(alloc, pieces, pins)?;
    let mut tracer = Tracer::new(alloc, pieces.len())?;
    while let Some(event) = sweep.next_event()? {
        tracer.note(&event, sweep.below())?;
    }
    Ok(tracer.trace)
}
