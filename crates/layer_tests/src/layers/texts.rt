ghost use Rattle.std.specs.Prelude.{IfOk};
ghost use Rattle.arrangement.specs.Arranged.{arranged, IsWatched};

use crate::layers::script_edits::apply;
use arr_text::text;
use arrangement::{Arrangement, Bus, Limits, Observer, SEATS};
use curve_history::Drawn;
use mirror_observer::Mirror;
use no_memory::NoMemory;
use plain_slabs::subdivide_of;
use script_lines::Command;
use std::alloc::Global;

// The number under which a layer's mirror is seated.
const MIRROR: u32 = 1;

/// Three texts of a layer, which are one.
#[derive(Drop)]
pub struct Texts {
    /// By the cycles and faces of its records.
    pub of_records: Vec<u8>,
    /// By a subdivision of the plane by its vertices and edges.
    pub afresh: Vec<u8>,
    /// What its mirror reports.
    pub of_mirror: Vec<u8>,
}

fn are_alike(texts: &Texts) -> bool {
    texts.of_records == texts.afresh && texts.of_mirror == texts.afresh
}

fn seat(layer: &mut Arrangement, observer: Box<dyn Observer>) -> bool
    requires watched { IsWatched (arranged Observer-dyn layer.old) }
    ensures watched { IsWatched (arranged Observer-dyn layer.new) }
{
    match layer.attach(MIRROR, observer, None) {
        Ok(()) => true,
        Err(_) => false,
    }
}

fn new_layer(alloc: Global) -> Result<Arrangement, NoMemory>
    ensures watched { IfOk result (λ a. IsWatched (arranged Observer-dyn a)) }
{
    let bus = Bus::new(alloc, Vec::with_capacity(alloc, SEATS)?)?;
    Arrangement::new(alloc, Limits::FULL, bus)
}

/// A layer of nothing, with a mirror.
pub fn layer_with_mirror(alloc: Global) -> Result<Arrangement, NoMemory>
    ensures watched { IfOk result (λ a. IsWatched (arranged Observer-dyn a)) }
{
    let mirror = Box::new(alloc, Mirror::new(alloc, None)?)?;
    let mut layer = new_layer(alloc)?;
    if seat(&mut layer, mirror) {
        Ok(layer)
    } else {
        drop(layer);
        Err(NoMemory)
    }
}

fn text_of_records(alloc: Global, layer: &Arrangement) -> Result<Vec<u8>, NoMemory> {
    layer.laws();
    let drawn = Drawn::new(layer.records(), layer.history());
    text(alloc, &drawn)
}

fn text_afresh(alloc: Global, layer: &Arrangement) -> Result<Vec<u8>, NoMemory> {
    layer.laws();
    let drawn = Drawn::new(layer.records(), layer.history());
    let plain = subdivide_of(alloc, &drawn)?;
    let text = text(alloc, &plain);
    drop(plain);
    text
}

fn text_of_mirror(layer: &Arrangement) -> Result<Vec<u8>, NoMemory>
    requires watched { IsWatched (arranged Observer-dyn layer.now) }
{
    match layer.report(MIRROR) {
        Ok(text) => Ok(text),
        Err(_) => Err(NoMemory),
    }
}

/// The texts of a layer after the edit that a line asks for, where they differ.
///
/// # Errors
///
/// There was no memory for them, or for the mirror.
pub fn texts_that_differ(
    alloc: Global,
    layer: &mut Arrangement,
    command: &Command,
) -> Result<Option<Texts>, NoMemory>
    requires watched { IsWatched (arranged Observer-dyn layer.old) }
    ensures watched { IsWatched (arranged Observer-dyn layer.new) }
{
    apply(layer, command);
    let texts = Texts {
        of_records: text_of_records(alloc, layer)?,
        afresh: text_afresh(alloc, layer)?,
        of_mirror: text_of_mirror(layer)?,
    };
    if are_alike(&texts) {
        Ok(None)
    } else {
        Ok(Some(texts))
    }
}
