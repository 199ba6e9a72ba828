ghost use Rattle.arrangement.specs.Arranged.{arranged, IsWatched};

use crate::layers::asked::{counted, has_curves, has_edge, is_unknown};
use crate::layers::edits::{Answer, Edit, Under, apply, layer_under};
use crate::layers::kept::keeps_names;
use crate::layers::pieces::{Part, has_pieces};
use crate::layers::places::lies_in;
use crate::layers::seats::{is_met, leaves, reports};
use arrangement::{Arrangement, AttachError, Observer};
use slab_laws::CurveId;
use std::alloc::Global;
use std::test::Fail;

/// A call of the arrangement with what it has to answer; points on the abscissa are told by their `x`.
#[derive(Clone, Copy)]
pub enum Call {
    Makes(Edit, Answer),
    /// The edit answers so, and the names of records along the abscissa are as before.
    KeepsNames(Edit, Answer),
    /// The next observer comes under a name.
    Comes(u32),
    /// The next observer is refused under a name, and handed back.
    IsRefused(u32, AttachError),
    /// Whether a seated observer of the name leaves.
    Leaves(u32, bool),
    /// Just these curves run along the edge between two points; none where there is no edge.
    HasCurves(i128, i128, &'static [CurveId]),
    /// The curve runs along just the edge between two points.
    HasEdge(u32, i128, i128),
    IsUnknown(u32),
    /// These are the layer's pieces, in their order.
    HasPieces(&'static [Part]),
    Counts([usize; 6]),
    /// The point lies inside the edge between two others, under each strategy.
    LiesIn(i128, i128, i128),
    /// The observer of the name reports this, or none is seated.
    Reports(u32, Option<&'static [u8]>),
}

// Whether a call that changes nothing answers as it has to.
fn is_told(layer: &mut Arrangement, call: &Call) -> Result<bool, Fail>
    requires watched { IsWatched (arranged Observer-dyn layer.old) }
    ensures watched { IsWatched (arranged Observer-dyn layer.new) }
{
    match call {
        Call::HasCurves(x, z, wanted) => has_curves(layer, *x, *z, wanted),
        Call::HasEdge(curve, x, z) => has_edge(layer, *curve, *x, *z),
        Call::IsUnknown(curve) => Ok(is_unknown(layer, *curve)),
        Call::HasPieces(wanted) => has_pieces(layer, wanted),
        Call::Counts(wanted) => Ok(counted(layer)? == *wanted),
        Call::LiesIn(y, x, z) => lies_in(layer, *y, *x, *z),
        Call::Reports(name, wanted) => Ok(reports(layer, *name, *wanted)),
        _ => Ok(false),
    }
}

// Whether a call with which no observer comes answers as it has to.
fn is_answered(layer: &mut Arrangement, call: &Call) -> Result<bool, Fail>
    requires watched { IsWatched (arranged Observer-dyn layer.old) }
    ensures watched { IsWatched (arranged Observer-dyn layer.new) }
{
    match call {
        Call::Makes(edit, wanted) => Ok(apply(layer, *edit)? == *wanted),
        Call::KeepsNames(edit, wanted) => keeps_names(layer, *edit, *wanted),
        Call::Leaves(name, wanted) => Ok(leaves(layer, *name) == *wanted),
        _ => is_told(layer, call),
    }
}

// Whether a call answers as it has to; the last of the observers comes with it, where one does.
fn is_right(
    layer: &mut Arrangement,
    call: &Call,
    observers: &mut Vec<Box<dyn Observer>>,
) -> Result<bool, Fail>
    requires watched { IsWatched (arranged Observer-dyn layer.old) }
    ensures watched { IsWatched (arranged Observer-dyn layer.new) }
{
    match call {
        Call::Comes(name) => is_met(layer, *name, None, observers),
        Call::IsRefused(name, error) => is_met(layer, *name, Some(*error), observers),
        _ => is_answered(layer, call),
    }
}

/// Whether each call answers as it has to, one after the other; the observers come with them, the last one first.
pub fn all_right(
    layer: &mut Arrangement,
    calls: &[Call],
    observers: &mut Vec<Box<dyn Observer>>,
) -> Result<bool, Fail>
    requires watched { IsWatched (arranged Observer-dyn layer.old) }
    ensures watched { IsWatched (arranged Observer-dyn layer.new) }
{
    'calls: for call in calls {
        if !is_right(layer, call, observers)? {
            return Ok(false);
        }
    }
    Ok(true)
}

/// The same on a layer of nothing.
pub fn are_right(
    alloc: Global,
    under: Under,
    calls: &[Call],
    mut observers: Vec<Box<dyn Observer>>,
) -> Result<bool, Fail> {
    let mut layer = layer_under(alloc, under)?;
    let right = all_right(&mut layer, calls, &mut observers);
    drop(layer);
    right
}
