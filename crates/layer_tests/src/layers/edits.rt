ghost use Rattle.std.specs.Prelude.{◌≤◌, IfOk};
ghost use Rattle.arrangement.specs.Arranged.{arranged, IsWatched};

use crate::shapes::{Ends, point, segment};
use arrangement::{
    Arrangement, Bus, CutError, DropError, InsertError, Limits, MergeError, Path, PinError, SEATS,
    SplitError,
};
use exact_plane::Point;
use no_memory::NoMemory;
use slab_laws::CurveId;
use std::alloc::Global;
use std::test::Fail;

/// An edit, by whole numbers of plane units; but for the ends of segments, points are on the abscissa, told by their `x`.
#[derive(Clone, Copy)]
pub enum Edit {
    Insert(i64, i64, i64, i64),
    /// The polyline along these points.
    InsertPath(&'static [(i64, i64)]),
    Pin(i128),
    Unpin(i128),
    RemoveCurve(u32),
    /// The edge between two points.
    RemoveEdge(i128, i128),
    /// The edge between two points is split at a third.
    SplitEdge(i128, i128, i128),
    MergeEdge(i128),
    Clear,
}

/// What an edit answers.
#[derive(Clone, Copy, PartialEq)]
pub enum Answer {
    Drawn(u32),
    Done,
    Full(u32),
    Spent,
    Pinned,
    NotPinned,
    Unknown,
    NoEdge,
    NotInside,
    NoVertex,
    NotMergeable,
    OutOfMemory,
}

/// The point with whole coordinates.
pub fn at(x: i128, y: i128) -> Result<Point, Fail> {
    point((x, y, 1))
}

/// Limits of a layer.
#[derive(Clone, Copy)]
pub enum Under {
    /// Those of a script.
    Script,
    /// Two curves, two pieces and a pin; there is one number left.
    LastNumber,
    /// Two curves, three pieces and two pins; there are two numbers left.
    TwoCurves,
    /// One more of each than those of a script.
    OneMore,
}

const LAST_NUMBER: Limits = Limits {
    curves: 2,
    pieces: 2,
    pins: 1,
    first: 4294967295,
};

const TWO_CURVES: Limits = Limits {
    curves: 2,
    pieces: 3,
    pins: 2,
    first: 4294967294,
};

const ONE_MORE: Limits = Limits {
    curves: 2_001,
    pieces: 10_001,
    pins: 10_001,
    first: 1,
};

fn limits_of(under: Under) -> Limits
    ensures { 1 ≤ result.first }
{
    match under {
        Under::Script => Limits::FULL,
        Under::LastNumber => LAST_NUMBER,
        Under::TwoCurves => TWO_CURVES,
        Under::OneMore => ONE_MORE,
    }
}

/// A layer of nothing, without observers.
pub fn layer_under(alloc: Global, under: Under) -> Result<Arrangement, NoMemory>
    ensures watched { IfOk result (λ a. IsWatched (arranged Observer-dyn a)) }
{
    let bus = Bus::new(alloc, Vec::with_capacity(alloc, SEATS)?)?;
    Arrangement::new(alloc, limits_of(under), bus)
}

fn answer_of(inserted: Result<CurveId, InsertError>) -> Answer {
    match inserted {
        Ok(curve) => Answer::Drawn(curve.0),
        Err(InsertError::Full(limit)) => Answer::Full(limit),
        Err(InsertError::Spent) => Answer::Spent,
        Err(InsertError::NoMemory) => Answer::OutOfMemory,
    }
}

fn insert(layer: &mut Arrangement, ends: Ends) -> Result<Answer, Fail>
    requires watched { IsWatched (arranged Observer-dyn layer.old) }
    ensures watched { IsWatched (arranged Observer-dyn layer.new) }
{
    Ok(answer_of(layer.insert(segment(ends)?)))
}

fn insert_path(layer: &mut Arrangement, points: &[(i64, i64)]) -> Result<Answer, Fail>
    requires watched { IsWatched (arranged Observer-dyn layer.old) }
    ensures watched { IsWatched (arranged Observer-dyn layer.new) }
{
    Ok(answer_of(layer.insert_path(&Path::new(points)?)))
}

fn pin(layer: &mut Arrangement, x: i128) -> Result<Answer, Fail>
    requires watched { IsWatched (arranged Observer-dyn layer.old) }
    ensures watched { IsWatched (arranged Observer-dyn layer.new) }
{
    match layer.pin(&at(x, 0)?) {
        Ok(()) => Ok(Answer::Done),
        Err(PinError::Pinned) => Ok(Answer::Pinned),
        Err(PinError::Full(limit)) => Ok(Answer::Full(limit)),
        Err(PinError::NoMemory) => Ok(Answer::OutOfMemory),
    }
}

fn unpin(layer: &mut Arrangement, x: i128) -> Result<Answer, Fail>
    requires watched { IsWatched (arranged Observer-dyn layer.old) }
    ensures watched { IsWatched (arranged Observer-dyn layer.new) }
{
    match layer.unpin(&at(x, 0)?) {
        Ok(()) => Ok(Answer::Done),
        Err(_) => Ok(Answer::NotPinned),
    }
}

fn remove_curve(layer: &mut Arrangement, curve: u32) -> Answer
    requires watched { IsWatched (arranged Observer-dyn layer.old) }
    ensures watched { IsWatched (arranged Observer-dyn layer.new) }
{
    match layer.remove_curve(CurveId(curve)) {
        Ok(()) => Answer::Done,
        Err(DropError::Unknown) => Answer::Unknown,
        Err(DropError::NoMemory) => Answer::OutOfMemory,
    }
}

fn remove_edge(layer: &mut Arrangement, x: i128, z: i128) -> Result<Answer, Fail>
    requires watched { IsWatched (arranged Observer-dyn layer.old) }
    ensures watched { IsWatched (arranged Observer-dyn layer.new) }
{
    let (p, q) = (at(x, 0)?, at(z, 0)?);
    match layer.remove_edge(&p, &q) {
        Ok(()) => Ok(Answer::Done),
        Err(CutError::NoEdge) => Ok(Answer::NoEdge),
        Err(CutError::Full(limit)) => Ok(Answer::Full(limit)),
        Err(CutError::NoMemory) => Ok(Answer::OutOfMemory),
    }
}

fn split_edge(layer: &mut Arrangement, x: i128, z: i128, y: i128) -> Result<Answer, Fail>
    requires watched { IsWatched (arranged Observer-dyn layer.old) }
    ensures watched { IsWatched (arranged Observer-dyn layer.new) }
{
    let (p, q, r) = (at(x, 0)?, at(z, 0)?, at(y, 0)?);
    match layer.split_edge(&p, &q, &r) {
        Ok(()) => Ok(Answer::Done),
        Err(SplitError::NoEdge) => Ok(Answer::NoEdge),
        Err(SplitError::NotInside) => Ok(Answer::NotInside),
        Err(SplitError::Full(limit)) => Ok(Answer::Full(limit)),
        Err(SplitError::NoMemory) => Ok(Answer::OutOfMemory),
    }
}

fn merge_edge(layer: &mut Arrangement, x: i128) -> Result<Answer, Fail>
    requires watched { IsWatched (arranged Observer-dyn layer.old) }
    ensures watched { IsWatched (arranged Observer-dyn layer.new) }
{
    match layer.merge_edge(&at(x, 0)?) {
        Ok(()) => Ok(Answer::Done),
        Err(MergeError::NoVertex) => Ok(Answer::NoVertex),
        Err(MergeError::NotMergeable) => Ok(Answer::NotMergeable),
    }
}

fn clear(layer: &mut Arrangement) -> Answer
    requires watched { IsWatched (arranged Observer-dyn layer.old) }
    ensures watched { IsWatched (arranged Observer-dyn layer.new) }
{
    layer.clear();
    Answer::Done
}

/// What the edit answers.
pub fn apply(layer: &mut Arrangement, edit: Edit) -> Result<Answer, Fail>
    requires watched { IsWatched (arranged Observer-dyn layer.old) }
    ensures watched { IsWatched (arranged Observer-dyn layer.new) }
{
    match edit {
        Edit::Insert(x1, y1, x2, y2) => insert(layer, (x1, y1, x2, y2)),
        Edit::InsertPath(points) => insert_path(layer, points),
        Edit::Pin(x) => pin(layer, x),
        Edit::Unpin(x) => unpin(layer, x),
        Edit::RemoveCurve(curve) => Ok(remove_curve(layer, curve)),
        Edit::RemoveEdge(x, z) => remove_edge(layer, x, z),
        Edit::SplitEdge(x, z, y) => split_edge(layer, x, z, y),
        Edit::MergeEdge(x) => merge_edge(layer, x),
        Edit::Clear => Ok(clear(layer)),
    }
}
