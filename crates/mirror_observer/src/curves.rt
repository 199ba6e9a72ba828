ghost use Rattle.std.specs.Prelude.{◌≡◌, ◌++◌, ◌∷◌, [], map, not, cond, List, ℕ, OnOk, IfOk};
ghost use Rattle.std.specs.List.{filter};
ghost use Rattle.std.specs.Ordering.{nat_cmp};
ghost use Rattle.plane_graphs.specs.Ascending.{place};
ghost use Rattle.plane_graphs.specs.Graph.{same_curve};
ghost use Rattle.slab_laws.specs.Tables.{row_at};
ghost use Rattle.arr_notes.specs.CurvedView.{curves_or};
ghost use Rattle.arr_notes.specs.NamedRows.{put, del, edit};
ghost use Rattle.mirror_observer.specs.Tables.{rows, numbers_in};
ghost use Rattle.mirror_observer.specs.Lists.{AreGained, left_from, placed_from};

use no_memory::NoMemory;
use slab_laws::{CurveId, DartId, Sequence};
use std::alloc::Global;
use std::cmp::Ordering;
use std::collections::BTreeMap;

// The same curves once more.
pub(crate) fn copied(alloc: Global, curves: &[CurveId]) -> Result<Sequence<CurveId>, NoMemory>
    ensures { IfOk result (λ s. s ≡ curves.now) }
{
    let mut copy = Sequence::new(alloc);
    for curve in curves {
        copy.push(*curve)?;
    }
    Ok(copy)
}

// The curves along the edge of a forward dart; none for another name.
pub(crate) fn along(
    alloc: Global,
    curves: &BTreeMap<usize, Sequence<CurveId>>,
    d: DartId,
) -> Result<Sequence<CurveId>, NoMemory>
    ensures { IfOk result (λ s. numbers_in s ≡ curves_or (row_at (rows numbers_in curves.now.entries) d.0)) }
{
    match curves.get(&d.0) {
        Some(list) => {
            let copy = copied(alloc, list.as_slice())?;
            Ok(copy)
        }
        None => Ok(Sequence::new(alloc)),
    }
}

// One curve of the list goes to the end, after the curve that is to come where its place is before; whether that has come.
fn go_on(
    more: &mut Sequence<CurveId>,
    curve: CurveId,
    come: bool,
    next: CurveId,
) -> Result<bool, NoMemory>
    ensures { IfOk result (λ b. (rest : List ℕ) → AreGained (placed_from curve.0 come (next.0 ∷ rest)) (numbers_in more.old) (placed_from curve.0 b rest) (numbers_in more.new)) }
{
    if come {
        more.push(next)?;
        return Ok(true);
    }
    match curve.0.cmp(&next.0) {
        Ordering::Less => {
            more.push(curve)?;
            more.push(next)?;
            Ok(true)
        }
        Ordering::Equal => {
            more.push(next)?;
            Ok(true)
        }
        Ordering::Greater => {
            more.push(next)?;
            Ok(false)
        }
    }
}

// The curve goes to the end, unless it has come.
fn finish(more: &mut Sequence<CurveId>, curve: CurveId, come: bool) -> Result<(), NoMemory>
    ensures { OnOk result (numbers_in more.new ≡ numbers_in more.old ++ placed_from curve.0 come []) }
{
    if come {
        return Ok(());
    }
    more.push(curve)?;
    Ok(())
}

// The curves with one more in its place, unless it is there.
fn with_curve(
    alloc: Global,
    curves: &[CurveId],
    curve: CurveId,
) -> Result<Sequence<CurveId>, NoMemory>
    ensures { IfOk result (λ s. numbers_in s ≡ place nat_cmp curve.0 (numbers_in curves.now)) }
{
    let mut more = Sequence::new(alloc);
    let mut come = false;
    for next in curves {
        come = go_on(&mut more, curve, come, *next)?;
    }
    finish(&mut more, curve, come)?;
    Ok(more)
}

// A curve goes to the end, unless it is the one to be left out.
fn leave(left: &mut Sequence<CurveId>, other: CurveId, curve: CurveId) -> Result<(), NoMemory>
    ensures { OnOk result ((rest : List ℕ) → AreGained (left_from curve.0 (other.0 ∷ rest)) (numbers_in left.old) (left_from curve.0 rest) (numbers_in left.new)) }
{
    if other == curve {
        return Ok(());
    }
    left.push(other)?;
    Ok(())
}

// The curves without one.
fn without_curve(
    alloc: Global,
    curves: &[CurveId],
    curve: CurveId,
) -> Result<Sequence<CurveId>, NoMemory>
    ensures { IfOk result (λ s. numbers_in s ≡ filter (λ k. not (same_curve k curve.0)) (numbers_in curves.now)) }
{
    let mut left = Sequence::new(alloc);
    for other in curves {
        leave(&mut left, *other, curve)?;
    }
    Ok(left)
}

// The edge has these curves.
pub(crate) fn lay(
    curves: &mut BTreeMap<usize, Sequence<CurveId>>,
    d: DartId,
    list: Sequence<CurveId>,
) -> Result<(), NoMemory>
    ensures { OnOk result (rows numbers_in curves.new.entries ≡ put d.0 (numbers_in list) (rows numbers_in curves.old.entries)) }
{
    curves.insert(d.0, list)?;
    Ok(())
}

// The edge is gone.
pub(crate) fn lift(curves: &mut BTreeMap<usize, Sequence<CurveId>>, d: DartId)
    ensures { curves.new.entries ≡ del d.0 curves.old.entries }
{
    let _list = curves.remove(&d.0);
}

// One more curve runs along the edge.
pub(crate) fn add_curve(
    alloc: Global,
    curves: &mut BTreeMap<usize, Sequence<CurveId>>,
    d: DartId,
    curve: CurveId,
) -> Result<(), NoMemory>
    ensures { OnOk result (rows numbers_in curves.new.entries ≡ edit d.0 (place nat_cmp curve.0) (rows numbers_in curves.old.entries)) }
{
    match curves.get_mut(&d.0) {
        Some(list) => {
            let more = with_curve(alloc, list.as_slice(), curve)?;
            *list = more;
            Ok(())
        }
        None => Ok(()),
    }
}

// One curve fewer runs along the edge.
pub(crate) fn remove_curve(
    alloc: Global,
    curves: &mut BTreeMap<usize, Sequence<CurveId>>,
    d: DartId,
    curve: CurveId,
) -> Result<(), NoMemory>
    ensures { OnOk result (rows numbers_in curves.new.entries ≡ edit d.0 (filter (λ k. not (same_curve k curve.0))) (rows numbers_in curves.old.entries)) }
{
    match curves.get_mut(&d.0) {
        Some(list) => {
            let left = without_curve(alloc, list.as_slice(), curve)?;
            *list = left;
            Ok(())
        }
        None => Ok(()),
    }
}
