ghost use Rattle.arrangement.specs.Arranged.{arranged, IsWatched};
ghost use Rattle.dcel_records.specs.SoundMaps.{IsSoundMap};

use crate::layers::asked::counted;
use crate::layers::edits::{Under, at, layer_under};
use crate::shapes::{Ends, segment};
use arrangement::Arrangement;
use dcel_records::{Records, Spot};
use exact_plane::Point;
use locate_naive::locate;
use locate_trapezoid::Trapezoids;
use slab_laws::{Cell, DartId, Darts, FaceId, Faced, Strategy};
use std::alloc::Global;
use std::test::Fail;

// A small square, and a rectangle far from it.
const OUTLINES: [Ends; 8] = [
    (-2, -2, 2, -2),
    (2, -2, 2, 2),
    (2, 2, -2, 2),
    (-2, 2, -2, -2),
    (100, 0, 900, 0),
    (900, 0, 900, 400),
    (900, 400, 100, 400),
    (100, 400, 100, 0),
];

/// Inserts a segment.
pub fn draw(layer: &mut Arrangement, ends: Ends) -> Result<(), Fail>
    requires watched { IsWatched (arranged Observer-dyn layer.old) }
    ensures watched { IsWatched (arranged Observer-dyn layer.new) }
{
    layer.insert(segment(ends)?)?;
    Ok(())
}

fn draw_outlines(layer: &mut Arrangement) -> Result<(), Fail>
    requires watched { IsWatched (arranged Observer-dyn layer.old) }
    ensures watched { IsWatched (arranged Observer-dyn layer.new) }
{
    'outlines: for ends in &OUTLINES {
        draw(layer, *ends)?;
    }
    Ok(())
}

// Three hundred short vertical segments in the rectangle.
fn draw_fence(layer: &mut Arrangement) -> Result<(), Fail>
    requires watched { IsWatched (arranged Observer-dyn layer.old) }
    ensures watched { IsWatched (arranged Observer-dyn layer.new) }
{
    'posts: for x in 110..410 {
        draw(layer, (x, 10, x, 11))?;
    }
    Ok(())
}

// Whether a dart of the name is there, with one of two faces on its left.
fn is_beside(records: &Records, dart: DartId, one: FaceId, other: FaceId) -> bool {
    match records.ends_of(dart) {
        None => false,
        Some(_) => {
            let face = records.face(records.cycle(dart));
            face == one || face == other
        }
    }
}

/// How many darts have one of two faces on their left, among the first thousand names.
pub fn darts_beside(records: &Records, one: FaceId, other: FaceId) -> usize {
    let mut count: usize = 0;
    'names: for name in 0..1000 {
        if is_beside(records, DartId(name), one, other) {
            count = count.saturating_add(1);
        }
    }
    count
}

// The size of the boundaries that the vertical below a point passes: none is between the unbounded face and the point's.
fn size_below(records: &Records, point: &Point) -> Option<usize>
    requires { IsSoundMap records.now }
{
    match locate(records, point) {
        Spot::Face(face) => Some(darts_beside(records, FaceId(0), face)),
        _ => None,
    }
}

/// Draws the two outlines and the fence, and tells whether the layer has what they make: three faces, and no isolated vertex.
pub fn draw_state(layer: &mut Arrangement) -> Result<bool, Fail>
    requires watched { IsWatched (arranged Observer-dyn layer.old) }
    ensures watched { IsWatched (arranged Observer-dyn layer.new) }
{
    draw_outlines(layer)?;
    draw_fence(layer)?;
    Ok(counted(layer)? == [608, 308, 3, 302, 0, 308])
}

// A walk into the square looks at the twelve parts of the two boundaries below the point, where sixty are allowed; the fence is in a
// face that it doesn't pass. There are no isolated vertices.
fn is_walk_short(layer: &mut Arrangement) -> Result<bool, Fail>
    requires watched { IsWatched (arranged Observer-dyn layer.old) }
{
    let is_state = draw_state(layer)?;
    let point = at(1, 1)?;
    let size = size_below(layer.records(), &point);
    let cell = layer.locate(Strategy::Walk, &point)?;
    Ok(is_state && size == Some(12) && cell == Cell::Face(1))
}

#[test]
fn a_walk_passes_by_what_is_far_away(rt: HostRuntime) -> Result<(), Fail> {
    let mut layer = layer_under(rt.alloc(), Under::Script)?;
    let short = is_walk_short(&mut layer);
    drop(layer);
    assert!(rt; short?);
    Ok(())
}

// A question goes to no more nodes than are on the longest way through the search graph.
fn is_graph_shallow(alloc: Global, layer: &mut Arrangement) -> Result<bool, Fail>
    requires watched { IsWatched (arranged Observer-dyn layer.old) }
{
    let is_state = draw_state(layer)?;
    let mut map = Trapezoids::new();
    map.build(alloc, layer.records())?;
    Ok(is_state && map.depth().is_some_and(|depth| 0 < depth && depth <= 60))
}

#[test]
fn a_search_graph_is_shallow(rt: HostRuntime) -> Result<(), Fail> {
    let mut layer = layer_under(rt.alloc(), Under::Script)?;
    let shallow = is_graph_shallow(rt.alloc(), &mut layer);
    drop(layer);
    assert!(rt; shallow?);
    Ok(())
}
