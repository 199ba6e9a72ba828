ghost use Rattle.std.specs.Prelude.{IfSome};
ghost use Rattle.subdivision_rows.specs.OverlayInMemory.{graph_of, faces_in};
ghost use Rattle.arrangement.specs.Arranged.{arranged, IsWatched};
ghost use Rattle.arrangement.specs.SpotCells.{HasSpot};

use crate::layers::calls::{Call, all_right};
use crate::layers::edits::{Answer, Edit, Under, layer_under};
use crate::layers::overlay_texts::overlays_are_alike;
use crate::layers::script_edits::apply;
use arrangement::{Arrangement, Overlay, overlay};
use dcel_records::Spot;
use exact_plane::Point;
use no_memory::NoMemory;
use script_lines::{Command, read_line};
use script_maker::{LINE_ROOM, Maker};
use slab_laws::{CurveId, DartId, Darts, Faced, Layered, VertexId};
use std::alloc::Global;
use std::test::Fail;

// A red rectangle, and a blue square whose left side is part of the red one's right side, with a blue pin within the red one.
const RED: [Call; 4] = [
    Call::Makes(Edit::Insert(0, -1, 4, -1), Answer::Drawn(1)),
    Call::Makes(Edit::Insert(4, -1, 4, 4), Answer::Drawn(2)),
    Call::Makes(Edit::Insert(4, 4, 0, 4), Answer::Drawn(3)),
    Call::Makes(Edit::Insert(0, 4, 0, -1), Answer::Drawn(4)),
];

const BLUE: [Call; 5] = [
    Call::Makes(Edit::Pin(2), Answer::Done),
    Call::Makes(Edit::Insert(4, 1, 7, 1), Answer::Drawn(1)),
    Call::Makes(Edit::Insert(7, 1, 7, 3), Answer::Drawn(2)),
    Call::Makes(Edit::Insert(7, 3, 4, 3), Answer::Drawn(3)),
    Call::Makes(Edit::Insert(4, 3, 4, 1), Answer::Drawn(4)),
];

// The overlay's 18 darts go by their sources, then by their targets. Behind these two come the darts of the edge that the squares
// share: the eighth, from (4, 1) to (4, 3), and the tenth, its twin.
const BEFORE_UPWARD: DartId = DartId(6);

const BEFORE_DOWNWARD: DartId = DartId(8);

// Its vertices go by their points, and the pin is the third.
const BEFORE_PIN: VertexId = VertexId(1);

// Whether this red curve and this blue one, and no others, run along the edge of the dart behind another.
fn has_curves(
    alloc: Global,
    both: &Overlay,
    before: DartId,
    red: CurveId,
    blue: CurveId,
) -> Result<bool, NoMemory> {
    match both.dart_after(Some(before)) {
        None => Ok(false),
        Some(dart) => {
            let is_red = both.red_curves(alloc, dart)?.as_slice() == [red].as_slice();
            let is_blue = both.blue_curves(alloc, dart)?.as_slice() == [blue].as_slice();
            Ok(is_red && is_blue)
        }
    }
}

// The ranks of the red and of the blue face that hold the face left of the dart behind another.
fn faces(both: &Overlay, before: DartId) -> Option<(usize, usize)> {
    match both.dart_after(Some(before)) {
        None => None,
        Some(dart) => {
            let face = both.face(both.cycle(dart));
            Some((both.red_of(face), both.blue_of(face)))
        }
    }
}

// Whether the vertex behind another is a pin.
fn is_pin(both: &Overlay, before: VertexId) -> bool {
    match both.vertex_after(Some(before)) {
        None => false,
        Some(vertex) => both.pinned(vertex),
    }
}

// Whether the overlay tells of the shared edge what it has to: the second red curve and the fourth blue one; on its left, going
// up, the red face outside the blue one, on its right the blue face outside the red one.
fn tells_shared_edge(alloc: Global, both: &Overlay) -> Result<bool, NoMemory> {
    let upward = has_curves(alloc, both, BEFORE_UPWARD, CurveId(2), CurveId(4))?;
    let downward = has_curves(alloc, both, BEFORE_DOWNWARD, CurveId(2), CurveId(4))?;
    let left = faces(both, BEFORE_UPWARD) == Some((1, 0));
    let right = faces(both, BEFORE_DOWNWARD) == Some((0, 1));
    Ok(upward && downward && left && right)
}

// Where the point of two whole coordinates lies.
fn spot_at(both: &Overlay, x: i128, y: i128) -> Option<Spot>
    ensures { IfSome result (HasSpot (graph_of both.now) (faces_in both.now)) }
{
    match Point::new(x, y, 1) {
        Ok(point) => Some(both.locate(&point)),
        Err(_) => None,
    }
}

// The ranks of the red and of the blue face that hold the face that such a point lies in.
fn faces_at(both: &Overlay, x: i128, y: i128) -> Option<(usize, usize)> {
    match spot_at(both, x, y) {
        Some(Spot::Face(face)) => Some((both.red_of(face), both.blue_of(face))),
        _ => None,
    }
}

// Whether points lie where they have to: at the pin, inside the shared edge, in the red square alone, in the blue one alone, in neither.
fn tells_places(both: &Overlay) -> bool {
    let at_pin = spot_at(both, 2, 0) == Some(Spot::Vertex(VertexId(2)));
    let on_edge = spot_at(both, 4, 2) == Some(Spot::Edge(DartId(7)));
    let in_red = faces_at(both, 1, 1) == Some((1, 0));
    let in_blue = faces_at(both, 5, 2) == Some((0, 1));
    let outside = faces_at(both, 9, 9) == Some((0, 0));
    at_pin && on_edge && in_red && in_blue && outside
}

// Whether each segment is drawn.
fn draw(alloc: Global, layer: &mut Arrangement, calls: &[Call]) -> Result<bool, Fail>
    requires watched { IsWatched (arranged Observer-dyn layer.old) }
    ensures watched { IsWatched (arranged Observer-dyn layer.new) }
{
    let mut nobody = Vec::new(alloc);
    let drawn = all_right(layer, calls, &mut nobody);
    drop(nobody);
    drawn
}

// Whether the overlay of the layers tells what it has to.
fn is_told(alloc: Global, red: &Arrangement, blue: &Arrangement) -> Result<bool, NoMemory> {
    let both = overlay(alloc, red, blue)?;
    let told = tells_shared_edge(alloc, &both);
    let pinned = is_pin(&both, BEFORE_PIN);
    let placed = tells_places(&both);
    drop(both);
    Ok(told? && pinned && placed)
}

// The same over a blue layer of its own.
fn is_told_over(alloc: Global, red: &Arrangement) -> Result<bool, Fail> {
    let mut blue = layer_under(alloc, Under::Script)?;
    let drawn = draw(alloc, &mut blue, &BLUE);
    let told = is_told(alloc, red, &blue);
    drop(blue);
    Ok(drawn? && told?)
}

// The same, where the squares are drawn.
fn is_told_of_squares(alloc: Global, red: &mut Arrangement) -> Result<bool, Fail>
    requires watched { IsWatched (arranged Observer-dyn red.old) }
{
    let drawn = draw(alloc, red, &RED)?;
    Ok(is_told_over(alloc, red)? && drawn)
}

#[test]
fn an_overlay_tells_of_each_layer(rt: HostRuntime) -> Result<(), Fail> {
    let mut red = layer_under(rt.alloc(), Under::Script)?;
    let told = is_told_of_squares(rt.alloc(), &mut red);
    drop(red);
    assert!(rt; told?);
    Ok(())
}

// The next line of a made script.
fn next_command(maker: &mut Maker) -> Command {
    let mut buffer = [0; LINE_ROOM];
    match maker.next_line(&mut buffer) {
        Some(length) => read_line(&buffer[..length]).unwrap_or(Command::Nothing),
        None => Command::Nothing,
    }
}

// Makes the edits of a script of forty segments, after every eighth of which a curve is dropped.
fn make_forty(layer: &mut Arrangement, seed: u32)
    requires watched { IsWatched (arranged Observer-dyn layer.old) }
    ensures watched { IsWatched (arranged Observer-dyn layer.new) }
{
    let mut maker = Maker::new(40, seed);
    'lines: for _ in 0..45 {
        let command = next_command(&mut maker);
        apply(layer, &command);
    }
}

// Whether the overlay of a layer and of another made one is that by slabs.
fn is_as_by_slabs(alloc: Global, red: &Arrangement) -> Result<bool, NoMemory> {
    let mut blue = layer_under(alloc, Under::Script)?;
    make_forty(&mut blue, 2);
    let alike = overlays_are_alike(alloc, red, &blue);
    drop(blue);
    alike
}

#[test]
fn an_overlay_of_made_layers_is_that_by_slabs(rt: HostRuntime) -> Result<(), Fail> {
    let mut red = layer_under(rt.alloc(), Under::Script)?;
    make_forty(&mut red, 1);
    let alike = is_as_by_slabs(rt.alloc(), &red);
    drop(red);
    assert!(rt; alike?);
    Ok(())
}
