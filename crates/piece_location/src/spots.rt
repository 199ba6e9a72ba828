ghost use Rattle.std.specs.Prelude.{◌≡◌, true, None, Some, MatchOption};
ghost use Rattle.dcel_records.specs.RecordsView.{tables_of};
ghost use Rattle.dcel_records.specs.SoundMaps.{IsSoundMap};
ghost use Rattle.dcel_records.specs.Spots.{IsVertexAt};
ghost use Rattle.face_location.specs.Spots.{IsSpotOf};
ghost use Rattle.face_steps.specs.VertexSteps.{IsFaceRound};
ghost use Rattle.piece_location.specs.Heights.{IsSpanned};
ghost use Rattle.piece_location.specs.Layers.{IsBestOf, IsEdgeOfName, IsLookedDown, IsPastOf};
ghost use Rattle.piece_location.specs.Looks.{IsPieceNamed};

use crate::highest::{Highest, PieceBelow};
use curve_history::History;
use dcel_records::{Records, Spot};
use exact_plane::Point;
use face_location::face_over;
use slab_laws::{DartId, FaceId};

// What a look down from the point finds among the pieces.
fn look_down<'a>(records: &Records, history: &'a History, point: &Point) -> Highest<'a>
    requires past { IsPastOf records.now.graph history.now }
    requires indexed { history.now.indexed ≡ true }
    ensures { IsLookedDown history.now point.now result }
{
    point.laws();
    history.row_laws();
    let mut highest = Highest {
        history,
        point: *point,
        through: None,
        best: None,
        floor: i32::MIN,
    };
    history.visit_below(point.whole_parts(), &mut highest);
    highest
}

// The edge of the piece of a name, which has the point between its ends.
fn edge_of(records: &Records, history: &History, name: usize, point: &Point) -> DartId
    requires past { IsPastOf records.now.graph history.now }
    requires free { IsVertexAt records.now.graph point.now None }
    requires name { IsPieceNamed history.now (IsSpanned point.now) name }
    ensures { IsEdgeOfName records.now.graph history.now point.now name result }
{
    point.laws();
    history.row_laws();
    let piece = history.piece(name);
    match history.edge_at(records, piece, point) {
        Some(dart) => dart,
        None => unreachable!(),
    }
}

// The face over the highest piece below the point, or the unbounded one.
fn face_below(
    records: &Records,
    history: &History,
    best: &Option<PieceBelow>,
    point: &Point,
) -> FaceId
    requires map { IsSoundMap records.now }
    requires past { IsPastOf records.now.graph history.now }
    requires free { IsVertexAt records.now.graph point.now None }
    requires best { IsBestOf history.now point.now best.now }
    ensures { IsFaceRound records.now.graph (tables_of records.now) result point.now }
{
    point.laws();
    history.row_laws();
    match best {
        Some(below) => face_over(records, Some(edge_of(records, history, below.name, point))),
        None => face_over(records, None),
    }
}

// Where a point lies at which no vertex is.
fn locate_free(records: &Records, history: &History, point: &Point) -> Spot
    requires map { IsSoundMap records.now }
    requires past { IsPastOf records.now.graph history.now }
    requires indexed { history.now.indexed ≡ true }
    requires free { IsVertexAt records.now.graph point.now None }
    ensures { IsSpotOf records.now.graph (tables_of records.now) point.now result }
{
    point.laws();
    history.row_laws();
    let found = look_down(records, history, point);
    match found.through {
        Some(name) => Spot::Edge(edge_of(records, history, name, point)),
        None => Spot::Face(face_below(records, history, &found.best, point)),
    }
}

/// Where a point lies: the vertex at it, by its hash, else the edge that has it inside, else the face over the highest piece below it, found by the index
/// over the pieces (de Berg and others: windowing; CGAL manual, `Arr_walk_along_line_point_location`, of which it keeps the answer).
///
/// It looks at the pieces whose boxes the ray down from the point meets, but for those wholly below the box of one below the point that it has
/// looked at, and goes once along the edges of one curve. It takes no memory.
pub fn locate(records: &Records, history: &History, point: &Point) -> Spot
    requires map { IsSoundMap records.now }
    requires past { IsPastOf records.now.graph history.now }
    requires indexed { history.now.indexed ≡ true }
    ensures { IsSpotOf records.now.graph (tables_of records.now) point.now result }
{
    match records.vertex_at(point) {
        Some(vertex) => Spot::Vertex(vertex),
        None => locate_free(records, history, point),
    }
}
