ghost use Rattle.std.specs.Prelude.{◌≡◌, ◌<◌, ◌≤◌, false, length, take, IfSome};
ghost use Rattle.exact_plane.specs.declared.bounds.TheConstants.{MAX_SIDES};
ghost use Rattle.slab_laws.specs.declared.cell.Cell.TheVariants.{Edge as OnEdge};
ghost use Rattle.slab_laws.specs.Sound.{IsGraphSound};
ghost use Rattle.slab_laws.specs.View.{HasDart, point_in, source_in, target_in};
ghost use Rattle.dcel_records.specs.RecordsView.{tables_of};
ghost use Rattle.dcel_records.specs.SoundMaps.{IsSoundMap};
ghost use Rattle.face_location.specs.Spots.{IsSpotOf};
ghost use Rattle.told_steps.specs.RecordLayers.{IsLayer};
ghost use Rattle.path_zone.specs.PathZone.{is_begun as is_begun_by, AreStarts, AreStartsAmong};
ghost use Rattle.arrangement.specs.PathStarts.{IsStartAmong};

use counted_looks::Glance;
use curve_history::History;
use dcel_records::{Records, Spot};
use exact_plane::{MAX_SIDES, Point, Segment};
use locate_walk::locate as walk_up;
use path_zone::is_begun;
use piece_location::locate as look_down;
use slab_laws::{Cell, DartId, Darts, FaceId};
use std::marker::Brand;
use std::sync::ledger::{Blank, Ledger};
use work_steps::Steps;

// The walk, with a counter of its own.
fn walk_counted<L: Ledger>(blank: Blank, records: &Records, p: &Point) -> Spot
    requires name { blank.name ≡ L.name }
    requires parts { blank.parts ≡ L.parts }
    requires some { 0 < L.parts }
    requires map { IsSoundMap records.now }
    ensures { IsSpotOf records.now.graph (tables_of records.now) p.now result }
{
    let mut steps = Steps::<L>::new(blank);
    walk_up(&Glance::of(records), p, &mut steps)
}

/// Where a point lies in the records: the vertex at it, by the point's hash, and else by a walk up to it from face to face, along which
/// no isolated vertex is looked at. It takes no memory.
pub(crate) fn walk_to(records: &Records, p: &Point) -> Spot
    requires { IsSoundMap records.now }
    ensures { IsSpotOf records.now.graph (tables_of records.now) p.now result }
{
    walk_counted::<Brand>(Blank::new(1), records, p)
}

/// Where a point lies in the records, as [`walk_to`] answers it: by the index over the pieces, or, where that is off, by a walk. It takes no
/// memory.
pub(crate) fn spot_at(records: &Records, history: &History, p: &Point) -> Spot
    requires map { IsSoundMap records.now }
    requires layer { IsLayer records.now.graph history.now }
    ensures { IsSpotOf records.now.graph (tables_of records.now) p.now result }
{
    if history.is_indexed() {
        look_down(records, history, p)
    } else {
        walk_to(records, p)
    }
}

// The start of one of the sides that begins at the point.
fn start_among(sides: &[Segment], starts: &[Spot], p: &Point) -> Option<Spot>
    requires { length sides.now ≤ length starts.now }
    ensures { IfSome result (IsStartAmong sides.now starts.now p.now) }
{
    'sides: for (place, side) in sides.iter().enumerate() {
        if side.lower() == *p {
            return Some(starts[place]);
        }
    }
    None
}

// Where a side begins, by the start of an earlier one that begins there, or else by a look at the point; any spot, where its zone begins on
// another one's.
fn start_of(
    records: &Records,
    history: &History,
    sides: &[Segment],
    before: &[Segment],
    starts: &[Spot],
    side: &Segment,
) -> Spot
    requires map { IsSoundMap records.now }
    requires layer { IsLayer records.now.graph history.now }
    requires few { length before.now ≤ length starts.now }
    requires known { AreStartsAmong records.now.graph (tables_of records.now) sides.now before.now (take (length before.now) starts.now) }
    ensures { is_begun_by sides.now side.now ≡ false → IsSpotOf records.now.graph (tables_of records.now) side.now.lower result }
{
    if is_begun(sides, side) {
        return Spot::Face(FaceId(0));
    }
    let lower = side.lower();
    match start_among(before, starts, &lower) {
        Some(spot) => spot,
        None => spot_at(records, history, &lower),
    }
}

/// Where the lower ends of a path's sides lie in the records, each at the place of its side; where a side begins on another one behind
/// that one's lower end, any spot. No point is looked for twice. It takes no memory.
pub(crate) fn starts_of(
    records: &Records,
    history: &History,
    sides: &[Segment],
) -> [Spot; MAX_SIDES]
    requires map { IsSoundMap records.now }
    requires layer { IsLayer records.now.graph history.now }
    requires few { length sides.now ≤ MAX_SIDES }
    ensures { AreStarts records.now.graph (tables_of records.now) sides.now (take (length sides.now) result) }
{
    let mut starts = [Spot::Face(FaceId(0)); MAX_SIDES];
    'sides: for (place, side) in sides.iter().enumerate() {
        let (before, _) = sides.split_at(place);
        starts[place] = start_of(records, history, sides, before, &starts, side);
    }
    starts
}

/// The edge of a dart that goes forward, by its lower and its upper end.
pub(crate) fn edge_cell(records: &Records, dart: DartId) -> Cell
    requires sound { IsGraphSound records.now.graph }
    requires dart { HasDart records.now.graph dart }
    ensures { let v = records.now.graph in result ≡ OnEdge (point_in v (source_in v dart)) (point_in v (target_in v dart)) }
{
    let lower = records.point(records.source(dart));
    let upper = records.point(records.target(dart));
    Cell::Edge(lower, upper)
}
