ghost use Rattle.std.specs.Prelude.{◌≡◌, length, map, None, IfOk, IfErr};
ghost use Rattle.plane_graphs.specs.Fit.{IsFit};
ghost use Rattle.plane_graphs.specs.Graph.{edges};
ghost use Rattle.plane_graphs.specs.Piece.{Present as Pieces};
ghost use Rattle.set_laws.specs.EvenOdd.{border};
ghost use Rattle.subdivision_rows.specs.Listed.{skeleton_in};
ghost use Rattle.polygon_sets.specs.Boundaries.{IsBoundary};
ghost use Rattle.polygon_sets.specs.ClosedBorders.{IsClosedBorder};
ghost use Rattle.polygon_sets.specs.Regions.{dart_ends, pieces_on, IsRegionBy, IsErrorBy, AreCountsOf, IsRegionIn, IsErrorOf, TellsPiecesOf, IsRegionOfLayers, IsErrorOfLayers};
ghost use Rattle.polygon_sets.specs.Weighted.{odd_vertex};

use crate::border::{border_of, point_at};
use crate::crossed_darts::crossings_of;
use crate::odd::first_odd;
use crate::spread::sets_of;
use exact_plane::Point;
use no_memory::NoMemory;
use set_laws::Op;
use std::alloc::Global;
use std::marker::Model;
use subdivision_rows::{Both, Rows};

/// One of the two layers.
#[derive(Clone, Copy, Debug, PartialEq, Eq)]
pub enum Colour {
    /// The red one.
    Red,
    /// The blue one.
    Blue,
}

/// Why there is no region.
#[derive(Clone, Copy)]
pub enum RegionError {
    /// The layer isn't closed, and this is the least point that is an end of an odd number of its pieces.
    Open(Colour, Point),
    /// There was no memory.
    NoMemory,
}

/// What two even-odd sets make, by the darts on its border.
#[derive(Drop)]
pub struct Region {
    darts: Vec<(Point, Point)>,
}

impl Model for Region {
    ghost use Rattle.std.specs.Prelude.{List};
    ghost use Rattle.exact_plane.specs.Point.{Point};

    ghost Value = { List (Point × Point) };

    ghost view = { λ r. r.darts.items };

    ghost use Rattle.polygon_sets.specs.Boundaries.{IsBoundary};

    ghost invariant = { λ r. IsBoundary r.darts.items };
}

impl Region {
    /// The darts on the border, by source, then by target: what is made is on their left, and isn't on their right.
    pub fn darts(&self) -> &[(Point, Point)]
        ensures { result.now ≡ self.now }
    {
        &self.darts
    }

    /// What is true of the darts of every region: they are the border of a plane graph of its own, whose edges alone tell what is inside,
    /// and it is closed. No two ends of darts at one vertex lead in one direction, and each dart is followed by the one that is met first
    /// where it ends, clockwise from the way back.
    pub fn laws(&self)
        ensures boundary { IsBoundary self.now }
        ensures closed { IsClosedBorder self.now }
    {
        // Any use of a field tells what is kept.
        let _darts = &self.darts;
    }
}

// The least vertex on whose edges the pieces are odd in number, if there is one. It takes no memory.
fn open_end(rows: &Rows, counts: &[usize]) -> Option<Point>
    requires { length counts.now ≡ length (edges rows.now.graph) }
    ensures { result ≡ odd_vertex (skeleton_in rows.now) (pieces_on rows.now counts.now) }
{
    rows.laws();
    let lists = rows.lists();
    match first_odd(&lists.darts, counts) {
        Some(vertex) => Some(point_at(&lists.points, vertex)),
        None => None,
    }
}

// The ends of the darts on the border of what two closed sets make.
fn border_between(
    alloc: Global,
    rows: &Rows,
    red: &[usize],
    blue: &[usize],
    op: Op,
) -> Result<Vec<(Point, Point)>, NoMemory>
    requires red { length red.now ≡ length (edges rows.now.graph) }
    requires blue { length blue.now ≡ length (edges rows.now.graph) }
    requires red_closed { odd_vertex (skeleton_in rows.now) (pieces_on rows.now red.now) ≡ None }
    requires blue_closed { odd_vertex (skeleton_in rows.now) (pieces_on rows.now blue.now) ≡ None }
    ensures { IfOk result (λ v. v.items ≡ map dart_ends (border op (skeleton_in rows.now) (pieces_on rows.now red.now) (pieces_on rows.now blue.now))) }
{
    rows.laws();
    let lists = rows.lists();
    let crossings = crossings_of(alloc, rows, red, blue, &lists.darts)?;
    let sets = sets_of(alloc, lists.faces, &crossings)?;
    let found = border_of(alloc, op, &lists.points, &sets, &crossings)?;
    Ok(found)
}

/// The border of what two layers make as even-odd sets (CGAL manual, Boolean set operations): the darts on whose left the operation
/// holds and on whose right it doesn't. It reads the subdivision by both layers, and of each of its edges, by its place, how many red
/// and how many blue pieces hold it.
///
/// Six passes over the n darts, with no search and a fixed number of steps for each dart: one for each layer, to see that it is closed;
/// one that tells what each dart crosses; one that chains the darts of each face; one that crosses each dart once at most, from face to
/// face, of which there are n + 1 at most; and one that finds the border.
///
/// # Errors
///
/// A layer isn't closed; red is asked first. Where both are closed there was no memory.
pub fn region_by(
    alloc: Global,
    rows: &Rows,
    red: &[usize],
    blue: &[usize],
    op: Op,
) -> Result<Region, RegionError>
    requires red { length red.now ≡ length (edges rows.now.graph) }
    requires blue { length blue.now ≡ length (edges rows.now.graph) }
    ensures region { IfOk result (λ r. IsRegionBy op rows.now red.now blue.now r) }
    ensures error { IfErr result (λ e. IsErrorBy rows.now red.now blue.now e) }

    // The same, of the layers.
    ensures region_of_layers { (r b : Pieces) → IsFit r → IsFit b → AreCountsOf r b rows.now red.now blue.now → IfOk result (λ x. IsRegionOfLayers op r b x) }
    ensures error_of_layers { (r b : Pieces) → IsFit r → IsFit b → AreCountsOf r b rows.now red.now blue.now → IfErr result (λ e. IsErrorOfLayers r b e) }
{
    rows.laws();
    if let Some(end) = open_end(rows, red) {
        return Err(RegionError::Open(Colour::Red, end));
    }
    if let Some(end) = open_end(rows, blue) {
        return Err(RegionError::Open(Colour::Blue, end));
    }
    match border_between(alloc, rows, red, blue, op) {
        Ok(darts) => Ok(Region { darts }),
        Err(NoMemory) => Err(RegionError::NoMemory),
    }
}

/// The border of what both layers of an overlay make as even-odd sets: the darts on whose left the operation holds and on whose right it
/// doesn't (CGAL manual, Boolean set operations). It takes as many steps as the overlay has darts.
///
/// # Errors
///
/// A layer isn't closed, whatever memory there is; red is asked first, and its least odd end is told. Where both are closed there was
/// no memory.
pub fn region_of(overlay: &Both, op: Op) -> Result<Region, RegionError>
    ensures region { IfOk result (λ r. IsRegionIn op overlay.now r) }
    ensures error { IfErr result (λ e. IsErrorOf overlay.now e) }

    // The same, of the layers.
    ensures region_of_layers { (red blue : Pieces) → IsFit red → IsFit blue → TellsPiecesOf red blue overlay.now → IfOk result (λ r. IsRegionOfLayers op red blue r) }
    ensures error_of_layers { (red blue : Pieces) → IsFit red → IsFit blue → TellsPiecesOf red blue overlay.now → IfErr result (λ e. IsErrorOfLayers red blue e) }
{
    let red = overlay.red_counts();
    let blue = overlay.blue_counts();
    region_by(overlay.allocator(), overlay.rows(), red, blue, op)
}
