ghost use Rattle.std.specs.Prelude.{◌≡◌, ◌++◌, IfOk};
ghost use Rattle.std.specs.List.{Contains};
ghost use Rattle.slab_laws.specs.SpansDrawn.{drawn};
ghost use Rattle.slab_laws.specs.Skeleton.{IsPlaneSkeleton};
ghost use Rattle.slab_laws.specs.Slabs.{slab_left, slab_right};
ghost use Rattle.slab_laws.specs.Faces.{corner_links, foot_links, links};
ghost use Rattle.plain_slabs.specs.PlaceTables.{table, places_in};

use crate::places::{Places, move_to};
use crate::reaches::list_reaches;
use crate::walls::{begins_wall, is_open_corner};
use edge_predicates::{cell_after, cell_before, passes, slab_after, slab_before};
use exact_plane::{Point, Span};
use no_memory::NoMemory;
use slab_laws::{Link, SlabCell};
use std::alloc::Global;

// Adds the links of the intervals above the points of a wall, where no vertical edge covers them.
fn add_corners(
    list: &mut Vec<Link<SlabCell>>,
    points: &[Point],
    edges: &[Span],
    wall: &Point,
) -> Result<(), NoMemory>
    ensures { IfOk result (λ _. list.new.items ≡ list.old.items ++ corner_links (drawn points.now edges.now) wall.now) }
{
    for point in points {
        if is_open_corner(edges, point, wall) {
            list.push(Link {
                one: cell_before(points, edges, point),
                other: cell_after(points, edges, point),
            })?;
        }
    }
    Ok(())
}

// Adds the links of the intervals above the edges that pass through a wall.
fn add_feet(
    list: &mut Vec<Link<SlabCell>>,
    points: &[Point],
    edges: &[Span],
    wall: &Point,
    left: &Places,
    right: &Places,
) -> Result<(), NoMemory>
    requires plane { IsPlaneSkeleton (drawn points.now edges.now) }
    requires wall { Contains points.now wall.now }
    requires left_slab { left.now.slab ≡ slab_left (drawn points.now edges.now) wall.now }
    requires left { left.now.below.items ≡ places_in (table points.now edges.now) left.now.slab }
    requires right_slab { right.now.slab ≡ slab_right (drawn points.now edges.now) wall.now }
    requires right { right.now.below.items ≡ places_in (table points.now edges.now) right.now.slab }
    ensures { IfOk result (λ _. list.new.items ≡ list.old.items ++ foot_links (drawn points.now edges.now) wall.now) }
{
    for (k, edge) in edges.iter().enumerate() {
        if passes(edge, wall) {
            list.push(Link {
                one: SlabCell {
                    slab: left.slab,
                    place: left.below[k] + 1,
                },
                other: SlabCell {
                    slab: right.slab,
                    place: right.below[k] + 1,
                },
            })?;
        }
    }
    Ok(())
}

/// The links of the cells that meet across all walls (Fogel, Halperin and Wein: vertical decomposition).
///
/// They come wall by wall: first that of the interval below all stops, then those above the vertices, in their order, then
/// those above the edges that pass, in theirs. It takes about (V + E)^2 steps for V vertices, in their order, and E edges.
/// `NoMemory` where there is no memory for the links and the places.
pub(crate) fn link_cells(
    alloc: Global,
    points: &[Point],
    edges: &[Span],
) -> Result<Vec<Link<SlabCell>>, NoMemory>
    requires { IsPlaneSkeleton (drawn points.now edges.now) }
    ensures { IfOk result (λ ls. ls.items ≡ links (drawn points.now edges.now)) }
{
    let reaches = list_reaches(alloc, points, edges)?;
    // The slab on the right of all points has no edges, so all places in it are known.
    let mut places = Places {
        slab: points.len(),
        below: vec![in alloc; 0; reaches.len()]?,
    };
    let mut list = Vec::new(alloc);
    for wall in points {
        if begins_wall(points, wall) {
            let left = move_to(alloc, &reaches, &places, slab_before(points, wall))?;
            let right = move_to(alloc, &reaches, &left, slab_after(points, wall))?;
            list.push(Link {
                one: SlabCell {
                    slab: left.slab,
                    place: 0,
                },
                other: SlabCell {
                    slab: right.slab,
                    place: 0,
                },
            })?;
            add_corners(&mut list, points, edges, wall)?;
            add_feet(&mut list, points, edges, wall, &left, &right)?;
            places = right;
        }
    }
    Ok(list)
}
