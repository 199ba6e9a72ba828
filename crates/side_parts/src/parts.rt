ghost use Rattle.std.specs.Prelude.{◌≡◌, ◌++◌, ℕ, map, None, IfOk, OnOk};
ghost use Rattle.std.specs.List.{AllByRecursion, filter, flat_map};
ghost use Rattle.exact_plane.specs.PointOrder.{point_cmp};
ghost use Rattle.plane_graphs.specs.Ascending.{ascending, IsAscending};
ghost use Rattle.plane_graphs.specs.Graph.{chain, mark_cmp};
ghost use Rattle.plane_graphs.specs.Piece.{on};
ghost use Rattle.plane_graphs.specs.Strands.{strand_pieces};
ghost use Rattle.edit_steps.specs.Edits.{path_pieces};
ghost use Rattle.side_parts.specs.SideParts.{edge_marks, holds as holds_point, part_cmp, parts_from, parts_of_sides, strand_mark, IsPartIn, IsPartOf};

use crate::part::Part;
use crate::side::Side;
use exact_plane::{Point, Segment};
use no_memory::NoMemory;
use std::alloc::Global;

// The parts of one side, behind others.
fn add_parts(
    parts: &mut Vec<Part>,
    points: &[Point],
    side: &Side,
    place: usize,
) -> Result<(), NoMemory>
    ensures { OnOk result (parts.new.items ≡ parts.old.items ++ parts_from (holds_point side.now) place None 0 points.now) }
{
    let mut last = None;
    'each: for (at, point) in points.iter().enumerate() {
        if side.holds(point) {
            if let Some(low) = last {
                parts.push(Part {
                    low,
                    high: at,
                    side: place,
                })?;
            }
            last = Some(at);
        }
    }
    Ok(())
}

// The parts of all sides, one side after the other.
fn all_parts(alloc: Global, points: &[Point], sides: &[Side]) -> Result<Vec<Part>, NoMemory>
    ensures { IfOk result (λ ts. ts.items ≡ parts_of_sides points.now 0 sides.now) }
{
    // As many parts as points, and some more where sides cross.
    let mut parts = Vec::with_capacity(alloc, points.len() + sides.len())?;
    'each: for (place, side) in sides.iter().enumerate() {
        add_parts(&mut parts, points, side, place)?;
    }
    Ok(parts)
}

/// The sides between the ends of segments.
///
/// # Errors
///
/// There was no memory for the list.
pub fn sides_of(alloc: Global, segments: &[Segment]) -> Result<Vec<Side>, NoMemory>
    ensures { IfOk result (λ ss. ss.items ≡ segments.now) }
{
    let mut sides = Vec::with_capacity(alloc, segments.len())?;
    'each: for segment in segments {
        sides.push(Side::of(segment))?;
    }
    Ok(sides)
}

/// The parts of sides between neighbours among the points on them: of all sides in edge order, those between the same two points
/// by their sides.
///
/// Where the points ascend, `strands` says of the parts of a curve of these sides which marks they are, each side told apart, and
/// `edges` which marks of the curve they are, where parts between the same two points are one edge (this project).
///
/// # Errors
///
/// There was no memory for the list.
pub fn parts_in_order(
    alloc: Global,
    points: &[Point],
    sides: &[Side],
) -> Result<Vec<Part>, NoMemory>
    ensures within { IfOk result (λ ts. AllByRecursion (IsPartIn points.now) ts.items) }
    ensures sides { IfOk result (λ ts. AllByRecursion (IsPartOf points.now sides.now) ts.items) }
    ensures order { IfOk result (λ ts. IsAscending part_cmp ts.items) }
    ensures strands { IfOk result (λ ts. IsAscending point_cmp points.now → (c : ℕ) → map (strand_mark points.now c) ts.items ≡ ascending mark_cmp (flat_map (λ k. chain k.curve (filter (on k) points.now)) (strand_pieces (path_pieces c sides.now)))) }
    ensures edges { IfOk result (λ ts. IsAscending point_cmp points.now → (c : ℕ) → edge_marks points.now c ts.items ≡ ascending mark_cmp (flat_map (λ k. chain k.curve (filter (on k) points.now)) (path_pieces c sides.now))) }
{
    let mut parts = all_parts(alloc, points, sides)?;
    parts.sort_unstable();
    // None stands twice.
    parts.dedup();
    Ok(parts)
}
