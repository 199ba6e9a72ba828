ghost use Rattle.std.specs.Prelude.{◌≡◌, ◌<◌, ◌&&◌, not, length, map, slice_index_or, IfOk};
ghost use Rattle.std.specs.List.{filter};
ghost use Rattle.set_laws.specs.EvenOdd.{by_op};
ghost use Rattle.polygon_sets.specs.Borders.{point_at, ends_at, is_turn};
ghost use Rattle.polygon_sets.specs.Crossings.{AreWithin, AreBetween};
ghost use Rattle.polygon_sets.specs.Spread.{set_at, held};

use crate::crossings::{Crossing, Inside};
use crate::spread::held_at;
use exact_plane::Point;
use no_memory::NoMemory;
use set_laws::Op;
use std::alloc::Global;

// Whether the operation holds where these sets do.
fn holds(op: Op, inside: Inside) -> bool
    ensures { result ≡ by_op op inside.red inside.blue }
{
    match op {
        Op::Union => inside.red || inside.blue,
        Op::Intersection => inside.red && inside.blue,
        Op::Difference => inside.red && !inside.blue,
        Op::Symmetric => (inside.red && !inside.blue) || (inside.blue && !inside.red),
    }
}

// Whether the operation holds on the left of a dart and not on its right.
fn is_turn(op: Op, sets: &[Option<Inside>], crossing: &Crossing) -> bool
    requires left { crossing.now.left < length sets.now }
    requires right { crossing.now.right < length sets.now }
    ensures { result ≡ is_turn op sets.now crossing.now }
{
    let left = holds(op, held_at(sets, crossing.left));
    let right = holds(op, held_at(sets, crossing.right));
    left && !right
}

// The point of a vertex.
pub(crate) fn point_at(points: &[Point], vertex: usize) -> Point
    requires { vertex < length points.now }
    ensures { result ≡ point_at points.now vertex }
{
    points[vertex]
}

fn ends_of(points: &[Point], crossing: &Crossing) -> (Point, Point)
    requires source { crossing.now.source < length points.now }
    requires target { crossing.now.target < length points.now }
    ensures { result ≡ ends_at points.now crossing.now }
{
    (
        point_at(points, crossing.source),
        point_at(points, crossing.target),
    )
}

/// The ends of the darts on whose left the operation holds and on whose right it doesn't, in their order.
///
/// # Errors
///
/// There was no memory.
pub(crate) fn border_of(
    alloc: Global,
    op: Op,
    points: &[Point],
    sets: &[Option<Inside>],
    crossings: &[Crossing],
) -> Result<Vec<(Point, Point)>, NoMemory>
    requires faces { AreWithin (length sets.now) crossings.now }
    requires ends { AreBetween (length points.now) crossings.now }
    ensures { IfOk result (λ v. v.items ≡ map (ends_at points.now) (filter (is_turn op sets.now) crossings.now)) }
{
    let mut found = Vec::new(alloc);
    for crossing in crossings {
        if is_turn(op, sets, crossing) {
            found.push(ends_of(points, crossing))?;
        }
    }
    Ok(found)
}
