ghost use Rattle.std.specs.Prelude.{◌≡◌, ◌<◌, ◌==◌, length, map, slice_index_or, IfOk, IfErr, IfSome, false, None};
ghost use Rattle.region_rings.specs.Closed.{IsErrorOf};
ghost use Rattle.region_rings.specs.Holes.{corner_in, ring_of};
ghost use Rattle.region_rings.specs.Rings.{source_at, AreWithin, AreRingsOf, AreAllNested, AreOfOneFace};

use crate::cycles::cycles_of;
use crate::errors::RingsError;
use crate::holes::{holes_of, ring_in};
use crate::nesting::{leasts_of, outers_of};
use crate::nexts::nexts_of;
use crate::spokes::sorted_spokes;
use crate::tables::number_at;
use exact_plane::Point;
use no_memory::NoMemory;
use polygon_sets::Region;
use std::alloc::Global;
use std::marker::Model;

/// The boundary of a region as closed rings (CGAL manual, polygons with holes): what is made is on the left of each ring, so that outer
/// rings go round counterclockwise, and holes clockwise.
#[derive(Drop)]
pub struct Rings {
    points: Vec<Point>,
    ends: Vec<usize>,
    holes: Vec<bool>,
    leasts: Vec<Point>,
    outers: Vec<Option<usize>>,
}

impl Model for Rings {
    ghost use Rattle.region_rings.specs.Rings.{RingTable, IsRingTable};

    ghost Value = { RingTable };

    ghost view = { λ r. record { points = r.points.items; ends = r.ends.items; holes = r.holes.items; leasts = r.leasts.items; outers = r.outers.items } };

    ghost invariant = { λ r. IsRingTable (record { points = r.points.items; ends = r.ends.items; holes = r.holes.items; leasts = r.leasts.items; outers = r.outers.items }) };
}

impl Rings {
    /// How many rings there are.
    pub fn len(&self) -> usize
        ensures { result ≡ length self.now.ends }
    {
        self.ends.len()
    }

    /// Whether there is none, the region being empty.
    pub fn is_empty(&self) -> bool
        ensures { result ≡ length self.now.ends == 0 }
    {
        self.ends.is_empty()
    }

    /// The corners of a ring in their order; after the last one comes the first.
    pub fn ring(&self, ring: usize) -> &[Point]
        requires { ring < length self.now.ends }
        ensures { result.now ≡ ring_of self.now.points self.now.ends ring }
    {
        ring_in(&self.points, &self.ends, ring)
    }

    /// The least corner of a ring, by x, then by y.
    pub fn least_corner(&self, ring: usize) -> Point
        requires { ring < length self.now.ends }
        ensures { result ≡ corner_in self.now.leasts ring }
    {
        self.leasts[ring]
    }

    /// Whether a ring bounds a hole.
    pub fn is_hole(&self, ring: usize) -> bool
        requires { ring < length self.now.ends }
        ensures { result ≡ slice_index_or self.now.holes ring false }
    {
        self.holes[ring]
    }

    /// The outer ring of a hole: of the outer rings that go round its least corner, by the even-odd rule, the innermost one, whose own
    /// least corner is the greatest. A polygon is an outer ring with the holes that have it here. An outer ring has none; each hole of a
    /// region has one.
    pub fn outer_of(&self, ring: usize) -> Option<usize>
        requires { ring < length self.now.ends }
        ensures value { result ≡ slice_index_or self.now.outers ring None }
        ensures within { IfSome result (λ r. r < length self.now.ends) }
    {
        self.outers[ring]
    }
}

fn source_of(darts: &[(Point, Point)], dart: usize) -> Point
    requires { dart < length darts.now }
    ensures { result ≡ source_at darts.now dart }
{
    darts[dart].0
}

// The sources of darts.
fn sources_of(
    alloc: Global,
    darts: &[(Point, Point)],
    order: &[usize],
) -> Result<Vec<Point>, NoMemory>
    requires { AreWithin (length darts.now) order.now }
    ensures { IfOk result (λ v. v.items ≡ map (source_at darts.now) order.now) }
{
    let mut points = Vec::with_capacity(alloc, order.len())?;
    for place in 0..order.len() {
        points.push(source_of(darts, number_at(order, place)))?;
    }
    Ok(points)
}

/// The rings that the darts of a border make, or why there are none: the darts aren't a closed border, or there was no memory.
pub(crate) fn rings_along(alloc: Global, darts: &[(Point, Point)]) -> Result<Rings, RingsError>
    ensures rings { IfOk result (AreRingsOf darts.now) }
    ensures error { IfErr result (IsErrorOf darts.now) }
{
    let spokes = sorted_spokes(alloc, darts)?;
    let nexts = nexts_of(alloc, darts, &spokes)?;
    let cycles = cycles_of(alloc, &nexts)?;
    let points = sources_of(alloc, darts, &cycles.order)?;
    let holes = holes_of(alloc, &points, &cycles.ends)?;
    let leasts = leasts_of(alloc, &points, &cycles.ends)?;
    let outers = outers_of(alloc, &points, &cycles.ends, &holes, &leasts)?;
    Ok(Rings {
        points,
        ends: cycles.ends,
        holes,
        leasts,
        outers,
    })
}

/// The rings of a region (CGAL manual, Boolean set operations: polygons with holes). Its border is closed, so that there are rings, and
/// bounds a set of faces, so that each hole has an outer ring, with which it bounds one face: what is inside between them is connected.
/// It takes n log n steps for n darts, and n for each hole.
///
/// # Errors
///
/// There was no memory.
pub fn rings_of(alloc: Global, region: &Region) -> Result<Rings, NoMemory>
    ensures rings { IfOk result (AreRingsOf region.now) }
    ensures nested { IfOk result AreAllNested }
    ensures one_face { IfOk result (AreOfOneFace region.now) }
{
    region.laws();
    match rings_along(alloc, region.darts()) {
        Ok(rings) => Ok(rings),
        Err(RingsError::NoMemory) => Err(NoMemory),
        Err(RingsError::NotClosed) => unreachable!(),
    }
}
