ghost use Rattle.slab_laws.specs.Triangle.{triangle_view};
ghost use Rattle.slab_laws.specs.View.{HasDart};

use crate::shapes::{line, point};
use slab_laws::{CurveId, Curved, CycleId, CycleKind, DartId, FaceId, Faced, Triangle};
use std::test::Fail;

fn triangle() -> Result<Triangle, Fail> {
    let corners = (point((0, 0, 1))?, point((4, 0, 1))?, point((0, 4, 1))?);
    let lines = (
        line((0, 0, 4, 0))?,
        line((4, 0, 0, 4))?,
        line((0, 4, 0, 0))?,
    );
    Ok(Triangle::new(corners.0, corners.1, corners.2, lines.0, lines.1, lines.2))
}

// The cycle of a dart, its kind and the face that it bounds.
fn boundary(triangle: &Triangle, dart: DartId) -> (CycleId, CycleKind, FaceId)
    requires { HasDart (triangle_view triangle.now) dart }
{
    let cycle = triangle.cycle(dart);
    (cycle, triangle.kind(cycle), triangle.face(cycle))
}

#[test]
fn a_triangle_bounds_two_faces(rt: HostRuntime) -> Result<(), Fail> {
    let triangle = triangle()?;
    let inside = (CycleId(0), CycleKind::Outer, FaceId(1));
    let outside = (CycleId(1), CycleKind::Inner, FaceId(0));
    assert!(rt; boundary(&triangle, DartId(2)) == inside);
    assert!(rt; boundary(&triangle, DartId(3)) == outside);
    assert!(rt; triangle.curves(rt.alloc(), DartId(2))?.as_slice() == [CurveId(1)].as_slice());
    Ok(())
}
