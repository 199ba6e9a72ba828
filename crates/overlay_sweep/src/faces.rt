ghost use Rattle.std.specs.Prelude.{◌≡◌, ◌<◌, length, slice_index_or, IfOk};
ghost use Rattle.slab_laws.specs.Skeleton.{IsPlaneSkeleton};
ghost use Rattle.slab_laws.specs.SpansDrawn.{drawn};
ghost use Rattle.face_roots.specs.CycleRanks.{root_at, is_outer_root, AreRootsOf};
ghost use Rattle.dart_orbits.specs.Orbits.{AreOrbits};
ghost use Rattle.overlay_sweep.specs.KnownLabels.{AreFaceLabels};

use crate::layers::label_at;
use crate::roots::lead_of;
use dart_orbits::Orbits;
use exact_plane::{Point, Span};
use face_roots::Root;
use no_memory::NoMemory;
use std::alloc::Global;

fn adds_face(roots: &[Root], cycle: usize) -> bool
    requires { cycle < length roots.now }
    ensures { result ≡ is_outer_root (root_at roots.now cycle) }
{
    matches!(roots[cycle], Root::Outer)
}

/// The labels of the faces by their ranks: of the unbounded face 0, of the others, by their outer cycles, those above the least darts
/// of these, which go forward. Of the points and edges only the contract speaks.
///
/// The darts and cycles are those of `orbits_of` for these points and edges, the roots those of `roots_of`, and the labels those of
/// `labels_above`.
///
/// # Errors
///
/// There was no memory.
pub fn labels_of_faces(
    alloc: Global,
    points: &[Point],
    edges: &[Span],
    orbits: &Orbits,
    roots: &[Root],
    labels: &[usize],
) -> Result<Vec<usize>, NoMemory>
    requires plane { IsPlaneSkeleton (drawn points.now edges.now) }
    requires orbits { AreOrbits (drawn points.now edges.now) orbits.now }
    requires roots { AreRootsOf (drawn points.now edges.now) roots.now }
    requires labels { length labels.now ≡ length orbits.now.darts.items }
    ensures { IfOk result (λ v. AreFaceLabels (drawn points.now edges.now) roots.now labels.now v.items) }
{
    let mut faces = Vec::new(alloc);
    faces.push(0)?;
    for cycle in 0..roots.len() {
        if adds_face(roots, cycle) {
            let label = label_at(labels, lead_of(orbits, cycle));
            faces.push(label)?;
        }
    }
    Ok(faces)
}
