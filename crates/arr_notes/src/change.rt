ghost use Rattle.std.specs.Prelude.{◌≡◌, IfOk};

use crate::faces::{Linked, Unlinked};
use exact_plane::{Line, Point};
use no_memory::NoMemory;
use slab_laws::{CurveId, DartId, FaceId, VertexId};
use std::alloc::Global;

/// A change that was made, told by the names of the records, so that a view needs nothing else to follow it (CGAL manual,
/// `Arr_observer`: what is notified after a change).
#[derive(Drop)]
pub enum Change {
    /// The vertex `v` came at `p`, unpinned and without darts, isolated in the face.
    AddVertex {
        v: VertexId,
        p: Point,
        face: FaceId,
    },
    /// The vertex `v`, which had no dart, went.
    RemoveVertex {
        v: VertexId,
    },
    /// The edge of `d`, which goes from its lower to its upper end, is split at the new, unpinned vertex `v` at `p`: `d` and its twin
    /// keep the lower part, `n`, from `v` to the upper end, and its twin `m` have the rest.
    SplitEdge {
        d: DartId,
        v: VertexId,
        p: Point,
        n: DartId,
        m: DartId,
    },
    /// The edges of `d`, which ended at `v`, and of `n`, which went on from there, are one, that of `d`; `v` and `n` went.
    MergeEdge {
        v: VertexId,
        d: DartId,
        n: DartId,
    },
    /// An edge of one curve came: `d` goes from `u` to `v`, and `m` is its twin. `at_u` is the dart out of `u` directly before `d`
    /// clockwise, `None` where `u` had none; `at_v` likewise for `m`.
    AddEdge {
        d: DartId,
        m: DartId,
        u: VertexId,
        v: VertexId,
        at_u: Option<DartId>,
        at_v: Option<DartId>,
        line: Line,
        curve: CurveId,
        faces: Linked,
    },
    /// The edge of `d` and its twin `m` went.
    RemoveEdge {
        d: DartId,
        m: DartId,
        faces: Unlinked,
    },
    /// One more curve runs along the edge of `d`.
    AddCurve {
        d: DartId,
        curve: CurveId,
    },
    /// One curve fewer runs along the edge of `d`.
    RemoveCurve {
        d: DartId,
        curve: CurveId,
    },
    /// The vertex is pinned.
    SetPin {
        v: VertexId,
    },
    /// The vertex is no longer pinned.
    ClearPin {
        v: VertexId,
    },
    /// Nothing is left but the face, the unbounded one.
    Clear {
        face: FaceId,
    },
}

impl Change {
    /// The same once more, the spare room of its lists included.
    ///
    /// # Errors
    ///
    /// There was no memory for the lists.
    pub fn copy(&self, alloc: Global) -> Result<Change, NoMemory>
        ensures { IfOk result (λ c. c ≡ self.now) }
    {
        let copy = match *self {
            Change::AddVertex { v, p, face } => Change::AddVertex { v, p, face },
            Change::RemoveVertex { v } => Change::RemoveVertex { v },
            Change::SplitEdge { d, v, p, n, m } => Change::SplitEdge { d, v, p, n, m },
            Change::MergeEdge { v, d, n } => Change::MergeEdge { v, d, n },
            Change::AddEdge {
                d,
                m,
                u,
                v,
                at_u,
                at_v,
                line,
                curve,
                ref faces,
            } => {
                let faces = faces.copy(alloc)?;
                Change::AddEdge {
                    d,
                    m,
                    u,
                    v,
                    at_u,
                    at_v,
                    line,
                    curve,
                    faces,
                }
            }
            Change::RemoveEdge { d, m, ref faces } => {
                let faces = faces.copy(alloc)?;
                Change::RemoveEdge { d, m, faces }
            }
            Change::AddCurve { d, curve } => Change::AddCurve { d, curve },
            Change::RemoveCurve { d, curve } => Change::RemoveCurve { d, curve },
            Change::SetPin { v } => Change::SetPin { v },
            Change::ClearPin { v } => Change::ClearPin { v },
            Change::Clear { face } => Change::Clear { face },
        };
        Ok(copy)
    }
}
