ghost use Rattle.std.specs.Prelude.{IfOk, IfSome};
ghost use Rattle.zone_walk.specs.Sources.{AreAllOnEdges};

use crate::plan::Meeting;
use exact_plane::Segment;
use no_memory::NoMemory;
use std::alloc::Global;

/// One who tells all points at which a segment meets the edges of a graph, other than by going from face to face: by an index, say.
pub trait MeetingSource {
    ghost use Rattle.slab_laws.specs.View.{View};

    /// It is one of this graph, which is sound.
    ghost knows: { Self → View → Type 0 };

    /// The points of a segment, behind its lower end, at which an edge or a vertex with edges is, each with this edge or vertex; in any
    /// order, and some of them perhaps several times. Where the segment runs along an edge, the edge's upper end and the segment's own in it
    /// may be missing, since the edge leads to them. `None` where the source can't tell them.
    ///
    /// # Errors
    ///
    /// There was no memory for them.
    fn meetings(&self, alloc: Global, segment: &Segment) -> Result<Option<Vec<Meeting>>, NoMemory>
        requires { (v : View) × knows self.now v }
        ensures { IfOk result (λ told. IfSome told (λ meetings. (v : View) → knows self.now v → AreAllOnEdges v segment.now meetings.items)) };

    /// From how many cycles of a face on it is asked: to look at that many is dearer. It tells of time alone.
    fn pays_from(&self) -> usize;
}

/// No source: the walk looks at the boundary of each face.
#[derive(Clone, Copy)]
pub struct NoSource;

impl MeetingSource for NoSource {
    ghost use Rattle.std.specs.Prelude.{⊤};

    ghost knows = { λ s v. ⊤ };

    fn meetings(
        &self,
        _alloc: Global,
        _segment: &Segment,
    ) -> Result<Option<Vec<Meeting>>, NoMemory> {
        Ok(None)
    }

    // No cycle needs to be counted to learn that it tells nothing.
    fn pays_from(&self) -> usize {
        0
    }
}
