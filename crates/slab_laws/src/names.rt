ghost use Rattle.std.specs.Prelude.{◌≡◌};
ghost use Rattle.slab_laws.specs.Kinds.{kind_by, is_outer as bounds_from_outside};

/// The number of a curve, drawn 1, 2, 3, .. and never used again.
#[derive(Clone, Copy, Debug, PartialEq, Eq, PartialOrd, Ord, Hash)]
pub struct CurveId(pub u32);

/// The name of a vertex record.
#[derive(Clone, Copy, Debug, PartialEq, Eq, PartialOrd, Ord, Hash)]
pub struct VertexId(pub usize);

/// The name of a dart record; a dart is one direction of an edge (a halfedge).
#[derive(Clone, Copy, Debug, PartialEq, Eq, PartialOrd, Ord, Hash)]
pub struct DartId(pub usize);

/// The name of a cycle record.
#[derive(Clone, Copy, Debug, PartialEq, Eq, PartialOrd, Ord, Hash)]
pub struct CycleId(pub usize);

/// The name of a face record.
#[derive(Clone, Copy, Debug, PartialEq, Eq, PartialOrd, Ord, Hash)]
pub struct FaceId(pub usize);

/// Whether a cycle bounds its face from outside, counterclockwise, or is a hole in it, clockwise.
#[derive(Clone, Copy, PartialEq, Eq)]
pub enum CycleKind {
    Outer,
    Inner,
}

impl CycleKind {
    /// The kind of a cycle that bounds its face from outside, or doesn't.
    pub fn by(outer: bool) -> CycleKind
        ensures { result ≡ kind_by outer }
    {
        if outer {
            CycleKind::Outer
        } else {
            CycleKind::Inner
        }
    }

    /// Whether it bounds its face from outside.
    pub fn is_outer(self) -> bool
        ensures { result ≡ bounds_from_outside self }
    {
        match self {
            CycleKind::Outer => true,
            CycleKind::Inner => false,
        }
    }
}

/// How a point is located.
#[derive(Clone, Copy, PartialEq, Eq)]
pub enum Strategy {
    /// All vertices, then all edges.
    Naive,
    /// Along the vertical through the point.
    Walk,
    /// From the nearest landmark.
    Landmarks,
    /// By a trapezoidal map with a search graph.
    Trapezoid,
}
