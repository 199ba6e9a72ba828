use exact_plane::Point;
use slab_laws::CurveId;

/// A change that is about to be made, told by points (CGAL manual, `Arr_observer`: what is notified before a change).
#[derive(Clone, Copy)]
pub enum Intent {
    /// A vertex comes at the point.
    AddVertex(Point),
    /// The vertex at the point goes.
    RemoveVertex(Point),
    /// The edge between the first two points is split at the third.
    SplitEdge(Point, Point, Point),
    /// The two edges that meet at the point become one.
    MergeEdge(Point),
    /// An edge comes between the points.
    AddEdge(Point, Point),
    /// The edge between the points goes.
    RemoveEdge(Point, Point),
    /// One more curve runs along the edge between the points.
    AddCurve(Point, Point, CurveId),
    /// One curve fewer runs along the edge between the points.
    RemoveCurve(Point, Point, CurveId),
    /// The vertex at the point is pinned.
    SetPin(Point),
    /// The vertex at the point is no longer pinned.
    ClearPin(Point),
    /// Everything goes.
    Clear,
}
