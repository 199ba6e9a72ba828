//! Point location that looks for a vertex at the point, then at all edges (CGAL manual, `Arr_naive_point_location`);
//! and the edge between two points.
#![tactic(auto)]

mod edges;
mod naive;

pub use edges::edge_dart;
pub use naive::locate;
