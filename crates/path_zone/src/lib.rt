//! The zone of a path: what an insertion of several sides meets of a graph, and where the sides meet one another, as a plan that
//! changes nothing.
//!
//! Each side has its zone in the graph as it stands (Fogel, Halperin and Wein, the zone of a curve), but for those that run along
//! other ones, which meet nothing else. The sides come in the order in which they begin, so that where one begins is told by the
//! zones before it, if one of their sides has that point. Where two sides cross away from the graph, an open part of one's zone
//! has the point, and tells its spot: no point is located.
#![tactic(auto)]

mod order;
mod path;
mod plan;
mod zoned;

pub use order::is_begun;
pub use path::{path_zone, path_zone_by};
pub use plan::PathPlan;
