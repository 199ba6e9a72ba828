//! Point location by a trapezoidal map: a search graph of nodes that compare a point with a vertex, by point order, or with
//! an edge, by its side (de Berg and others, trapezoidal map; CGAL manual, `Arr_trapezoid_ric_point_location`).
//!
//! The graph is a tree. What a point meets on its way down tells where it lies: it is at a vertex or on an edge that a node
//! asks for, or else in the face over the last edge that it was above, which is the highest below it. So leaves hold nothing.
//! Nodes hold names; where vertices and edges lie, the records tell. A vertical edge is no special case: every point between
//! its ends in point order is on its line.
//!
//! An edge is put in from its lower end on: from the root down to the leaf in which its part directly after that point lies,
//! which is split by it, and so again from the point where it leaves the leaf.
#![tactic(auto)]

mod above;
mod arrival;
mod bound;
mod building;
mod descent;
mod graph;
mod insertion;
mod node;
mod order;
mod scatter;
mod seed;
mod split;
mod trapezoids;

pub use trapezoids::Trapezoids;
