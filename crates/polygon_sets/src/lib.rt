//! Polygon sets: each of two layers as an even-odd set of cells, and the border of what two sets make (CGAL manual, Boolean set
//! operations).
#![tactic(auto)]

mod border;
mod chains;
mod crossed_darts;
mod crossings;
mod odd;
mod region;
mod spread;

pub use region::{Colour, Region, RegionError, region_by, region_of};
pub use set_laws::Op;
