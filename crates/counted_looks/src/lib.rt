//! Looks at records that are counted: names are answered freely, where things lie only at a step each; and the boundary of a
//! face, looked at once round.
#![tactic(auto)]

mod boundary;
mod boundary_part;
mod cycle_glimpse;
mod glance;
mod glimpse;
mod looker;
mod name_calls;
mod naming;
mod vertices;

pub use boundary::{look_at_boundary, look_at_cycles, look_at_isolated};
pub use boundary_part::BoundaryPart;
pub use cycle_glimpse::CycleGlimpse;
pub use glance::{Glance, Looked};
pub use glimpse::Glimpse;
pub use looker::Looker;
pub use name_calls::NameCalls;
