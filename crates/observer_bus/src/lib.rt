//! A bus that tells observers of each change of an arrangement, in rounds (CGAL manual, `Arr_observer`; rounds, plans and names: this
//! project).
//!
//! Contracts see a bus as rows (`specs/Rows.antt`): what a boxed observer means is handed to them by the observers' own words.
#![tactic(auto)]

mod bus;
mod errors;
mod laws;
mod names;
mod round;
mod seat;
mod snapshot;
mod went;

pub use bus::{Bus, SEATS};
pub use errors::{AttachError, NoSeat, ReportError};
pub use laws::{fates_are_by_losses, notes_may_be_heard, rounds_are_lawful};
pub use names::Names;
pub use seat::{Fate, Seat};
pub use went::Went;
