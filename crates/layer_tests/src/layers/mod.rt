// Layers of an arrangement, by the calls of `Arrangement`.

mod afresh;
mod asked;
mod calls;
pub mod edits;
mod kept;
mod limits;
mod looks;
mod overlay_texts;
mod overlays;
mod pieces;
mod places;
mod presents;
mod regions;
mod rows;
mod scribe;
mod script_edits;
mod seats;
mod texts;
mod zones;
