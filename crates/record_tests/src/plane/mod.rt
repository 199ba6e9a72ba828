// The exact plane, and the sweep over it.

mod cases;
mod errors;
mod meetings;
mod parts;
mod slopes;
mod spans;
mod sweeps;
