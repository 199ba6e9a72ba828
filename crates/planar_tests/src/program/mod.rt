// The program's run, with sources and sinks that fail and observers that come and go, and what stands beside it:
// lines, made scripts.

mod guests;
mod lines;
mod makers;
mod memory;
mod mute;
mod observers;
mod runs;
mod scripts;
mod streams;
