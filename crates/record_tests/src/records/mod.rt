// The room that records ask for, the lists of their faces and the order of these, the smallest view, boundary cycles, looks at
// boundaries; envelopes; what is above and below vertices, where many points lie; and zones of paths.

mod batches;
mod boxes;
mod chains;
mod cycles;
mod envelope_cases;
mod envelopes;
mod holes;
mod landmarks;
mod looks;
mod paths;
mod ranks;
mod room;
mod squares;
mod trapezoids;
mod triangles;
mod vertical;
