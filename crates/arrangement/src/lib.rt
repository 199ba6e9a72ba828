//! An arrangement of segments with history: the subdivision of the plane that they induce, kept in linked records and changed
//! locally (CGAL manual, `Arrangement_with_history_2`).
#![tactic(auto)]

mod arrangement;
mod batches;
mod counted;
mod edges;
mod envelopes;
mod faces;
mod layer_records;
mod limits;
mod lists;
mod observers;
mod odd_ends;
mod overlaid;
mod overlay_faces;
mod overlays;
mod presents;
mod questions;
mod regions;
mod regions_between;
mod spots;
mod verticals;
mod zones;

pub use arr_notes::{
    Answer, Change, CycleRow, DartRow, EdgeRow, Intent, Linked, Note, Observer, Unlinked,
    VertexRow, View,
};
pub use arrangement::Arrangement;
pub use curve_history::{CutPlan, Drawn, History, HistoryError, LAST_CURVE, PieceIter};
pub use dart_walks::{Along, Round};
pub use dcel_records::{Met, RankKey, RecordCounts, Records, Room, Spot};
pub use exact_plane::{
    Line, MAX_COORDINATE, MAX_SIDES, Path, PathError, Point, PointError, Segment, SegmentError,
    WEIGHT_LIMIT, WholeParts,
};
pub use limits::{Limits, MAX_CURVES, MAX_PIECES, MAX_PINS};
pub use locate_naive::edge_dart;
pub use lower_envelope::{Envelope, Which};
pub use no_memory::NoMemory;
pub use observer_bus::{AttachError, Bus, Names, NoSeat, ReportError, SEATS, Seat, Went};
pub use overlaid::Overlay;
pub use overlays::overlay;
pub use pin_points::{MergeError, NotPinned, PinError, SplitError};
pub use polygon_sets::{Colour, Op, Region, RegionError};
pub use questions::{Counts, EdgeError};
pub use regions::region_of;
pub use regions_between::region;
pub use segment_insert::InsertError;
pub use segment_remove::{CutError, DropError};
pub use slab_laws::{
    Cell, CurveId, Curved, CycleId, CycleKind, DartId, Darts, FaceId, FaceLists, Faced, Layered,
    Moved, Piece, Sequence, Strategy, VertexId,
};
pub use vertical_parts::{Next, Part};
pub use zone_walk::Meeting;
pub use zones::Zone;
