//! Lower and upper envelopes: on each wall the outermost point of an edge, where it is a vertex, and between two such
//! vertices the outermost edge, or a gap (CGAL manual, envelopes).
//!
//! All is said once for both: `Which` turns the signs. An *outline* is the list of these vertices with what stands between
//! them, computed from a plane graph. Each function here is a law of the definitions, which its contract states and its
//! body, being empty, does not compute.
#![tactic(auto)]

mod which;

ghost use Rattle.envelope_laws.specs.EnvelopeLaws.{OutlinesAreEnvelopes, PiecesHaveEnvelopes};

pub use which::Which;

/// The outline of a plane graph is the envelope of its edges: its vertices are those ends of edges than which no point of an
/// edge on the same wall is further out; between two neighbours one edge is outermost in every slab, and no point of an edge
/// is further out than it, or there is a gap, where no edge has a point; and outside the list no edge has a point.
pub fn outlines_are_envelopes()
    ensures { OutlinesAreEnvelopes }
{}

/// The outline of the graph of a present is in the same way the envelope of its pieces: of all points of pieces those of the
/// outline are the outermost.
pub fn pieces_have_envelopes()
    ensures { PiecesHaveEnvelopes }
{}
