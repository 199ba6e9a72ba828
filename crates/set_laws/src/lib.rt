//! Polygon sets: each of two layers as an even-odd set of cells, and the border of what two sets make (CGAL manual, Boolean set
//! operations).
//!
//! An even-odd set is told by weights of the edges, how many pieces hold each: a cell is in it where the weights of the edges above the
//! cell are odd together. Where the weights are even round each vertex, the set is made of whole faces. What holds of the sets are laws:
//! their contracts state them, and their bodies, being empty, compute nothing.
#![tactic(auto)]

ghost use Rattle.set_laws.specs.EvenOddLaws.{SetsAreOfFaces, BorderTellsCells, BorderIsListed, FacesAreReached};
ghost use Rattle.set_laws.specs.PolygonLaws.{EndsByEdges, OwnEndsByEdges, InsideIsOfFaces, RegionTellsCells, RegionIsListed, OddEndIs, OddEndByEdges};

mod op;

pub use op::Op;

/// An even-odd set is made of whole faces, changes across an edge exactly where the edge's weight is odd, and has nothing far outside.
pub fn sets_are_of_faces()
    ensures { SetsAreOfFaces }
{}

/// The edges of the border above a cell are odd in number exactly where the operation holds in it.
pub fn border_tells_cells()
    ensures { BorderTellsCells }
{}

/// The border goes through the darts in their order.
pub fn border_is_listed()
    ensures { BorderIsListed }
{}

/// Whatever holds far outside, and goes over from each side of an edge to the other and within faces, holds in all cells.
pub fn faces_are_reached()
    ensures { FacesAreReached }
{}

/// At each vertex of the overlay a layer's pieces that end there, and its pieces on the edges there, are together even in number.
pub fn ends_by_edges()
    ensures { EndsByEdges }
{}

/// Likewise in the layer's own graph: so a layer is closed where at each vertex the pieces on the edges there are even in number.
pub fn own_ends_by_edges()
    ensures { OwnEndsByEdges }
{}

/// The set of a closed layer is made of whole faces of the overlay, and nothing of it is outside.
pub fn inside_is_of_faces()
    ensures { InsideIsOfFaces }
{}

/// The edges of the region above a cell of the overlay are odd in number exactly where the operation holds in it.
pub fn region_tells_cells()
    ensures { RegionTellsCells }
{}

/// The region goes through the darts of the overlay in their order.
pub fn region_is_listed()
    ensures { RegionIsListed }
{}

/// The least point that is an end of an odd number of pieces, or the layer is closed.
pub fn odd_end_is()
    ensures { OddEndIs }
{}

/// It is the first vertex, of the layer's own graph or of the overlay, on whose edges the layer has an odd number of pieces.
pub fn odd_end_by_edges()
    ensures { OddEndByEdges }
{}
