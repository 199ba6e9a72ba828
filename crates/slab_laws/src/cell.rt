ghost use Rattle.std.specs.Prelude.{Some};
ghost use Rattle.slab_laws.specs.CellText.{cell_text};

use exact_plane::Point;
use std::fmt;

/// The cell of a subdivision that holds a point (CGAL manual, point location).
#[derive(Clone, Copy, Debug, PartialEq, Eq)]
pub enum Cell {
    /// The vertex equal to it.
    Vertex(Point),
    /// The edge on which it lies, by its lower and its upper end.
    Edge(Point, Point),
    /// The face, by its rank.
    Face(usize),
}

/// A word and what tells the cell, as a script's reply to `locate` has it: `face 3`.
impl fmt::Display for Cell {
    ghost output = { λ cell. Some (cell_text cell) };

    fn fmt<W: fmt::Write>(&self, f: &mut fmt::Formatter<W>) -> fmt::Result {
        match self {
            Cell::Vertex(point) => write!(f, "vertex {point}"),
            Cell::Edge(lower, upper) => write!(f, "edge {lower} {upper}"),
            Cell::Face(rank) => write!(f, "face {rank}"),
        }
    }
}
