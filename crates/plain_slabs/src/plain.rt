use crate::cell_labels::CellLabels;
use slab_laws::SlabCell;
use std::marker::Model;
use subdivision_rows::Rows;

/// The subdivision of the plane by a graph, in ascending lists: anything's name is its place in its list, a face's is its
/// rank. With it the cells of its faces, by which points are located.
#[derive(Drop)]
pub struct Plain {
    pub(crate) rows: Rows,
    // Of each cell the least cell of its face.
    pub(crate) labels: CellLabels,
    // Of each face its least cell.
    pub(crate) faces: Vec<SlabCell>,
}

impl Model for Plain {
    ghost use Rattle.subdivision_rows.specs.Listed.{Drawing};

    ghost Value = { Drawing };

    ghost use Rattle.plain_slabs.specs.SubdivisionInMemory.{IsSoundSubdivision};

    ghost view = { λ a. a.rows };

    ghost invariant = { IsSoundSubdivision };
}
