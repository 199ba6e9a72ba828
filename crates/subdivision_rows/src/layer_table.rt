ghost use Rattle.std.specs.Prelude.{◌≡◌, ◌<◌, [], length, map, IfOk};
ghost use Rattle.std.specs.List.{slice_index_or};
ghost use Rattle.std.specs.Ordering.{nat_cmp};
ghost use Rattle.plane_graphs.specs.Ascending.{ascending};
ghost use Rattle.slab_laws.specs.View.{curve_id};
ghost use Rattle.subdivision_rows.specs.LayerTables.{numbers_in};

use slab_laws::CurveId;
use std::alloc::{AllocError, Global};
use std::marker::Model;

/// What an overlay keeps of one layer.
#[derive(Drop)]
pub struct LayerTable {
    // Of each edge the curves of the layer along it, ascending.
    curves: Vec<Vec<CurveId>>,
    // Of each face the rank of the layer's face that holds it.
    labels: Vec<usize>,
}

impl Model for LayerTable {
    ghost use Rattle.slab_laws.specs.Layers.{LayerRows};

    ghost Value = { LayerRows };

    ghost use Rattle.subdivision_rows.specs.LayerTables.{table_rows};

    ghost view = { table_rows };
}

/// Brings the curves of a layer along an edge into their order, each once, as a layer's table has them.
pub fn arrange_curves(curves: &mut Vec<CurveId>)
    ensures { map (λ c. c.0) curves.new.items ≡ ascending nat_cmp (map (λ c. c.0) curves.old.items) }
{
    curves.sort_unstable();
    curves.dedup();
}

fn copied(alloc: Global, curves: &[CurveId]) -> Result<Vec<CurveId>, AllocError>
    ensures { IfOk result (λ v. v.items ≡ curves.now) }
{
    curves.iter().copied().collect(alloc)
}

impl LayerTable {
    /// What the lists tell of a layer: of each edge the curves of the layer along it, ascending, and of each face the rank of the
    /// layer's face that holds it.
    pub fn of(curves: Vec<Vec<CurveId>>, labels: Vec<usize>) -> LayerTable
        ensures curves { result.curves ≡ numbers_in curves.items }
        ensures labels { result.labels ≡ labels.items }
    {
        LayerTable { curves, labels }
    }

    // The curves of the layer along the edge at a place.
    pub(crate) fn curves_at(&self, alloc: Global, edge: usize) -> Result<Vec<CurveId>, AllocError>
        requires { edge < length self.now.curves }
        ensures { IfOk result (λ v. v.items ≡ map curve_id (slice_index_or self.now.curves edge [])) }
    {
        let curves = copied(alloc, &self.curves[edge])?;
        Ok(curves)
    }

    // The rank of the layer's face that holds the face of a rank.
    pub(crate) fn label_at(&self, face: usize) -> usize
        requires { face < length self.now.labels }
        ensures { result ≡ slice_index_or self.now.labels face 0 }
    {
        self.labels[face]
    }
}
