ghost use Rattle.std.specs.Prelude.{◌≡◌, IfOk, map};
ghost use Rattle.std.specs.List.Sorted.{IsStrictlyIncreasing};
ghost use Rattle.slab_laws.specs.View.{HasDart, HasFace, twin_in};

use crate::faced::Faced;
use crate::names::{CurveId, DartId, FaceId};
use crate::triangle::Triangle;
use no_memory::NoMemory;
use std::alloc::Global;

/// The overlay of two layers, red and blue: a graph with faces, whose edges know their curves of each layer and whose faces
/// know the faces of each layer that hold them (CGAL manual, overlay traits).
pub trait Layered: Faced {
    ghost use Rattle.slab_laws.specs.Layers.{LayerView};

    /// What is known of the red layer.
    ghost red: { Self → LayerView };

    /// What is known of the blue layer.
    ghost blue: { Self → LayerView };

    /// The red curves along the dart's edge, ascending, each once; twins have the same.
    fn red_curves(&self, alloc: Global, d: DartId) -> Result<Vec<CurveId>, NoMemory>
        requires { HasDart (Self.graph self.now) d }
        ensures curves { IfOk result (λ v. v.items ≡ (red self.now).curves d) }
        ensures ascend { IsStrictlyIncreasing (map (λ c. c.0) ((red self.now).curves d)) }
        ensures twins { (red self.now).curves (twin_in (Self.graph self.now) d) ≡ (red self.now).curves d };

    /// The blue curves along the dart's edge, ascending, each once; twins have the same.
    fn blue_curves(&self, alloc: Global, d: DartId) -> Result<Vec<CurveId>, NoMemory>
        requires { HasDart (Self.graph self.now) d }
        ensures curves { IfOk result (λ v. v.items ≡ (blue self.now).curves d) }
        ensures ascend { IsStrictlyIncreasing (map (λ c. c.0) ((blue self.now).curves d)) }
        ensures twins { (blue self.now).curves (twin_in (Self.graph self.now) d) ≡ (blue self.now).curves d };

    /// The rank of the red layer's face that holds the face.
    fn red_of(&self, f: FaceId) -> usize
        requires { HasFace (Self.faces self.now) f }
        ensures { result ≡ (red self.now).rank f };

    /// The rank of the blue layer's face that holds the face.
    fn blue_of(&self, f: FaceId) -> usize
        requires { HasFace (Self.faces self.now) f }
        ensures { result ≡ (blue self.now).rank f };
}

/// The overlay of a red triangle, of curve 1, with an empty blue layer.
impl Layered for Triangle {
    ghost use Rattle.slab_laws.specs.TriangleLayers.{triangle_alone, nothing_beside};

    ghost red = { λ _. triangle_alone };

    ghost blue = { λ _. nothing_beside };

    fn red_curves(&self, alloc: Global, _d: DartId) -> Result<Vec<CurveId>, NoMemory> {
        let mut curves = Vec::new(alloc);
        curves.push(CurveId(1))?;
        Ok(curves)
    }

    fn blue_curves(&self, alloc: Global, _d: DartId) -> Result<Vec<CurveId>, NoMemory> {
        Ok(Vec::new(alloc))
    }

    fn red_of(&self, f: FaceId) -> usize {
        f.0
    }

    fn blue_of(&self, _f: FaceId) -> usize {
        0
    }
}
