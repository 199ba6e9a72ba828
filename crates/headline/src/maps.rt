ghost use Rattle.std.specs.Prelude.{◌≡◌, IfOk};
ghost use Rattle.plane_graphs.specs.Graph.{graph};
ghost use Rattle.slab_laws.specs.Sound.{IsGraphSound};
ghost use Rattle.slab_laws.specs.View.{HasDart, HasFace};
ghost use Rattle.curve_history.specs.Past.{curves_on};
ghost use Rattle.told_steps.specs.RecordLayers.{IsLayer};
ghost use Rattle.told_steps.specs.LayerNames.{IsNamedBy};
ghost use Rattle.observer_bus.specs.RoundLaws.{HaveNamesApart};
ghost use Rattle.subdivision_rows.specs.OverlayInMemory.{graph_of, faces_in};
ghost use Rattle.arrangement.specs.Arranged.{arranged, layer_in};
ghost use Rattle.headline.specs.Maps.{red_in, blue_in, IsOverlayOf};

use arrangement::{Arrangement, CurveId, DartId, FaceId, Layered, NoMemory, Overlay, overlay};
use std::alloc::Global;

/// Every arrangement, at any moment: its records are sound, with the history they stand for the layer, their names are those of the
/// vertices, edges and pins of the present, and no two observers have one name.
pub fn laws(map: &Arrangement)
    ensures sound { IsGraphSound (arranged Observer-dyn map.now).graph }
    ensures layer { IsLayer (arranged Observer-dyn map.now).graph (arranged Observer-dyn map.now).past }
    ensures named { IsNamedBy (arranged Observer-dyn map.now).graph (curves_on (arranged Observer-dyn map.now).past)
        (graph (layer_in (arranged Observer-dyn map.now)).present) }
    ensures apart { HaveNamesApart (arranged Observer-dyn map.now).bus.seats }
{
    map.laws();
}

/// The overlay of two arrangements.
pub fn overlaid(alloc: Global, red: &Arrangement, blue: &Arrangement) -> Result<Overlay, NoMemory>
    ensures { IfOk result (λ o. IsOverlayOf (layer_in (arranged Observer-dyn red.now)).present
        (layer_in (arranged Observer-dyn blue.now)).present o) }
{
    overlay(alloc, red, blue)
}

/// The red curves along the edge of a dart of an overlay.
pub fn red_curves(alloc: Global, overlay: &Overlay, dart: DartId) -> Result<Vec<CurveId>, NoMemory>
    requires { HasDart (graph_of overlay.now) dart }
    ensures { IfOk result (λ v. v.items ≡ (red_in overlay.now).curves dart) }
{
    overlay.red_curves(alloc, dart)
}

/// The blue ones.
pub fn blue_curves(alloc: Global, overlay: &Overlay, dart: DartId) -> Result<Vec<CurveId>, NoMemory>
    requires { HasDart (graph_of overlay.now) dart }
    ensures { IfOk result (λ v. v.items ≡ (blue_in overlay.now).curves dart) }
{
    overlay.blue_curves(alloc, dart)
}

/// The rank of the red face that holds a face of an overlay.
pub fn red_face(overlay: &Overlay, face: FaceId) -> usize
    requires { HasFace (faces_in overlay.now) face }
    ensures { result ≡ (red_in overlay.now).rank face }
{
    overlay.red_of(face)
}

/// The rank of the blue one.
pub fn blue_face(overlay: &Overlay, face: FaceId) -> usize
    requires { HasFace (faces_in overlay.now) face }
    ensures { result ≡ (blue_in overlay.now).rank face }
{
    overlay.blue_of(face)
}
