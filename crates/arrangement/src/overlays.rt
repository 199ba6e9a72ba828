ghost use Rattle.std.specs.Prelude.{◌≡◌, IfOk};
ghost use Rattle.polygon_sets.specs.Regions.{TellsPiecesOf};
ghost use Rattle.slab_laws.specs.Layers.{rows_of};
ghost use Rattle.slab_laws.specs.Overlay.{both};
ghost use Rattle.slab_laws.specs.OverlayText.{presents_text};
ghost use Rattle.slab_laws.specs.FacesSound.{IsSound};
ghost use Rattle.subdivision_rows.specs.Listed.{subdivision_in, view_of, faces_of};
ghost use Rattle.arrangement.specs.Arranged.{arranged, layer_in};
ghost use Rattle.arrangement.specs.Overlays.{text_of, overlay_of};

use crate::arrangement::Arrangement;
use crate::overlaid::Overlay;
use crate::presents::{edges_of, present_of};
use no_memory::NoMemory;
use std::alloc::Global;

/// The overlay of two layers, by plane sweeps over what both have at this moment; the faces of each are those of its own records.
///
/// # Errors
///
/// There was no memory for the overlay or for a table on the way.
pub fn overlay(alloc: Global, red: &Arrangement, blue: &Arrangement) -> Result<Overlay, NoMemory>
    ensures subdivision { IfOk result (λ o. subdivision_in o.drawing
        ≡ overlay_of (arranged Observer-dyn red.now) (arranged Observer-dyn blue.now)) }
    ensures pins { IfOk result (λ o. o.drawing.graph.pins
        ≡ (both (layer_in (arranged Observer-dyn red.now)).present (layer_in (arranged Observer-dyn blue.now)).present).pins) }

    // What it tells of each layer: the curves along each of its edges, and the rank of the layer's face that holds each face.
    ensures red { IfOk result (λ o. o.red ≡ rows_of (layer_in (arranged Observer-dyn red.now)).present
        (overlay_of (arranged Observer-dyn red.now) (arranged Observer-dyn blue.now))) }
    ensures blue { IfOk result (λ o. o.blue ≡ rows_of (layer_in (arranged Observer-dyn blue.now)).present
        (overlay_of (arranged Observer-dyn red.now) (arranged Observer-dyn blue.now))) }

    // How many of its pieces hold each edge, so that `region_of` speaks of these layers.
    ensures pieces { IfOk result (λ o. TellsPiecesOf (layer_in (arranged Observer-dyn red.now)).present (layer_in (arranged Observer-dyn blue.now)).present o) }
    ensures stands { IfOk result (λ o. IsSound (view_of o.drawing) (faces_of o.drawing)) }
    ensures text { IfOk result (λ o. text_of o
        ≡ presents_text (layer_in (arranged Observer-dyn red.now)).present (layer_in (arranged Observer-dyn blue.now)).present) }
{
    let of_red = present_of(alloc, &red.layer)?;
    let of_blue = present_of(alloc, &blue.layer)?;
    let red_edges = edges_of(alloc, &red.layer)?;
    let blue_edges = edges_of(alloc, &blue.layer)?;
    let both = overlay_sweep::overlay(alloc, &of_red, &of_blue, red_edges, blue_edges);
    // What a scope drops at its end is proved there anew, in all its parts.
    drop(of_red);
    drop(of_blue);
    let both = both?;
    Ok(Overlay { both })
}
