//! What holds of each layer in the overlay of two, red and blue: that both are a fit present together, whose curves its edges
//! keep, and that the labels of a face are the ranks of the faces that hold it (CGAL manual, `overlay`).
//!
//! The definitions are those of `slab_laws`. A cell of the overlay lies in one cell of each layer, which is found by
//! counting: the layer's vertices up to the cell's slab, and the edges below it that have a curve of the layer. Each
//! function here is a law of them, which its contract states and its body, being empty, does not compute.
#![tactic(auto)]

ghost use Rattle.overlay_laws.specs.OverlayLaws.{OverlayIsFit, CurvesOfBoth, LabelsAreConstant, LabelsNameFaces, FacesLieInFaces, EmptyLayerAddsNothing};

/// Both layers together are fit where each is, so every law of graphs and faces holds for the overlay.
pub fn overlay_is_fit()
    ensures { OverlayIsFit }
{}

/// The curves of an edge of the overlay are those of red and those of blue along it (CGAL manual, originating curves).
pub fn curves_of_both()
    ensures { CurvesOfBoth }
{}

/// Cells of one face of the overlay lie in cells of one face of each layer, so the labels of a face are the same
/// whichever of its cells is asked.
pub fn labels_are_constant()
    ensures { LabelsAreConstant }
{}

/// Each cell of the overlay lies in one of the cells of each layer, so each label is the rank of a face of the layer.
pub fn labels_name_faces()
    ensures { LabelsNameFaces }
{}

/// A point in a face of the overlay lies in the red face and in the blue face that the face's labels name.
pub fn faces_lie_in_faces()
    ensures { FacesLieInFaces }
{}

/// With an empty layer the overlay is the other layer's own subdivision: its labels are the ranks of its faces, and those
/// of the empty layer are all 0.
pub fn empty_layer_adds_nothing()
    ensures { EmptyLayerAddsNothing }
{}
