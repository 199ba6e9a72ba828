ghost use Rattle.told_steps.specs.LayerSteps.{StepsMakeLayers};
ghost use Rattle.told_steps.specs.LayerNames.{LayersAreNamed};
ghost use Rattle.told_steps.specs.ToldLaws.{AreToldRunsLawful};

/// Records that stand for a layer stand, after the steps of an accepted edit, with the sides of curves told apart or not, for the layer after it.
pub fn steps_make_layers()
    ensures { StepsMakeLayers }
{}

/// Records that stand for a layer name the vertices, edges and pins of its present, and their history has its curves.
pub fn layers_are_named()
    ensures { LayersAreNamed }
{}

/// Told steps are steps; they keep the whole map sound, with the first face name the first; they follow on each other; what observers
/// hold stays the records' view; and a seated observer that stays has heard just their notes, in their order. This is a law: the body, being empty, computes nothing.
pub fn told_runs_are_lawful()
    ensures { AreToldRunsLawful }
{}
