//! What each change of a sound view keeps: the view stays sound, the graph that it draws takes the step that was told, and the
//! view that observers have follows.
//!
//! The changes are one more edge and one edge fewer, an edge that is split and two that are merged, vertices, pins and
//! curves. Where an edge fits stands in `specs/EdgePlaces.antt`, which dart follows which afterwards in `specs/NextLaws.antt`,
//! which changes fit in `specs/ChangeFits.antt`, what observers see in `specs/ViewLaws.antt`. Each function is a law: its
//! contract states it, and its body, being empty, computes nothing.
#![tactic(auto)]

ghost use Rattle.sound_changes.specs.EdgeLaws.{NextWithOneMoreEdge, NextWithOneEdgeFewer};
ghost use Rattle.sound_changes.specs.StepLaws.{ChangesAreSteps, ChangesKeepViewsSound, CurvesGo};
ghost use Rattle.sound_changes.specs.ViewLaws.{ChangesMakeViews, ChangesFitViews, ChangesMayBeTold};

/// In a plane graph with one more edge, what follows a dart is what followed it before, or the new dart that comes directly
/// between; the twin of a new dart is followed by what followed the dart before the new one, or by the new one at a bare end.
pub fn next_with_one_more_edge()
    ensures { NextWithOneMoreEdge }
{}

/// In a plane graph with one edge fewer, what follows a dart is what followed it before, or, where that was a dart of the edge,
/// what followed that one's twin.
pub fn next_with_one_edge_fewer()
    ensures { NextWithOneEdgeFewer }
{}

/// After a change that fits, the records draw the graph after its step.
pub fn changes_are_steps()
    ensures { ChangesAreSteps }
{}

/// Where some curves go from an edge at once, the records draw the graph without their marks there.
pub fn curves_go()
    ensures { CurvesGo }
{}

/// A change whose step leaves the graph plane leaves the records sound.
pub fn changes_keep_views_sound()
    ensures { ChangesKeepViewsSound }
{}

/// The view of the records after a change that fits is what the change makes of their view before.
pub fn changes_make_views()
    ensures { ChangesMakeViews }
{}

/// A change that fits the records names what their view has, and new names.
pub fn changes_fit_views()
    ensures { ChangesFitViews }
{}

/// A change that fits may be told, once it is made, to who holds the view of the records before it.
pub fn changes_may_be_told()
    ensures { ChangesMayBeTold }
{}
