ghost use Rattle.observer_bus.specs.RoundLaws.{AreFatesByLosses, AreRoundsLawful, MayNotesBeHeard};

/// What is about to change may always be told; a change may be told where all hold a view that it fits, and what it makes of it is sound.
pub fn notes_may_be_heard()
    ensures { MayNotesBeHeard }
{}

/// Rounds follow on rounds; a seated observer that stays through them has heard just their notes, in their order; and what was held at first
/// is held at last.
pub fn rounds_are_lawful()
    ensures { AreRoundsLawful }
{}

/// A round is told by its seats and the names lost in it.
pub fn fates_are_by_losses()
    ensures { AreFatesByLosses }
{}
