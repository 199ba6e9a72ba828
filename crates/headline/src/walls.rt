ghost use Rattle.headline.specs.Intervals.{CoversWholeIntervals, CoversFromStops, OpenIsUncovered};
ghost use Rattle.headline.specs.Intervals.{BorderAsBeside, MeetAcrossIntervals};

/// That a wall is covered means what it says. The stops of a wall are its vertices and the points where edges pass through it. In a
/// plane graph a vertical edge covers the wall directly above a point exactly where its ends are the two stops of the interval that
/// the point is on: above a stop, where its lower end is there and its upper end is the next stop. So a wall is open above a point
/// exactly where no edge covers the point's interval.
pub fn intervals_are_covered_whole()
    ensures whole { CoversWholeIntervals }
    ensures from_stops { CoversFromStops }
    ensures uncovered { OpenIsUncovered }
{}

/// That two cells meet means what it says: some interval that no edge covers borders both. The cells that an interval borders, by the
/// edges that reach the wall at or below its lower stop, are those beside any of its points.
pub fn cells_meet_across_intervals()
    ensures borders { BorderAsBeside }
    ensures meet { MeetAcrossIntervals }
{}
