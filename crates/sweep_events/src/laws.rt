ghost use Rattle.sweep_events.specs.SweepLaws.{EventsAreVertices, EdgesOfStatus, StatusIsOne, PartOfStatus};

/// The events of a sweep over the pieces of a fit present are its vertices: the ends of its pieces, its pins, and the points on
/// two pieces of different lines.
pub fn events_are_vertices()
    ensures { EventsAreVertices }
{}

/// After the last event of an abscissa the status of such a sweep is the model's list of the next slab: each piece runs along one
/// edge that spans the slab, pieces along one edge stand side by side, and the edges, from the first piece to the last, are all
/// that span the slab, in the order of their places.
pub fn edges_of_status()
    ensures { EdgesOfStatus }
{}

/// After one event there is one status.
pub fn status_is_one()
    ensures { StatusIsOne }
{}

/// The part of a status that the first n pieces make is the status of these alone, at the same moment; the part that the others
/// make is that of the others alone, by their own places.
pub fn part_of_status()
    ensures { PartOfStatus }
{}
