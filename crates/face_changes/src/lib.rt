//! What a change of a plane graph does to its cycles and faces: one more edge, one more vertex, an edge split in two.
//!
//! A cycle is told by its least dart, a face by the cells that are in it. The laws say what the graph h after the change has
//! by what the graph g before it has; read the other way they say what is left where the edge or the vertex goes. Then the
//! same of faces by name, as records keep them.
//!
//! Each function is a law: its contract states it, and its body, being empty, computes nothing. In the laws x is either dart
//! of the edge, and a and b are the darts that x and its twin come after.
#![tactic(auto)]

ghost use Rattle.face_changes.specs.Kinds.{CyclesAreOfOneKind, OneOuterCycle};
ghost use Rattle.face_changes.specs.OneMoreEdge.{CellsWithOneMoreEdge, FacesWithOneMoreEdge, SidesOfOneMoreEdge, CyclesWithOneMoreEdge};
ghost use Rattle.face_changes.specs.OneMoreVertex.{OneMoreVertex};
ghost use Rattle.face_changes.specs.EdgeSplit.{EdgeSplitInTwo};
ghost use Rattle.face_changes.specs.FaceNames.{FaceNamesStay, FaceNamesPart, FaceNamesMerge};
ghost use Rattle.face_changes.specs.FacesByPairs.{OuterCyclesFollow, FacesToldByPairs};
ghost use Rattle.face_changes.specs.CycleNames.{NamesTellCycles};
ghost use Rattle.face_changes.specs.RecordsAfterSplits.{RecordsAfterSplits};
ghost use Rattle.face_changes.specs.SoundExamples.{ViewsThatAreSound};

/// The darts of a cycle have one face on their left, and one kind, so that a kind may be read at any of them.
pub fn cycles_are_of_one_kind()
    ensures { CyclesAreOfOneKind }
{}

/// Each bounded face has exactly one outer cycle, and the unbounded face has none.
pub fn one_outer_cycle()
    ensures { OneOuterCycle }
{}

/// The cells beside darts and round vertices, and the first cell, lie in those of the graph without the edge.
pub fn cells_with_one_more_edge()
    ensures { CellsWithOneMoreEdge }
{}

/// Two cells are in one face exactly where they were, and where the cycle of x has one parity at both.
pub fn faces_with_one_more_edge()
    ensures { FacesWithOneMoreEdge }
{}

/// Where both darts of the edge are on one cycle, the faces are the old ones; else the edge has a face on either side.
pub fn sides_of_one_more_edge()
    ensures { SidesOfOneMoreEdge }
{}

/// By what is at both ends of the edge: a new hole, a cycle that grows, two cycles that are joined, one that is parted.
pub fn cycles_with_one_more_edge()
    ensures { CyclesWithOneMoreEdge }
{}

/// With one more vertex, on no edge, faces, cycles and kinds are as they were.
pub fn one_more_vertex()
    ensures { OneMoreVertex }
{}

/// Where an edge is split at a point inside it, faces, cycles and kinds are as they were.
pub fn edge_split_in_two()
    ensures { EdgeSplitInTwo }
{}

/// Names go on telling faces where the edge has one face on both sides.
pub fn face_names_stay<I>()
    ensures { FaceNamesStay I }
{}

/// Names tell faces where a face is parted, and what is within the cycle of x gets a fresh name.
pub fn face_names_part<I>()
    ensures { FaceNamesPart I }
{}

/// Names tell faces where two faces become one, and what had the one name gets the other.
pub fn face_names_merge<I>()
    ensures { FaceNamesMerge I }
{}

/// Face records that go by the least cells of their faces have one outer cycle each, and the first has none.
pub fn outer_cycles_follow()
    ensures { OuterCyclesFollow }
{}

/// Face records are told by pairs exactly where they are those of a sound view.
pub fn faces_told_by_pairs()
    ensures { FacesToldByPairs }
{}

/// The classes that `next` makes of the names of darts are the orbits of what the view draws.
pub fn names_tell_cycles()
    ensures { NamesTellCycles }
{}

/// Where one more edge parts a cycle, records that are written accordingly stand for cycles and faces again.
pub fn records_after_splits()
    ensures { RecordsAfterSplits }
{}

/// The empty plane with its one face is a sound view, and so is a triangle with its two.
pub fn views_that_are_sound()
    ensures { ViewsThatAreSound }
{}
