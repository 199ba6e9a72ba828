//! What each change of an arrangement makes of its tables of cycles and faces, and that these go on standing for the cycles
//! and faces of what the view draws.
//!
//! The tables after a change are computed in `arr_notes` (`specs/FacesTold.antt`: `faces_after`). The law to cite is
//! `changes_keep_faces_sound`; the others are its parts, or say what code is free to choose. In the laws v is a view without
//! an edge or a vertex and f its tables, w and s those with it, and each law holds both ways where it can: for what comes,
//! and for what goes.
//!
//! Each function is a law: its contract states it, and its body, being empty, computes nothing.
#![tactic(auto)]

ghost use Rattle.face_steps.specs.ChangeLaws.{ChangesKeepFacesSound, FacesStayNamed};
ghost use Rattle.face_steps.specs.Choices.{ChoicesOfKinds};
ghost use Rattle.face_steps.specs.FaceAhead.{FacesAhead};
ghost use Rattle.face_steps.specs.LinkLaws.{LinksKeepTables, UnlinksKeepTables};
ghost use Rattle.face_steps.specs.MapInSteps.{MapInSteps};
ghost use Rattle.face_steps.specs.NameLaws.{ChangesKeepFirst, ChangesKeepNames};
ghost use Rattle.face_steps.specs.OneFace.{OneFaceOnBothSides, CyclesApart};
ghost use Rattle.face_steps.specs.RecordsApart.{RecordsApart};
ghost use Rattle.face_steps.specs.RowsWritten.{RowsWritten};
ghost use Rattle.face_steps.specs.SplitSteps.{SplitSteps};
ghost use Rattle.face_steps.specs.StepLaws.{StepsKeepTables, StepsKeepFirst};
ghost use Rattle.face_steps.specs.Tabled.{TablesAreSound};
ghost use Rattle.face_steps.specs.TriangleOpened.{TriangleOpened, TriangleClosed};
ghost use Rattle.face_steps.specs.TwoFaces.{TwoFacesApart};
ghost use Rattle.face_steps.specs.VertexSteps.{VertexSteps};
ghost use Rattle.face_steps.specs.Within.{WithinByEither};

/// A sound view with its tables of cycles and faces is one again after any change that says of faces what it has to.
pub fn changes_keep_faces_sound()
    ensures { ChangesKeepFacesSound }
{}

/// Where a vertex comes, the face that was named for a point stays that of the point: what was told of points before stays true.
pub fn faces_stay_named()
    ensures { FacesStayNamed }
{}

/// The first face name, the unbounded face's, stays first after any such change.
pub fn changes_keep_first()
    ensures { ChangesKeepFirst }
{}

/// Names of cycles and faces stay, but for those that the change tells to go, and none is there but the old ones and those that
/// it tells to come.
pub fn changes_keep_names()
    ensures { ChangesKeepNames }
{}

/// After each change the tables stand for the cycles and faces of what the view draws, whatever two views are meant.
pub fn steps_keep_tables()
    ensures { StepsKeepTables }
{}

/// The first face name, the unbounded face's, stays first.
pub fn steps_keep_first()
    ensures { StepsKeepFirst }
{}

/// Where the records link an edge, what the change has to say follows from the places at both ends and from the tables.
pub fn links_keep_tables()
    ensures { LinksKeepTables }
{}

/// Where they unlink one, it follows from who comes before its darts.
pub fn unlinks_keep_tables()
    ensures { UnlinksKeepTables }
{}

/// The tables beside a sound view stand for its cycles and faces exactly where the whole is a sound view.
pub fn tables_are_sound()
    ensures { TablesAreSound }
{}

/// What is free to choose where a cycle is parted or two are joined, and what the kinds in the tables decide.
pub fn choices_of_kinds()
    ensures { ChoicesOfKinds }
{}

/// What lies within the fresh half of a cycle may be told by counting the other half.
pub fn within_by_either()
    ensures { WithinByEither }
{}

/// Rows written one after another are those of the step, and what is read decides the tables.
pub fn rows_written()
    ensures { RowsWritten }
{}

/// The changes of the records give what the laws ask of the views before and after them.
pub fn records_apart()
    ensures { RecordsApart }
{}

/// Where an edge has one cycle on both sides, names tell faces with it exactly where they do without it.
pub fn one_face_on_both_sides()
    ensures { OneFaceOnBothSides }
{}

/// Cycles are told with an edge exactly where they are without it: a hole, a cycle that grows, two that are joined.
pub fn cycles_apart()
    ensures { CyclesApart }
{}

/// Where an edge with a face on either side goes, two cycles become one, and two faces.
pub fn two_faces_apart()
    ensures { TwoFacesApart }
{}

/// Cycles and faces are told with a vertex without darts exactly where they are without it.
pub fn vertex_steps()
    ensures { VertexSteps }
{}

/// A point that a vertex sees lies in the face at the place of its direction round the vertex.
pub fn faces_ahead()
    ensures { FacesAhead }
{}

/// They are told of an edge in two exactly where they are of the whole edge.
pub fn split_steps()
    ensures { SplitSteps }
{}

/// Of a small map, the tables after each of the eleven changes, with a hole and an isolated vertex that move.
pub fn map_in_steps()
    ensures { MapInSteps }
{}

/// A triangle that loses a side has one face, and one inner cycle round what is left of it.
pub fn triangle_opened()
    ensures { TriangleOpened }
{}

/// It gets its side back, with a fresh face inside.
pub fn triangle_closed()
    ensures { TriangleClosed }
{}
