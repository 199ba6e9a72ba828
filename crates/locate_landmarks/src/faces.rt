//! Over an edge from one face into another.
ghost use Rattle.std.specs.Option.{option_map};
ghost use Rattle.std.specs.Prelude.{◌≡◌, IfSome};
ghost use Rattle.slab_laws.specs.View.{HasDart, HasFace, twin_in};
ghost use Rattle.dcel_records.specs.RecordsView.{tables_of};
ghost use Rattle.locate_landmarks.specs.Walks.{face_beside, is_dart};

use counted_looks::{Glance, NameCalls};
use slab_laws::{DartId, FaceId};

/// The twin of a dart, if there is one.
pub fn dart_across(glance: &Glance, dart: Option<DartId>) -> Option<DartId>
    requires dart { IfSome dart (HasDart glance.now.graph) }
    ensures { result ≡ option_map (twin_in glance.now.graph) dart }
{
    match dart {
        Some(dart) => Some(glance.twin(dart)),
        None => None,
    }
}

/// The face on the right of a dart; with none, the face itself.
pub fn face_beside(glance: &Glance, face: FaceId, dart: Option<DartId>) -> FaceId
    requires face { HasFace (tables_of glance.now) face }
    requires dart { IfSome dart (HasDart glance.now.graph) }
    ensures beside { result ≡ face_beside glance.now.graph (tables_of glance.now) face dart }
    ensures has { HasFace (tables_of glance.now) result }
{
    match dart {
        Some(dart) => glance.face(glance.cycle(glance.twin(dart))),
        None => face,
    }
}

/// Whether it is this dart.
#[inline(always)]
pub fn is_dart(entry: Option<DartId>, dart: DartId) -> bool
    ensures { result ≡ is_dart entry dart }
{
    match entry {
        Some(other) => other == dart,
        None => false,
    }
}
