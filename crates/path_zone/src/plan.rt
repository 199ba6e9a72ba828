ghost use Rattle.std.specs.Prelude.{◌≡◌};

use std::marker::Model;
use zone_walk::Meeting;

/// The plan of the insertion of a curve of several sides: the vertices on the sides once they are inserted, ascending, each once with
/// its spot before that.
#[derive(Drop)]
pub struct PathPlan {
    pub(crate) meetings: Vec<Meeting>,
}

impl Model for PathPlan {
    ghost use Rattle.path_zone.specs.Plan.{PathPlan as Planned};

    ghost Value = { Planned };

    ghost view = { λ p. record { vertices = p.meetings.items } };
}

impl PathPlan {
    /// The vertices.
    pub fn vertices(&self) -> &[Meeting]
        ensures { result.now ≡ self.now.vertices }
    {
        &self.meetings
    }

    /// The vertices, to be changed.
    pub fn into_vertices(self) -> Vec<Meeting>
        ensures { result.items ≡ self.vertices }
    {
        self.meetings
    }
}
