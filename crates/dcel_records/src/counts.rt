ghost use Rattle.std.specs.Prelude.{◌≡◌, length};

use crate::records::Records;

/// How many rows of each kind records have, and how many of their vertices are isolated.
#[derive(Clone, Copy)]
pub struct RecordCounts {
    pub vertices: usize,
    pub darts: usize,
    pub cycles: usize,
    pub faces: usize,
    pub isolated: usize,
}

impl Records {
    /// How many there are of each kind. Each number is kept, so it takes constant time.
    pub fn counts(&self) -> RecordCounts
        ensures vertices { result.vertices ≡ length self.now.graph.vertices }
        ensures darts { result.darts ≡ length self.now.graph.darts }
        ensures cycles { result.cycles ≡ length self.now.faces.tables.cycles }
        ensures faces { result.faces ≡ length self.now.faces.tables.faces }
        ensures isolated { result.isolated ≡ length self.now.faces.tables.bare }
    {
        RecordCounts {
            vertices: self.vertices.len(),
            darts: self.darts.len(),
            cycles: self.cycles.len(),
            faces: self.faces.len(),
            isolated: self.isolated,
        }
    }
}
