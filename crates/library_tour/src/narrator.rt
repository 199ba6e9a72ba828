use arrangement::{Answer, Intent, NoMemory, Note, Observer, Point};
use itoa::Buffer;
use std::alloc::Global;

/// An observer that writes down in words what is about to change.
#[derive(Drop)]
pub struct Narrator {
    alloc: Global,
    words: Vec<u8>,
}

impl Narrator {
    /// One that has written nothing yet.
    pub fn new(alloc: Global) -> Narrator {
        Narrator {
            alloc,
            words: Vec::new(alloc),
        }
    }

    fn word(&mut self, text: &str) -> Result<(), NoMemory> {
        self.words.extend_from_slice(text.as_bytes())?;
        Ok(())
    }

    fn number(&mut self, number: i128) -> Result<(), NoMemory> {
        let mut digits = Buffer::new();
        self.word(digits.format(number))
    }

    // A point, as `(x, y)` where its coordinates are whole, else as `(X, Y)/W`.
    fn point(&mut self, point: &Point) -> Result<(), NoMemory> {
        self.word("(")?;
        self.number(point.x())?;
        self.word(", ")?;
        self.number(point.y())?;
        self.word(")")?;
        if point.w() == 1 {
            return Ok(());
        }
        self.word("/")?;
        self.number(point.w())
    }

    // A word and two points.
    fn edge(&mut self, text: &str, low: &Point, high: &Point) -> Result<(), NoMemory> {
        self.word(text)?;
        self.point(low)?;
        self.word(" - ")?;
        self.point(high)
    }

    // A word and a point.
    fn vertex(&mut self, text: &str, point: &Point) -> Result<(), NoMemory> {
        self.word(text)?;
        self.point(point)
    }

    // What is about to change, on a line of its own.
    fn tell(&mut self, intent: &Intent) -> Result<(), NoMemory> {
        match intent {
            Intent::AddVertex(p) => self.vertex("  a vertex comes at ", p)?,
            Intent::RemoveVertex(p) => self.vertex("  the vertex goes at ", p)?,
            Intent::SplitEdge(p, q, r) => {
                self.edge("  the edge ", p, q)?;
                self.vertex(" is split at ", r)?;
            }
            Intent::MergeEdge(p) => self.vertex("  two edges become one at ", p)?,
            Intent::AddEdge(p, q) => self.edge("  an edge comes, ", p, q)?,
            Intent::RemoveEdge(p, q) => self.edge("  the edge goes, ", p, q)?,
            Intent::AddCurve(p, q, _) => self.edge("  one more curve runs along ", p, q)?,
            Intent::RemoveCurve(p, q, _) => self.edge("  one curve fewer runs along ", p, q)?,
            Intent::SetPin(p) => self.vertex("  a pin is set at ", p)?,
            Intent::ClearPin(p) => self.vertex("  a pin is taken from ", p)?,
            Intent::Clear => self.word("  all goes")?,
        }
        self.word("\n")
    }
}

impl Observer for Narrator {
    ghost use Rattle.std.specs.Prelude.{None, false};

    // It tells contracts nothing of itself.
    ghost tells = { λ _. false };

    ghost held = { λ _. None };

    ghost left = { λ _. None };

    ghost heard = { λ _. None };

    fn heed(&mut self, note: &Note) -> Answer {
        match note {
            Note::Before(intent) => match self.tell(intent) {
                Ok(()) => Answer::Stay,
                Err(_) => Answer::NoMemory,
            },
            Note::After(_) | Note::Snapshot(_) => Answer::Stay,
        }
    }

    fn report(&self) -> Result<Vec<u8>, NoMemory> {
        let mut bytes = Vec::new(self.alloc);
        bytes.extend_from_slice(&self.words)?;
        Ok(bytes)
    }
}
