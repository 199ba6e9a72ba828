use arrangement::{Answer, Intent, Note, Observer};
use exact_plane::Point;
use no_memory::NoMemory;
use std::alloc::Global;

/// An observer that writes down what it is told: `#` for a snapshot, a letter and points for what is about to change, and `.` for what was
/// changed. It tells no view, and stays; its report is what it wrote.
#[derive(Drop)]
pub struct Scribe {
    alloc: Global,
    written: Vec<u8>,
}

impl Scribe {
    /// One that wrote nothing.
    pub fn new(alloc: Global) -> Scribe {
        Scribe {
            alloc,
            written: Vec::new(alloc),
        }
    }
}

// A coordinate, where it is a whole number below ten.
fn digit(number: i128) -> u8 {
    match u8::try_from(number) {
        Ok(0) => b'0',
        Ok(2) => b'2',
        Ok(4) => b'4',
        Ok(6) => b'6',
        Ok(8) => b'8',
        _ => b'?',
    }
}

fn write_point(written: &mut Vec<u8>, point: &Point) -> Result<(), NoMemory> {
    written.push(digit(point.x()))?;
    written.push(digit(point.y()))?;
    Ok(())
}

fn write_points(written: &mut Vec<u8>, letter: u8, points: &[Point]) -> Result<(), NoMemory> {
    written.push(letter)?;
    for point in points {
        write_point(written, point)?;
    }
    Ok(())
}

fn write_intent(written: &mut Vec<u8>, intent: &Intent) -> Result<(), NoMemory> {
    match intent {
        Intent::AddVertex(p) => write_points(written, b'v', &[*p]),
        Intent::RemoveVertex(p) => write_points(written, b'x', &[*p]),
        Intent::SplitEdge(p, q, r) => write_points(written, b's', &[*p, *q, *r]),
        Intent::MergeEdge(p) => write_points(written, b'm', &[*p]),
        Intent::AddEdge(p, q) => write_points(written, b'e', &[*p, *q]),
        Intent::RemoveEdge(p, q) => write_points(written, b'd', &[*p, *q]),
        Intent::AddCurve(p, q, _) => write_points(written, b'+', &[*p, *q]),
        Intent::RemoveCurve(p, q, _) => write_points(written, b'-', &[*p, *q]),
        Intent::SetPin(p) => write_points(written, b'p', &[*p]),
        Intent::ClearPin(p) => write_points(written, b'u', &[*p]),
        Intent::Clear => write_points(written, b'c', &[]),
    }
}

fn write_note(written: &mut Vec<u8>, note: &Note) -> Result<(), NoMemory> {
    match note {
        Note::Before(intent) => write_intent(written, intent),
        Note::After(_) => write_points(written, b'.', &[]),
        Note::Snapshot(_) => write_points(written, b'#', &[]),
    }
}

impl Observer for Scribe {
    ghost use Rattle.std.specs.Prelude.{None, false};

    ghost tells = { λ _. false };

    ghost held = { λ _. None };

    ghost left = { λ _. None };

    ghost heard = { λ _. None };

    fn heed(&mut self, note: &Note) -> Answer {
        match write_note(&mut self.written, note) {
            Ok(()) => Answer::Stay,
            Err(NoMemory) => Answer::NoMemory,
        }
    }

    fn report(&self) -> Result<Vec<u8>, NoMemory> {
        let mut bytes = Vec::new(self.alloc);
        bytes.extend_from_slice(&self.written)?;
        Ok(bytes)
    }
}
