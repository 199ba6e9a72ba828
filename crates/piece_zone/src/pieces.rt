ghost use Rattle.std.specs.Prelude.{◌≡◌, ◌++◌, true, option_to_list, IfOk, OnOk};
ghost use Rattle.exact_plane.specs.Segment.{AreEnds};
ghost use Rattle.exact_plane.specs.Span.{span_of_segment};
ghost use Rattle.exact_plane.specs.WholeParts.{bounding_box};
ghost use Rattle.plane_graphs.specs.Ascending.{Member};
ghost use Rattle.slab_laws.specs.Tables.{names};
ghost use Rattle.piece_location.specs.Layers.{IsPastOf};
ghost use Rattle.piece_zone.specs.Told.{AreNamesIn, AreToldOf};
ghost use Rattle.zone_walk.specs.Sources.{AreAllOnEdges};

use crate::told::meeting_with;
use crate::windows::Shown;
use curve_history::History;
use dcel_records::Records;
use exact_plane::{BoundingBox, Segment, Span, line_of};
use no_memory::NoMemory;
use std::alloc::Global;
use zone_walk::{Meeting, MeetingSource};

/// A face with fewer cycles is looked at sooner than the index is asked.
const FEW_CYCLES: usize = 16;

/// So many pieces of the layer come to a cycle of a face at most where the index is asked.
const PIECES_TO_A_CYCLE: usize = 16;

/// With so many cycles it is asked however many pieces there are, so that no more cycles are counted in vain.
const MANY_CYCLES: usize = 256;

/// The pieces of a layer as a source of meeting points, by the index over them.
#[derive(Clone, Copy)]
pub struct PieceSource<'a> {
    pub records: &'a Records,
    /// The history of these records.
    pub history: &'a History,
}

// All of a segment, as a span.
fn whole(segment: &Segment) -> Span
    ensures value { result ≡ span_of_segment segment.now }
    ensures ends { AreEnds segment.now }
{
    Span::between(segment.lower(), segment.upper(), line_of(segment))
}

// The names of the pieces whose boxes meet the box of a segment.
fn names_near(alloc: Global, history: &History, whole: &Span) -> Result<Vec<usize>, NoMemory>
    requires { history.now.indexed ≡ true }
    ensures { IfOk result (λ ns. AreNamesIn history.now (bounding_box whole.now) ns.items) }
{
    history.row_laws();
    let mut shown = Shown {
        history,
        names: Vec::new(alloc),
        failed: false,
    };
    history.visit(&BoundingBox::of(whole), &mut shown);
    if shown.failed {
        return Err(NoMemory);
    }
    Ok(shown.names)
}

// Adds what a piece tells, if it is something.
fn add(meetings: &mut Vec<Meeting>, told: Option<Meeting>) -> Result<(), NoMemory>
    ensures { OnOk result (meetings.new.items ≡ meetings.old.items ++ option_to_list told) }
{
    if let Some(meeting) = told {
        meetings.push(meeting)?;
    }
    Ok(())
}

// What each of the pieces tells of a segment.
fn meetings_of(
    alloc: Global,
    records: &Records,
    history: &History,
    whole: &Span,
    shown: &[usize],
) -> Result<Vec<Meeting>, NoMemory>
    requires past { IsPastOf records.now.graph history.now }
    requires named { (n : _) → Member n shown.now → Member n (names history.now.rows) }
    ensures { IfOk result (λ ms. (s : _) → AreEnds s → whole.now ≡ span_of_segment s → AreToldOf records.now.graph history.now s shown.now ms.items) }
{
    let mut meetings = Vec::new(alloc);
    'each: for name in shown {
        let told = meeting_with(records, history, whole, history.piece(*name));
        add(&mut meetings, told)?;
    }
    Ok(meetings)
}

// The points of a segment, behind its lower end, at which an edge or a vertex with edges is, but for those to which an edge leads.
fn meetings_by_index(
    alloc: Global,
    records: &Records,
    history: &History,
    segment: &Segment,
) -> Result<Vec<Meeting>, NoMemory>
    requires past { IsPastOf records.now.graph history.now }
    requires indexed { history.now.indexed ≡ true }
    ensures { IfOk result (λ ms. AreAllOnEdges records.now.graph segment.now ms.items) }
{
    history.row_laws();
    let whole = whole(segment);
    let near = names_near(alloc, history, &whole)?;
    let meetings = meetings_of(alloc, records, history, &whole, &near)?;
    Ok(meetings)
}

impl<'a> MeetingSource for PieceSource<'a> {
    ghost use Rattle.std.specs.Prelude.{◌≡◌};
    ghost use Rattle.piece_location.specs.Layers.{IsPastOf};

    ghost knows = { λ s v. (v ≡ s.records.now.graph) × IsPastOf v s.history.now };

    // Without the index each piece would be looked at, and without the map from points to vertices each vertex for each meeting.
    fn meetings(&self, alloc: Global, segment: &Segment) -> Result<Option<Vec<Meeting>>, NoMemory> {
        if !self.history.is_indexed() {
            return Ok(None);
        }
        if !self.records.is_mapped() {
            return Ok(None);
        }
        let meetings = meetings_by_index(alloc, self.records, self.history, segment)?;
        Ok(Some(meetings))
    }

    // The box of a long segment has many pieces that it doesn't come near, and a face with few cycles is looked at sooner than these.
    fn pays_from(&self) -> usize {
        let share = self.history.pieces() as usize / PIECES_TO_A_CYCLE;
        share.max(FEW_CYCLES).min(MANY_CYCLES)
    }
}
