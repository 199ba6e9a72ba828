ghost use Rattle.std.specs.Prelude.{◌≡◌, ◌++◌, codes, flat_map, map, IfOk, IfSome, OnOk};
ghost use Rattle.std.specs.Option.{option_map};
ghost use Rattle.plane_graphs.specs.Ascending.{Member};
ghost use Rattle.slab_laws.specs.Sound.{IsGraphSound, edge_in};
ghost use Rattle.slab_laws.specs.Text.{ended, number};
ghost use Rattle.slab_laws.specs.View.{HasVertex, point_in};
ghost use Rattle.arr_notes.specs.Curves.{Curves, AreCurvesOf, IsForward};
ghost use Rattle.arr_notes.specs.CurvedView.{AreListsOf};
ghost use Rattle.arr_notes.specs.RecordGraph.{drawn_graph};
ghost use Rattle.envelope_laws.specs.EnvelopeText.{curves_at, corner_line, stretch_line, outline_lines, outline_text};
ghost use Rattle.lower_envelope.specs.Corners.{IsEnvelopeOf};
ghost use Rattle.lower_envelope.specs.Texts.{AreCurvesRound, HoldsOfGraph};

use crate::corner::Envelope;
use arr_text::{put_number, put_point, put_text};
use envelope_laws::Which;
use no_memory::NoMemory;
use slab_laws::{CurveId, Curved, DartId, VertexId};
use std::alloc::Global;

// The curves of the edges that end at a vertex, once round it; one that runs along several of them is there several times.
fn curves_round<R: Curved>(
    alloc: Global,
    records: &R,
    vertex: VertexId,
) -> Result<Vec<CurveId>, NoMemory>
    requires sound { IsGraphSound (R.graph records.now) }
    requires vertex { HasVertex (R.graph records.now) vertex }
    ensures { IfOk result (λ v. AreCurvesRound (R.graph records.now) (R.curve_list records.now) vertex v.items) }
{
    let mut curves = Vec::new(alloc);
    let Some(first) = records.out_of(vertex) else {
        return Ok(curves);
    };
    // The round begins just after the first dart, and so ends with it.
    let mut dart = records.next(records.twin(first));
    'ring: loop {
        let along = records.curves(alloc, dart)?;
        curves.extend_from_slice(&along)?;
        if dart == first {
            return Ok(curves);
        }
        dart = records.next(records.twin(dart));
    }
}

// The curves of the edges that end at a vertex, ascending, each once.
fn curves_at<R: Curved>(
    alloc: Global,
    records: &R,
    vertex: VertexId,
) -> Result<Vec<CurveId>, NoMemory>
    requires sound { IsGraphSound (R.graph records.now) }
    requires vertex { HasVertex (R.graph records.now) vertex }
    ensures { HoldsOfGraph (R.graph records.now) (R.curve_list records.now)
        (λ g. IfOk result (λ v. map (λ c. c.0) v.items ≡ curves_at g (point_in (R.graph records.now) vertex))) }
{
    let mut curves = curves_round(alloc, records, vertex)?;
    curves.sort_unstable();
    curves.dedup();
    Ok(curves)
}

// Puts the rest of a line, after its points: the numbers of curves.
fn put_curves(out: &mut Vec<u8>, curves: &[CurveId]) -> Result<(), NoMemory>
    ensures { OnOk result (out.new.items
        ≡ out.old.items ++ ended (codes " :" ++ flat_map number (map (λ c. c.0) curves.now))) }
{
    put_text(out, " :")?;
    for curve in curves {
        put_number(out, curve.0)?;
    }
    put_text(out, "\n")
}

// Puts the line of a vertex.
fn put_vertex<R: Curved>(
    alloc: Global,
    out: &mut Vec<u8>,
    records: &R,
    vertex: VertexId,
) -> Result<(), NoMemory>
    requires sound { IsGraphSound (R.graph records.now) }
    requires vertex { HasVertex (R.graph records.now) vertex }
    ensures { HoldsOfGraph (R.graph records.now) (R.curve_list records.now)
        (λ g. OnOk result (out.new.items ≡ out.old.items ++ corner_line g (point_in (R.graph records.now) vertex))) }
{
    let curves = curves_at(alloc, records, vertex)?;
    put_text(out, "v")?;
    put_point(out, &records.point(vertex))?;
    put_curves(out, &curves)
}

// Puts the line of the edge of a dart that goes from its lower to its upper end.
fn put_edge<R: Curved>(
    alloc: Global,
    out: &mut Vec<u8>,
    records: &R,
    dart: DartId,
) -> Result<(), NoMemory>
    requires sound { IsGraphSound (R.graph records.now) }
    requires forward { IsForward (R.graph records.now) dart }
    ensures { HoldsOfGraph (R.graph records.now) (R.curve_list records.now)
        (λ g. OnOk result (out.new.items ≡ out.old.items ++ stretch_line g (Some (edge_in (R.graph records.now) dart)))) }
{
    let curves = records.curves(alloc, dart)?;
    put_text(out, "e")?;
    put_point(out, &records.point(records.source(dart)))?;
    put_point(out, &records.point(records.target(dart)))?;
    put_curves(out, &curves)
}

// Puts the line of what is between two neighbours: an edge, or a gap.
fn put_stretch<R: Curved>(
    alloc: Global,
    out: &mut Vec<u8>,
    records: &R,
    stretch: Option<DartId>,
) -> Result<(), NoMemory>
    requires sound { IsGraphSound (R.graph records.now) }
    requires forward { IfSome stretch (IsForward (R.graph records.now)) }
    ensures { HoldsOfGraph (R.graph records.now) (R.curve_list records.now) (λ g. OnOk result
        (out.new.items ≡ out.old.items ++ stretch_line g (option_map (edge_in (R.graph records.now)) stretch))) }
{
    match stretch {
        Some(dart) => put_edge(alloc, out, records, dart),
        None => put_text(out, "gap\n"),
    }
}

// Puts the lines of vertices and of what is between them, in turn.
fn put_outline<R: Curved>(
    alloc: Global,
    out: &mut Vec<u8>,
    records: &R,
    vertices: &[VertexId],
    between: &[Option<DartId>],
) -> Result<(), NoMemory>
    requires sound { IsGraphSound (R.graph records.now) }
    requires have { (u : VertexId) → Member u vertices.now → HasVertex (R.graph records.now) u }
    requires forward { (d : DartId) → Member (Some d) between.now → IsForward (R.graph records.now) d }
    ensures { HoldsOfGraph (R.graph records.now) (R.curve_list records.now) (λ g. OnOk result
        (out.new.items ≡ out.old.items ++ outline_lines g (map (point_in (R.graph records.now)) vertices.now)
        (map (option_map (edge_in (R.graph records.now))) between.now))) }
{
    for place in 0..vertices.len() {
        put_vertex(alloc, out, records, vertices[place])?;
        if place < between.len() {
            put_stretch(alloc, out, records, between[place])?;
        }
    }
    Ok(())
}

// Puts all lines of the text of an envelope.
fn put_envelope<R: Curved>(
    alloc: Global,
    out: &mut Vec<u8>,
    records: &R,
    which: Which,
    envelope: &Envelope,
) -> Result<(), NoMemory>
    requires sound { IsGraphSound (R.graph records.now) }
    requires envelope { IsEnvelopeOf which (R.graph records.now) envelope.now }
    ensures { HoldsOfGraph (R.graph records.now) (R.curve_list records.now)
        (λ g. OnOk result (out.new.items ≡ out.old.items ++ outline_text which g)) }
{
    let vertices = envelope.vertices.as_slice();
    put_text(out, "envelope")?;
    put_number(out, vertices.len())?;
    put_text(out, "\n")?;
    put_outline(alloc, out, records, vertices, envelope.between.as_slice())?;
    put_text(out, "end\n")
}

/// The text of the lower or the upper envelope of what records draw, with the curves that run there (CGAL manual, envelopes; the
/// format is this project's), from the envelope as [`envelope_of`](crate::envelope_of) finds it.
///
/// Its lines, each with byte 10 at its end: `envelope n`, where n is the number of its vertices; for each vertex, from left to right,
/// `v X Y W :` and the curves of all edges that end at it, and between each two neighbours `e X Y W X Y W :` with the lower end, the
/// upper end and the curves of the edge there, or `gap` where there is none; `end`. Curves are their numbers, ascending, each once.
///
/// It goes once round each vertex of the envelope, and sorts the curves that it meets there. All else takes time in proportion to the
/// text.
///
/// # Errors
///
/// There was no memory for the text, or for the curves of one vertex or edge.
pub fn text_of<R: Curved>(
    alloc: Global,
    records: &R,
    which: Which,
    envelope: &Envelope,
) -> Result<Vec<u8>, NoMemory>
    requires sound { IsGraphSound (R.graph records.now) }
    requires envelope { IsEnvelopeOf which (R.graph records.now) envelope.now }
    ensures { (h : Curves) → AreCurvesOf (R.graph records.now) h → AreListsOf (R.graph records.now) h (R.curve_list records.now)
        → IfOk result (λ bytes. bytes.items ≡ outline_text which (drawn_graph (R.graph records.now) h)) }
{
    let mut out = Vec::new(alloc);
    put_envelope(alloc, &mut out, records, which, envelope)?;
    Ok(out)
}
