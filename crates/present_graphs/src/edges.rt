ghost use Rattle.std.specs.Prelude.{◌≡◌, ◌↔◌, ◌&&◌, map, IsTrue, IfOk};
ghost use Rattle.plane_graphs.specs.Fit.{IsFit};
ghost use Rattle.plane_graphs.specs.Graph.{edges, graph, is_at, edge_of as edge_of_mark};
ghost use Rattle.slab_laws.specs.SpansDrawn.{edge_of};
ghost use Rattle.slab_laws.specs.Pieces.{present_of};
ghost use Rattle.present_graphs.specs.Edges.{AreAlongPieces, HasSpan, IsAlong, IsLast};
ghost use Rattle.present_graphs.specs.Marks.{mark_of};
ghost use Rattle.present_graphs.specs.Spans.{lies_on};

use crate::marks::Mark;
use crate::pieces::{holds, spans_of};
use exact_plane::Span;
use no_memory::NoMemory;
use slab_laws::Present;
use std::alloc::Global;

// Whether both ends of the mark's edge are on the span.
fn holds_edge(span: &Span, mark: &Mark) -> bool
    ensures { result ≡ (lies_on span.now mark.now.low && lies_on span.now mark.now.high) }
{
    holds(span, &mark.low) && holds(span, &mark.high)
}

// The edge of a mark, as a part of the line of the first span that holds it.
fn edge_along(spans: &[Span], mark: &Mark) -> Span
    requires { HasSpan spans.now (mark_of mark.now) }
    ensures { IsAlong spans.now (mark_of mark.now) result }
{
    for span in spans {
        if holds_edge(span, mark) {
            return Span::between(mark.low, mark.high, span.line());
        }
    }
    unreachable!()
}

// Whether the span joins the ends of the mark's edge.
fn joins(span: &Span, mark: &Mark) -> bool
    ensures { result ≡ is_at span.now.lower span.now.upper (mark_of mark.now) }
{
    mark.low == span.lower() && mark.high == span.upper()
}

// Whether the mark's edge is the last one.
fn is_last(edges: &[Span], mark: &Mark) -> bool
    ensures { IsTrue result ↔ IsLast (edge_of_mark (mark_of mark.now)) (map edge_of edges.now) }
{
    match edges {
        [.., last] => joins(last, mark),
        [] => false,
    }
}

/// The edges, ascending, each as the part of the line of a piece that holds it.
///
/// It takes the marks of the present, and looks at the pieces for each edge until one holds it. Fails with `NoMemory`
/// where there is no memory for the edges and the lines of the pieces.
pub fn edges_of(alloc: Global, present: &Present, marks: &[Mark]) -> Result<Vec<Span>, NoMemory>
    requires fit { IsFit (present_of present.now) }
    requires marks { map mark_of marks.now ≡ (graph (present_of present.now)).marks }
    ensures edges { IfOk result (λ es. map edge_of es.items ≡ edges (graph (present_of present.now))) }
    ensures lines { IfOk result (λ es. AreAlongPieces (present_of present.now) es.items) }
{
    let spans = spans_of(alloc, present.pieces.as_slice())?;
    let mut edges = Vec::new(alloc);
    for mark in marks {
        if !is_last(&edges, mark) {
            edges.push(edge_along(&spans, mark))?;
        }
    }
    Ok(edges)
}
