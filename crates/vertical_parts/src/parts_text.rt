ghost use Rattle.std.specs.Prelude.{◌≡◌, ◌++◌, flat_map, codes, Option, Some, IfOk, OnOk};
ghost use Rattle.slab_laws.specs.Sound.{skeleton_of};
ghost use Rattle.slab_laws.specs.Text.{ended, number};
ghost use Rattle.slab_laws.specs.View.{point_in};
ghost use Rattle.dcel_records.specs.SoundMaps.{IsSoundMap};
ghost use Rattle.vertical_laws.specs.Vertical.{Stop, edge, vertex};
ghost use Rattle.vertical_laws.specs.VerticalText.{stop_text, stops_line, vertical_text};
ghost use Rattle.vertical_parts.specs.VerticalParts.{ArePartsOf, IsNamed, IsPartOf};

use crate::vertical::{Next, Part, parts};
use arr_text::{put_number, put_point, put_text};
use dcel_records::Records;
use exact_plane::Point;
use no_memory::NoMemory;
use slab_laws::Darts;
use std::alloc::Global;

// Puts the first line: how many vertices there are.
fn put_title(out: &mut Vec<u8>, vertices: usize) -> Result<(), NoMemory>
    ensures { OnOk result (out.new.items ≡ out.old.items ++ ended (codes "vertical" ++ number vertices)) }
{
    put_text(out, "vertical")?;
    put_number(out, vertices)?;
    put_text(out, "\n")
}

// Puts a vertex, by its point.
fn put_vertex(out: &mut Vec<u8>, point: &Point) -> Result<(), NoMemory>
    ensures { OnOk result (out.new.items ≡ out.old.items ++ stop_text (Some (vertex point.now))) }
{
    put_text(out, " vertex")?;
    put_point(out, point)
}

// Puts an edge, by its lower and its upper end.
fn put_edge(out: &mut Vec<u8>, lower: &Point, upper: &Point) -> Result<(), NoMemory>
    ensures { OnOk result
        (out.new.items ≡ out.old.items ++ stop_text (Some (edge (record { low = lower.now; high = upper.now })))) }
{
    put_text(out, " edge")?;
    put_point(out, lower)?;
    put_point(out, upper)
}

// Puts what is next on a wall, by points.
fn put_stop(out: &mut Vec<u8>, records: &Records, next: Next) -> Result<(), NoMemory>
    requires map { IsSoundMap records.now }
    requires named { (o : Option Stop) × IsNamed records.now.graph next o }
    ensures { OnOk result
        ((o : Option Stop) → IsNamed records.now.graph next o → out.new.items ≡ out.old.items ++ stop_text o) }
{
    match next {
        Next::Vertex(vertex) => put_vertex(out, &records.point(vertex)),
        Next::Edge(dart) => {
            // It goes from the lower to the upper end.
            let lower = records.point(records.source(dart));
            let upper = records.point(records.target(dart));
            put_edge(out, &lower, &upper)
        }
        Next::Open => put_text(out, " none"),
    }
}

// Puts the line of a vertex.
fn put_line(out: &mut Vec<u8>, records: &Records, part: &Part) -> Result<(), NoMemory>
    requires map { IsSoundMap records.now }
    requires part { IsPartOf records.now.graph part.now }
    ensures { OnOk result (out.new.items
        ≡ out.old.items ++ stops_line (skeleton_of records.now.graph) (point_in records.now.graph part.now.vertex)) }
{
    put_text(out, "v")?;
    put_point(out, &records.point(part.vertex))?;
    put_text(out, " above")?;
    put_stop(out, records, part.above)?;
    put_text(out, " below")?;
    put_stop(out, records, part.below)?;
    put_text(out, "\n")
}

// Puts the lines of all vertices, in their order.
fn put_lines(out: &mut Vec<u8>, records: &Records, parts: &[Part]) -> Result<(), NoMemory>
    requires map { IsSoundMap records.now }
    requires parts { ArePartsOf records.now.graph parts.now }
    ensures { OnOk result (out.new.items
        ≡ out.old.items ++ flat_map (stops_line (skeleton_of records.now.graph)) (skeleton_of records.now.graph).vertices) }
{
    for part in parts {
        put_line(out, records, part)?;
    }
    Ok(())
}

/// The text of what is directly above and directly below each vertex, as [`parts`] finds it.
///
/// Its lines, each with byte 10 at its end: `vertical V`, with the number of vertices; for each vertex in point order
/// `v X Y W above A below B`; `end`. A and B are `none`, `vertex X Y W`, or `edge X Y W X Y W`, an edge by its lower and then its
/// upper end. X, Y and W are the three numbers of a point, which is at (X / W, Y / W) in whole plane units.
///
/// It takes one sweep over the edges: some n log n comparisons for n vertices and edges, and moves in the list of the edges that the
/// sweep meets. All else takes time in proportion to the text. The records stay as they are.
///
/// # Errors
///
/// There was no memory for the text or for a list on the way.
pub fn text(alloc: Global, records: &Records) -> Result<Vec<u8>, NoMemory>
    requires { IsSoundMap records.now }
    ensures { IfOk result (λ bytes. bytes.items ≡ vertical_text (skeleton_of records.now.graph)) }
{
    let listed = parts(alloc, records)?;
    let mut out = Vec::new(alloc);
    put_title(&mut out, listed.len())?;
    put_lines(&mut out, records, &listed)?;
    put_text(&mut out, "end\n")?;
    Ok(out)
}
