ghost use Rattle.std.specs.Prelude.{◌≡◌, ◌≤◌, ◌+◌, ◌++◌, ◌∷◌, [], codes, length, map, OnOk};
ghost use Rattle.std.specs.List.{flat_map};
ghost use Rattle.planar_run.specs.Text.{line_of, point_text, cell_text, spaced, ends_line, curve_text, border_text};
ghost use Rattle.arrangement.specs.Answers.{edge_of};

use crate::reply::Reply;
use arrangement::Counts;
use exact_plane::Point;
use itoa::Integer;
use no_memory::NoMemory;
use slab_laws::{Cell, CurveId};
use std::alloc::Global;

// The three numbers of a point, within the room that is there.
fn add_point(reply: &mut Reply, point: &Point)
    requires { length reply.old ≤ 300 }
    ensures text { reply.new ≡ reply.old ++ point_text point.now }
    ensures short { length reply.new ≤ length reply.old + 122 }
{
    reply.add_number(point.x());
    reply.add_text(" ");
    reply.add_number(point.y());
    reply.add_text(" ");
    reply.add_number(point.w());
}

// A word and the two ends of an edge, within the room that is there.
fn add_ends(reply: &mut Reply, word: &str, low: &Point, high: &Point)
    requires word { length word.now ≤ 8 }
    requires room { length reply.old ≤ 100 }
    ensures text { reply.new ≡ reply.old ++ (word.now ++ (point_text low.now ++ 32 ∷ point_text high.now)) }
    ensures short { length reply.new ≤ 400 }
{
    reply.add_text(word);
    add_point(reply, low);
    reply.add_text(" ");
    add_point(reply, high);
}

/// Appends what holds a point, within the room that is there. It takes no memory.
pub fn add_cell(reply: &mut Reply, cell: Cell)
    requires { length reply.old ≤ 100 }
    ensures text { reply.new ≡ reply.old ++ cell_text cell }
    ensures short { length reply.new ≤ 400 }
{
    match cell {
        Cell::Vertex(point) => {
            reply.add_text("vertex ");
            add_point(reply, &point);
        }
        Cell::Edge(low, high) => add_ends(reply, "edge ", &low, &high),
        Cell::Face(rank) => {
            reply.add_text("face ");
            reply.add_number(rank);
        }
    }
}

// A space and a number, within the room that is there.
fn add_spaced<I: Integer>(reply: &mut Reply, number: I)
    requires long { I.MAX_STR_LEN ≤ 40 }
    requires room { length reply.old ≤ 400 }
    ensures text { reply.new ≡ reply.old ++ 32 ∷ I.text number }
    ensures short { length reply.new ≤ length reply.old + 41 }
{
    reply.add_text(" ");
    reply.add_number(number);
}

/// Appends the line of counts, within the room that is there. It takes no memory.
pub fn add_counts(reply: &mut Reply, counts: &Counts)
    requires { length reply.old ≤ 100 }
    ensures { reply.new ≡ reply.old ++ line_of (codes "counts" ++ spaced (counts.now.vertices ∷ counts.now.edges ∷ counts.now.faces ∷ counts.now.inner ∷ counts.now.isolated ∷ counts.now.curves ∷ [])) }
{
    reply.add_text("counts");
    add_spaced(reply, counts.vertices);
    add_spaced(reply, counts.edges);
    add_spaced(reply, counts.faces);
    add_spaced(reply, counts.inner);
    add_spaced(reply, counts.isolated);
    add_spaced(reply, counts.curves);
    reply.add_text("\n");
}

// Appends a word and a number.
fn put_labelled<I: Integer>(reply: &mut Reply, label: &str, number: I) -> Result<(), NoMemory>
    ensures { OnOk result (reply.new ≡ reply.old ++ (label.now ++ I.text number)) }
{
    reply.put_text(label)?;
    reply.put_number(number)
}

/// Appends the line of the curves along an edge.
pub fn put_curves(reply: &mut Reply, curves: &[CurveId]) -> Result<(), NoMemory>
    ensures { OnOk result (reply.new ≡ reply.old ++ line_of (codes "curves" ++ spaced (map (λ c. c.0) curves.now))) }
{
    reply.put_text("curves")?;
    for curve in curves {
        put_labelled(reply, " ", curve.0)?;
    }
    reply.put_text("\n")
}

/// Appends the line of a cell, which is made in the room of another reply.
pub fn put_cell(reply: &mut Reply, line: &mut Reply, cell: Cell) -> Result<(), NoMemory>
    ensures { OnOk result (reply.new ≡ reply.old ++ line_of (cell_text cell)) }
{
    line.clear();
    add_cell(line, cell);
    line.add_text("\n");
    reply.put_bytes(line.as_slice())
}

// Appends for each pair of points a line of a word and both, which is made in the room of another reply.
fn put_ends_lines(
    reply: &mut Reply,
    line: &mut Reply,
    word: &str,
    pairs: &[(Point, Point)],
) -> Result<(), NoMemory>
    requires { length word.now ≤ 8 }
    ensures { OnOk result (reply.new ≡ reply.old ++ flat_map (ends_line word.now) pairs.now) }
{
    for ends in pairs {
        let (first, second) = ends;
        line.clear();
        add_ends(line, word, first, second);
        line.add_text("\n");
        reply.put_bytes(line.as_slice())?;
    }
    Ok(())
}

/// Appends the first line of a text: a word and a number.
pub fn put_head<I: Integer>(reply: &mut Reply, word: &str, number: I) -> Result<(), NoMemory>
    ensures { OnOk result (reply.new ≡ reply.old ++ line_of (word.now ++ I.text number)) }
{
    put_labelled(reply, word, number)?;
    reply.put_text("\n")
}

/// Appends the text of a curve: its number, then its edges, each by its lower and its upper end.
pub fn put_curve(
    alloc: Global,
    reply: &mut Reply,
    curve: u32,
    edges: &[(Point, Point)],
) -> Result<(), NoMemory>
    ensures { OnOk result (reply.new ≡ reply.old ++ curve_text curve (map edge_of edges.now)) }
{
    let mut line = Reply::new(alloc)?;
    put_head(reply, "curve ", curve)?;
    put_ends_lines(reply, &mut line, "e ", edges)?;
    reply.put_text("end\n")
}

/// Appends the text of a region: how many darts are on its border, then each by its source and its target.
pub fn put_region(
    alloc: Global,
    reply: &mut Reply,
    darts: &[(Point, Point)],
) -> Result<(), NoMemory>
    ensures { OnOk result (reply.new ≡ reply.old ++ border_text darts.now) }
{
    let mut line = Reply::new(alloc)?;
    put_head(reply, "region ", darts.len())?;
    put_ends_lines(reply, &mut line, "b ", darts)?;
    reply.put_text("end\n")
}
