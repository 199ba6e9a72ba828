ghost use Rattle.arrangement.specs.Arranged.{arranged, IsWatched};

use arrangement::{Arrangement, CurveId, Path, Point, Segment};
use script_lines::{Command, PathPoints};

fn draw(layer: &mut Arrangement, x1: i64, y1: i64, x2: i64, y2: i64)
    requires watched { IsWatched (arranged Observer-dyn layer.old) }
    ensures watched { IsWatched (arranged Observer-dyn layer.new) }
{
    match Segment::new(x1, y1, x2, y2) {
        Ok(segment) => {
            let _curve = layer.insert(segment);
        }
        Err(_) => {}
    }
}

fn draw_path(layer: &mut Arrangement, points: &PathPoints)
    requires watched { IsWatched (arranged Observer-dyn layer.old) }
    ensures watched { IsWatched (arranged Observer-dyn layer.new) }
{
    match Path::new(points.as_slice()) {
        Ok(path) => {
            let _curve = layer.insert_path(&path);
        }
        Err(_) => {}
    }
}

fn cut(layer: &mut Arrangement, p: &Point, q: &Point)
    requires watched { IsWatched (arranged Observer-dyn layer.old) }
    ensures watched { IsWatched (arranged Observer-dyn layer.new) }
{
    let _gone = layer.remove_edge(p, q);
}

// The edits that pin a point, or unpin one.
fn mark(layer: &mut Arrangement, command: &Command)
    requires watched { IsWatched (arranged Observer-dyn layer.old) }
    ensures watched { IsWatched (arranged Observer-dyn layer.new) }
{
    match command {
        Command::Pin(p) => {
            let _pinned = layer.pin(p);
        }
        Command::Unpin(p) => {
            let _unpinned = layer.unpin(p);
        }
        Command::Split(p, q, r) => {
            let _split = layer.split_edge(p, q, r);
        }
        Command::Merge(r) => {
            let _merged = layer.merge_edge(r);
        }
        _ => {}
    }
}

/// Makes the edit that a line asks for; what is refused changes nothing.
pub fn apply(layer: &mut Arrangement, command: &Command)
    requires watched { IsWatched (arranged Observer-dyn layer.old) }
    ensures watched { IsWatched (arranged Observer-dyn layer.new) }
{
    match command {
        Command::Segment(x1, y1, x2, y2) => draw(layer, *x1, *y1, *x2, *y2),
        Command::Path(points) => draw_path(layer, points),
        Command::Drop(curve) => {
            let _gone = layer.remove_curve(CurveId(*curve));
        }
        Command::Cut(p, q) => cut(layer, p, q),
        Command::Clear => layer.clear(),
        _ => mark(layer, command),
    }
}
