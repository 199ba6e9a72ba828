ghost use Rattle.std.specs.Prelude.{◌≡◌, ◌≤◌, ◌++◌, [], length, Ok, codes, decimal, OnOk, OnErr};
ghost use Rattle.script_lines.specs.LineError.{refusal_number};
ghost use Rattle.planar_run.specs.Text.{line_of};
ghost use Rattle.planar_run.specs.Answer.{IsNumbered, IsObeyed, MayTake, Replies};
ghost use Rattle.planar_run.specs.Rows.{world_row, IsKeptWorld};

use crate::edits::{clear, cut, drop_curve, merge, path, pin, segment, split, unpin};
use crate::layers::layer;
use crate::observers::{attach, leave, mirror};
use crate::questions::{
    batch, count, curve, edge, envelope, locate, overlay, region, show, vertical,
};
use crate::reply::{REPLY_ROOM, Reply};
use crate::world::World;
use no_memory::NoMemory;
use script_lines::{Command, LineError, read_line};

// Does what a command says, and makes its reply in place of nothing.
fn obey(world: &mut World, command: Command, reply: &mut Reply) -> Result<(), NoMemory>
    requires empty { reply.old ≡ [] }
    requires numbered { IsNumbered command }
    requires kept { IsKeptWorld Observer-dyn world.old }
    ensures obeyed { OnOk result (IsObeyed (world_row Observer-dyn world.old) (Ok command) reply.new (world_row Observer-dyn world.new)) }
    ensures err { OnErr result (MayTake (world_row Observer-dyn world.old) (Ok command) × (world_row Observer-dyn world.new ≡ world_row Observer-dyn world.old)) }
    ensures kept { IsKeptWorld Observer-dyn world.new }
{
    match command {
        Command::Nothing => Ok(()),
        Command::Segment(x1, y1, x2, y2) => segment(world, x1, y1, x2, y2, reply),
        Command::Path(points) => path(world, &points, reply),
        Command::Drop(number) => drop_curve(world, number, reply),
        Command::Cut(p, q) => cut(world, &p, &q, reply),
        Command::Pin(point) => pin(world, &point, reply),
        Command::Unpin(point) => {
            unpin(world, &point, reply);
            Ok(())
        }
        Command::Split(p, q, r) => split(world, &p, &q, &r, reply),
        Command::Merge(point) => {
            merge(world, &point, reply);
            Ok(())
        }
        Command::Clear => {
            clear(world, reply);
            Ok(())
        }
        Command::Locate(point) => locate(world, &point, reply),
        Command::Edge(p, q) => edge(world, &p, &q, reply),
        Command::Curve(number) => curve(world, number, reply),
        Command::Count => {
            count(world, reply);
            Ok(())
        }
        Command::Show => show(world, reply),
        Command::Overlay => overlay(world, reply),
        Command::Region(op) => region(world, op, reply),
        Command::Vertical => vertical(world, reply),
        Command::Batch(points) => batch(world, &points, reply),
        Command::Envelope(which) => envelope(world, which, reply),
        Command::Attach(number, when) => attach(world, number, when, reply),
        Command::Leave(number, when) => {
            leave(world, number, when, reply);
            Ok(())
        }
        Command::Mirror(number) => mirror(world, number, reply),
        Command::LayerRed => {
            layer(world, false, reply);
            Ok(())
        }
        Command::LayerBlue => {
            layer(world, true, reply);
            Ok(())
        }
    }
}

// The reply to a line that is no command.
fn refusal(error: LineError) -> &'static str
    ensures text { result.now ≡ line_of (codes "refused " ++ decimal (refusal_number error)) }
    ensures short { length result.now ≤ REPLY_ROOM }
{
    match error {
        LineError::Word => "refused 1\n",
        LineError::Count => "refused 2\n",
        LineError::Number => "refused 3\n",
        LineError::Range => "refused 4\n",
        LineError::Long => "refused 5\n",
        LineError::Byte => "refused 6\n",
    }
}

/// Makes the reply to a line, and does to the world what the line says.
pub fn answer(world: &mut World, line: &[u8], reply: &mut Reply)
    requires kept { IsKeptWorld Observer-dyn world.old }
    ensures replied { Replies (world_row Observer-dyn world.old) line.now reply.new (world_row Observer-dyn world.new) }
    ensures kept { IsKeptWorld Observer-dyn world.new }
{
    reply.clear();
    match read_line(line) {
        Err(error) => reply.set(refusal(error)),
        Ok(command) => match obey(world, command, reply) {
            Ok(()) => {}
            Err(_) => reply.set("no memory\n"),
        },
    }
}
