ghost use Rattle.std.specs.Prelude.{◌≡◌, ◌≢◌, ◌≤◌, Ok, Some, OnErr, OnOk};
ghost use Rattle.script_lines.specs.declared.command.Command.TheVariants.{Attach, Leave, Mirror};
ghost use Rattle.planar_run.specs.Answer.{IsAnswered, IsObeyed, MayTake};
ghost use Rattle.planar_run.specs.Rows.{world_row, IsKeptWorld};

use crate::places::AttachRefusal;
use crate::reply::Reply;
use crate::world::World;
use arrangement::ReportError;
use no_memory::NoMemory;

/// Seats an observer that waits, or plans its join.
pub fn attach(
    world: &mut World,
    number: u32,
    when: Option<u32>,
    reply: &mut Reply,
) -> Result<(), NoMemory>
    requires number { 1 ≤ number }
    requires when { when ≢ Some 0 }
    requires kept { IsKeptWorld Observer-dyn world.old }
    ensures answered { OnOk result (IsAnswered (world_row Observer-dyn world.old) (Ok (Attach number when)) reply.new (world_row Observer-dyn world.new)) }
    ensures err { OnErr result (MayTake (world_row Observer-dyn world.old) (Ok (Attach number when)) × (world_row Observer-dyn world.new ≡ world_row Observer-dyn world.old)) }
    ensures kept { IsKeptWorld Observer-dyn world.new }
{
    match world.attach(number, when) {
        Ok(()) => reply.set("ok\n"),
        Err(AttachRefusal::Gone) => reply.set("refused 14\n"),
        Err(AttachRefusal::Taken) => reply.set("refused 15\n"),
        Err(AttachRefusal::Full) => reply.set("refused 17\n"),
        Err(AttachRefusal::NoMemory) => return Err(NoMemory),
    }
    Ok(())
}

/// Lets a seated observer go, or plans it. It takes no memory.
pub fn leave(world: &mut World, number: u32, when: Option<u32>, reply: &mut Reply)
    requires when { when ≢ Some 0 }
    requires kept { IsKeptWorld Observer-dyn world.old }
    ensures answered { IsAnswered (world_row Observer-dyn world.old) (Ok (Leave number when)) reply.new (world_row Observer-dyn world.new) }
    ensures kept { IsKeptWorld Observer-dyn world.new }
{
    if !world.has(number) {
        reply.set("refused 14\n");
        return;
    }
    match world.leave(number, when) {
        Ok(()) => reply.set("ok\n"),
        Err(_) => reply.set("refused 16\n"),
    }
}

/// Tells the report of a seated observer.
pub fn mirror(world: &World, number: u32, reply: &mut Reply) -> Result<(), NoMemory>
    requires kept { IsKeptWorld Observer-dyn world.now }
    ensures obeyed { OnOk result (IsObeyed (world_row Observer-dyn world.now) (Ok (Mirror number)) reply.new (world_row Observer-dyn world.now)) }
    ensures err { OnErr result (MayTake (world_row Observer-dyn world.now) (Ok (Mirror number))) }
{
    if !world.has(number) {
        reply.set("refused 14\n");
        return Ok(());
    }
    match world.report(number) {
        Ok(bytes) => reply.set_bytes(bytes),
        Err(ReportError::NoSeat) => reply.set("refused 16\n"),
        Err(ReportError::NoMemory) => return Err(NoMemory),
    }
    Ok(())
}
