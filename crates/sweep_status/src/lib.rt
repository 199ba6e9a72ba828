//! The status of a plane sweep: the places, in a list that the sweep was given, of what its line meets, from bottom to top (Fogel,
//! Halperin and Wein: status line). Which places stand in it, and in which order, is the business of each sweep; here is how an event
//! exchanges some of them, in the memory that the status has.
#![tactic(auto)]

ghost use Rattle.std.specs.Prelude.{◌≡◌, ◌≤◌, ◌+◌, ◌-◌, ◌++◌, length, take, drop, IsOk, OnOk, OnErr};
ghost use Rattle.std.specs.List.{splice};
ghost use Rattle.std.specs.Vec.{vec_capacity};

use no_memory::NoMemory;

// Writes a run over the places from `low` on.
fn write_over(status: &mut [usize], low: usize, run: &[usize])
    requires { low + length run.now ≤ length status.old }
    ensures { status.new ≡ splice status.old low (low + length run.now) run.now }
{
    status[low..low + run.len()].copy_from_slice(run);
}

// Moves what stands from `high` up to `end` to where it is to stand, from `top` on, and cuts off what comes after it.
fn move_above(status: &mut Vec<usize>, high: usize, end: usize, top: usize)
    requires in_turn { high ≤ end }
    requires in_bounds { end ≤ length status.old.items }
    requires room { top + (end - high) ≤ length status.old.items }
    ensures { status.new.items ≡ take top status.old.items ++ take (end - high) (drop high status.old.items) }
{
    if top != high {
        status.copy_within(high..end, top);
    }
    status.truncate(top + (end - high));
}

/// Puts a run of places where those from `low` up to `high` stand. Nothing is allocated where the status has room for all that then
/// stand in it, and what stands above is moved only where the run has another length than what goes.
///
/// # Errors
///
/// There was no memory. The status is as it was.
pub fn replace(
    status: &mut Vec<usize>,
    low: usize,
    high: usize,
    run: &[usize],
) -> Result<(), NoMemory>
    requires in_turn { low ≤ high }
    requires in_bounds { high ≤ length status.old.items }
    ensures ok { OnOk result (status.new.items ≡ splice status.old.items low high run.now) }
    ensures room { length status.old.items + length run.now ≤ high - low + vec_capacity status.old → IsOk result }
    ensures err { OnErr result (status.new.items ≡ status.old.items) }
{
    let end = status.len();
    let (_, more) = run.split_at(run.len().min(high - low));
    status.extend_from_slice(more)?;
    let top = low + run.len();
    move_above(status, high, end, top);
    write_over(status, low, run);
    Ok(())
}
