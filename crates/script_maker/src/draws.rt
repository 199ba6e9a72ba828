ghost use Rattle.std.specs.Prelude.{◌≡◌, ◌/◌, ◌%◌, pos, negsuc, ◌+ℤ◌, ◌-ℤ◌, ◌≤ℤ◌};
ghost use Rattle.script_maker.specs.Script.{next_state, state_after};
ghost use Rattle.script_maker.specs.Remaining.{ends_from};

/// The two ends of a segment.
#[derive(Clone, Copy)]
pub(crate) struct Ends {
    pub(crate) x1: i32,
    pub(crate) y1: i32,
    pub(crate) x2: i32,
    pub(crate) y2: i32,
}

// Moves the state on by one draw, which is from 0 to 32767.
fn draw(state: &mut u32) -> u16
    ensures moved { state.new ≡ next_state state.old }
    ensures drawn { result ≡ state.new / 65536 }
{
    let product = 1103515245 * u64::from(*state) + 12345;
    *state = (product % 2147483648) as u32;
    (*state / 65536) as u16
}

// A coordinate of a first point.
fn coordinate(draw: u16) -> i32
    ensures is { result ≡ pos draw -ℤ pos 16384 }
    ensures low { negsuc 16383 ≤ℤ result }
    ensures high { result ≤ℤ pos 49151 }
{
    i32::from(draw) - 16384
}

// A coordinate of a second point, by that of the first.
fn coordinate_beside(first: i32, draw: u16) -> i32
    requires low { negsuc 16383 ≤ℤ first }
    requires high { first ≤ℤ pos 49151 }
    ensures { result ≡ (first +ℤ pos (draw % 2048)) -ℤ pos 1024 }
{
    first + i32::from(draw % 2048) - 1024
}

/// The ends of the next segment: a first point from two draws, and from two more how far the second point is from it.
pub(crate) fn draw_ends(state: &mut u32) -> Ends
    ensures moved { state.new ≡ state_after state.old 4 }
    ensures drawn { result ≡ ends_from state.old }
{
    let x1 = coordinate(draw(state));
    let y1 = coordinate(draw(state));
    let x2 = coordinate_beside(x1, draw(state));
    let y2 = coordinate_beside(y1, draw(state));
    Ends { x1, y1, x2, y2 }
}
