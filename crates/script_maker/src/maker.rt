ghost use Rattle.std.specs.Prelude.{◌≡◌, ◌∷◌, ◌≤◌, [], take, IfSome, IsNone};
ghost use Rattle.script_maker.specs.Script.{script};
ghost use Rattle.script_maker.specs.Remaining.{stage_after};

use crate::draws::draw_ends;
use crate::put::{put_drop, put_segment, put_text};
use std::marker::Model;

/// The bytes of the buffer that a line is written into, as many as a script's line may have.
pub const LINE_ROOM: usize = 200;

// Which line comes next.
#[derive(Clone, Copy)]
enum Stage {
    // That of the next segment, or the last line where no segment is left.
    Segments,
    // The one that drops a curve, behind every eighth segment.
    Drop,
    // None: the last line was given.
    Over,
}

/// The lines of a made script, of which callers see those that are left.
///
/// After each segment whose number k, from 1 on, is divisible by 8 comes a line that drops curve k / 2; the last line is `count`.
#[derive(Drop)]
pub struct Maker {
    // How many segments are left.
    left: u32,
    // How many were given.
    given: u32,
    state: u32,
    stage: Stage,
}

impl Model for Maker {
    ghost use Rattle.std.specs.Prelude.{ℕ, ◌+◌, ◌^◌, ◌<◌, List};
    ghost use Rattle.script_maker.specs.Remaining.{remaining};

    ghost Value = { List (List ℕ) };

    ghost view = { λ m. remaining m.stage m.left m.given m.state };

    ghost invariant = { λ m. m.left + m.given < 2 ^ 32 };
}

// What comes behind the segment of this number.
fn stage_after(given: u32) -> Stage
    ensures { result ≡ stage_after given }
{
    if given % 8 == 0 {
        Stage::Drop
    } else {
        Stage::Segments
    }
}

impl Maker {
    /// All lines of the script of so many segments and a seed.
    pub fn new(segments: u32, seed: u32) -> Maker
        ensures { result ≡ script segments seed }
    {
        Maker {
            left: segments,
            given: 0,
            state: seed,
            stage: Stage::Segments,
        }
    }

    /// Writes the next line to the front of the buffer, without a line end, and answers how many bytes it has; None where no
    /// line is left.
    pub fn next_line(&mut self, buffer: &mut [u8; LINE_ROOM]) -> Option<usize>
        ensures within { IfSome result (λ n. n ≤ LINE_ROOM) }
        ensures next { IfSome result (λ n. self.old ≡ take n buffer.new ∷ self.new) }
        ensures over { IsNone result → (self.old ≡ []) × (self.new ≡ []) }
    {
        match self.stage {
            Stage::Over => None,
            Stage::Drop => {
                self.stage = Stage::Segments;
                Some(put_drop(buffer, self.given / 2))
            }
            Stage::Segments => {
                if self.left == 0 {
                    self.stage = Stage::Over;
                    return Some(put_text(buffer, 0, "count"));
                }
                self.left -= 1;
                self.given += 1;
                self.stage = stage_after(self.given);
                Some(put_segment(buffer, draw_ends(&mut self.state)))
            }
        }
    }
}
