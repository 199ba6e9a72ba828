ghost use Rattle.std.specs.Prelude.{◌≡◌, ◌+◌, ◌++◌, ◌∷◌, ◌≤◌, decimal, length, take};
ghost use Rattle.script_maker.specs.Script.{drop_line, segment_line};

use crate::draws::Ends;
use itoa::{Buffer, Integer};

/// Writes a text behind what is there, and answers where it ends.
pub(crate) fn put_text(buffer: &mut [u8], at: usize, text: &str) -> usize
    requires { at + length text.now ≤ length buffer.old }
    ensures end { result ≡ at + length text.now }
    ensures put { take result buffer.new ≡ take at buffer.old ++ text.now }
{
    let end = at + text.len();
    buffer[at..end].copy_from_slice(text.as_bytes());
    end
}

// Writes a space and a number.
fn put_number<I: Integer>(buffer: &mut [u8], at: usize, number: I) -> usize
    requires { at + 41 ≤ length buffer.old }
    ensures end { result ≤ at + 41 }
    ensures put { take result buffer.new ≡ take at buffer.old ++ 32 ∷ I.text number }
{
    let mut digits = Buffer::new();
    let at = put_text(buffer, at, " ");
    put_text(buffer, at, digits.format(number))
}

/// Writes the line of a segment, by the numbers of its ends.
pub(crate) fn put_segment(buffer: &mut [u8], ends: Ends) -> usize
    requires { 171 ≤ length buffer.old }
    ensures end { result ≤ 171 }
    ensures put { take result buffer.new ≡ segment_line ends }
{
    let at = put_text(buffer, 0, "segment");
    let at = put_number(buffer, at, ends.x1);
    let at = put_number(buffer, at, ends.y1);
    let at = put_number(buffer, at, ends.x2);
    put_number(buffer, at, ends.y2)
}

/// Writes the line that drops a curve.
pub(crate) fn put_drop(buffer: &mut [u8], curve: u32) -> usize
    requires { 45 ≤ length buffer.old }
    ensures end { result ≤ 45 }
    ensures put { take result buffer.new ≡ drop_line curve }
{
    let at = put_text(buffer, 0, "drop");
    put_number(buffer, at, curve)
}
