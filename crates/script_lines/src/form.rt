ghost use Rattle.std.specs.Prelude.{◌≡◌, ◌≤◌, true, [], ◌∷◌, length};
ghost use Rattle.std.specs.List.{list_all};
ghost use Rattle.exact_plane.specs.Segment.{is_coordinate, are_coordinates};
ghost use Rattle.script_lines.specs.Words.{words};
ghost use Rattle.script_lines.specs.Form.{forms_reading, numbers_reading, numbers_of};
ghost use Rattle.script_lines.specs.Command.{empty_form, point_form, point_from, pair_form, pair_from, triple_form, triple_from, number_to, curve_form, curve_from, observer_form, observer_from, observer_at_form, observer_at_from, observer_when_forms, segment_form, segment_from, pairs, path_form, path_forms, path_from, batch_from, batch_made, batch_form, batch_forms, layer_forms, region_forms, envelope_forms};

use crate::command::Command;
use crate::error::LineError;
use crate::number::read_number;
use crate::points::{BatchPoints, PathPoints};
use crate::words::{count_words, next_word, only_word, three_words};
use envelope_laws::Which;
use exact_plane::{MAX_COORDINATE, Point};
use set_laws::Op;

// The greatest number of an observer.
const MAX_OBSERVER: u32 = 64;

// The greatest number of rounds from now.
const MAX_ROUND: u32 = 1_000_000;

// The numbers of a line of so many words, each within the limit of `read_number`. A word that is no number tells only once the
// count of words is known to be right.
fn numbers<const N: usize>(line: &[u8]) -> Result<[i128; N], LineError>
    ensures { result ≡ numbers_of N (words line.now) }
{
    let mut numbers = [0; N];
    let mut are_read = true;
    let mut rest = line;
    for slot in &mut numbers {
        let Some((word, behind)) = next_word(rest) else {
            return Err(LineError::Count);
        };
        let number = read_number(word);
        are_read &= number.is_some();
        *slot = number.unwrap_or(0);
        rest = behind;
    }
    match next_word(rest) {
        Some(_) => Err(LineError::Count),
        None if are_read => Ok(numbers),
        None => Err(LineError::Number),
    }
}

// The point of three numbers, where they are in range.
fn point_from(numbers: &[i128]) -> Option<Point>
    ensures { result ≡ point_from numbers.now }
{
    match *numbers {
        [x, y, w] => Point::new(x, y, w).ok(),
        _ => None,
    }
}

/// The point of a line `X Y W`, which needn't be in lowest terms.
pub fn point(line: &[u8]) -> Result<Point, LineError>
    ensures { result ≡ forms_reading (point_form ∷ []) (words line.now) }
{
    let numbers = numbers::<3>(line)?;
    point_from(&numbers).ok_or(LineError::Range)
}

// The two points of six numbers, where both are in range.
fn pair_from(numbers: &[i128]) -> Option<(Point, Point)>
    requires { length numbers.now ≡ 6 }
    ensures { result ≡ pair_from numbers.now }
{
    let (first, second) = numbers.split_at(3);
    point_from(first).zip(point_from(second))
}

/// The two points of a line `X Y W X Y W`, which may be equal.
pub fn pair(line: &[u8]) -> Result<(Point, Point), LineError>
    ensures { result ≡ forms_reading (pair_form ∷ []) (words line.now) }
{
    let numbers = numbers::<6>(line)?;
    pair_from(&numbers).ok_or(LineError::Range)
}

// The three points of nine numbers, where all are in range.
fn triple_from(numbers: &[i128]) -> Option<((Point, Point), Point)>
    requires { length numbers.now ≡ 9 }
    ensures { result ≡ triple_from numbers.now }
{
    let (pair, third) = numbers.split_at(6);
    pair_from(pair).zip(point_from(third))
}

/// The three points of a line `X Y W X Y W X Y W`, of which some may be equal.
pub fn triple(line: &[u8]) -> Result<((Point, Point), Point), LineError>
    ensures { result ≡ forms_reading (triple_form ∷ []) (words line.now) }
{
    let numbers = numbers::<9>(line)?;
    triple_from(&numbers).ok_or(LineError::Range)
}

// The number, where it is from 1 to the greatest.
fn number_to(greatest: u32, number: i128) -> Option<u32>
    ensures { result ≡ number_to greatest number }
{
    if number < 1 || i128::from(greatest) < number {
        return None;
    }
    Some(number as u32)
}

// The curve's number of one number, where it is in range.
fn curve_from(numbers: [i128; 1]) -> Option<u32>
    ensures { result ≡ curve_from numbers }
{
    let [number] = numbers;
    number_to(u32::MAX, number)
}

/// The curve's number of a line `c`, from 1 to 4294967295.
pub fn curve(line: &[u8]) -> Result<u32, LineError>
    ensures { result ≡ forms_reading (curve_form ∷ []) (words line.now) }
{
    let numbers = numbers(line)?;
    curve_from(numbers).ok_or(LineError::Range)
}

// The observer's number of one number, where it is in range.
fn observer_from(numbers: [i128; 1]) -> Option<u32>
    ensures { result ≡ observer_from numbers }
{
    let [number] = numbers;
    number_to(MAX_OBSERVER, number)
}

/// The observer's number of a line `i`, from 1 to 64.
pub fn observer(line: &[u8]) -> Result<u32, LineError>
    ensures { result ≡ forms_reading (observer_form ∷ []) (words line.now) }
{
    let numbers = numbers(line)?;
    observer_from(numbers).ok_or(LineError::Range)
}

// The observer and the round of two numbers, where both are in range.
fn observer_at_from(numbers: [i128; 2]) -> Option<(u32, Option<u32>)>
    ensures { result ≡ observer_at_from numbers }
{
    let [observer, round] = numbers;
    let round = number_to(MAX_ROUND, round)?;
    Some((number_to(MAX_OBSERVER, observer)?, Some(round)))
}

// The observer and the round that two words say.
fn observer_at_words(observer: &[u8], round: &[u8]) -> Result<(u32, Option<u32>), LineError>
    ensures { result ≡ numbers_reading observer_at_from (observer.now ∷ round.now ∷ []) }
{
    let observer = read_number(observer).ok_or(LineError::Number)?;
    let round = read_number(round).ok_or(LineError::Number)?;
    observer_at_from([observer, round]).ok_or(LineError::Range)
}

// The observer and the round of a line `i at n`, the round from 1 to 1000000.
fn observer_at(line: &[u8]) -> Result<(u32, Option<u32>), LineError>
    ensures { result ≡ forms_reading (observer_at_form ∷ []) (words line.now) }
{
    match three_words(line) {
        None => Err(LineError::Count),
        Some((observer, b"at", round)) => observer_at_words(observer, round),
        Some(_) => Err(LineError::Word),
    }
}

/// The observer of a line `i` with no round, or of a line `i at n` with the round n.
pub fn observer_when(line: &[u8]) -> Result<(u32, Option<u32>), LineError>
    ensures { result ≡ forms_reading observer_when_forms (words line.now) }
{
    if count_words(line) == 3 {
        return observer_at(line);
    }
    observer(line).map(|observer| (observer, None))
}

fn is_coordinate(number: i128) -> bool
    ensures { result ≡ is_coordinate number }
{
    number.unsigned_abs() <= MAX_COORDINATE
}

fn are_coordinates(x1: i128, y1: i128, x2: i128, y2: i128) -> bool
    ensures { result ≡ are_coordinates x1 y1 x2 y2 }
{
    is_coordinate(x1) && is_coordinate(y1) && is_coordinate(x2) && is_coordinate(y2)
}

// The segment command of the numbers of two ends, where they are in range.
fn segment_from(numbers: [i128; 4]) -> Option<Command>
    ensures { result ≡ segment_from numbers }
{
    let [x1, y1, x2, y2] = numbers;
    if !are_coordinates(x1, y1, x2, y2) {
        return None;
    }
    Some(Command::Segment(x1 as i64, y1 as i64, x2 as i64, y2 as i64))
}

/// The command of a line `x1 y1 x2 y2`, whose two ends may be one point.
pub fn segment(line: &[u8]) -> Result<Command, LineError>
    ensures { result ≡ forms_reading (segment_form ∷ []) (words line.now) }
{
    let numbers = numbers(line)?;
    segment_from(numbers).ok_or(LineError::Range)
}

// The points of the numbers of a path, two each.
fn points_of(numbers: &[i128]) -> PathPoints
    requires few { length numbers.now ≤ 18 }
    requires range { list_all is_coordinate numbers.now ≡ true }
    ensures { result ≡ pairs numbers.now }
{
    let mut points = PathPoints::new();
    let mut rest = numbers;
    while let [x, y, behind @ ..] = rest {
        points.push(*x as i64, *y as i64);
        rest = behind;
    }
    points
}

fn all_coordinates(numbers: &[i128]) -> bool
    ensures { result ≡ list_all is_coordinate numbers.now }
{
    numbers.iter().all(|number| is_coordinate(*number))
}

// The path command of the numbers of its points, where they are in range.
fn path_from(numbers: &[i128]) -> Option<Command>
    requires { length numbers.now ≤ 18 }
    ensures { result ≡ path_from numbers.now }
{
    if !all_coordinates(numbers) {
        return None;
    }
    Some(Command::Path(points_of(numbers)))
}

// The path command of a line of so many numbers.
fn path_of<const N: usize>(line: &[u8]) -> Result<Command, LineError>
    requires { N ≤ 18 }
    ensures { result ≡ forms_reading (path_form N ∷ []) (words line.now) }
{
    let numbers = numbers::<N>(line)?;
    path_from(&numbers).ok_or(LineError::Range)
}

/// The command of a line `x0 y0 x1 y1 .. xk yk` of two to nine points, of which some may be equal.
pub fn path(line: &[u8]) -> Result<Command, LineError>
    ensures { result ≡ forms_reading path_forms (words line.now) }
{
    match count_words(line) {
        4 => path_of::<4>(line),
        6 => path_of::<6>(line),
        8 => path_of::<8>(line),
        10 => path_of::<10>(line),
        12 => path_of::<12>(line),
        14 => path_of::<14>(line),
        16 => path_of::<16>(line),
        18 => path_of::<18>(line),
        _ => Err(LineError::Count),
    }
}

// The points of the numbers of a batch, three each, where all are in range.
fn batch_from(numbers: &[i128]) -> Option<BatchPoints>
    requires { length numbers.now ≤ 24 }
    ensures { result ≡ batch_from numbers.now }
{
    let mut points = BatchPoints::new();
    let mut rest = numbers;
    while rest.len() >= 3 {
        let (front, behind) = rest.split_at(3);
        points.push(point_from(front)?);
        rest = behind;
    }
    Some(points)
}

// The batch command of the numbers of its points, where they are in range.
fn batch_command(numbers: &[i128]) -> Option<Command>
    requires { length numbers.now ≤ 24 }
    ensures { result ≡ batch_made numbers.now }
{
    batch_from(numbers).map(Command::Batch)
}

// The batch command of a line of so many numbers.
fn batch_of<const N: usize>(line: &[u8]) -> Result<Command, LineError>
    requires { N ≤ 24 }
    ensures { result ≡ forms_reading (batch_form N ∷ []) (words line.now) }
{
    let numbers = numbers::<N>(line)?;
    batch_command(&numbers).ok_or(LineError::Range)
}

/// The command of a line `X Y W .. X Y W` of one to eight points, of which some may be equal.
pub fn batch(line: &[u8]) -> Result<Command, LineError>
    ensures { result ≡ forms_reading batch_forms (words line.now) }
{
    match count_words(line) {
        3 => batch_of::<3>(line),
        6 => batch_of::<6>(line),
        9 => batch_of::<9>(line),
        12 => batch_of::<12>(line),
        15 => batch_of::<15>(line),
        18 => batch_of::<18>(line),
        21 => batch_of::<21>(line),
        24 => batch_of::<24>(line),
        _ => Err(LineError::Count),
    }
}

/// The command of a line `red` or `blue`.
pub fn layer(line: &[u8]) -> Result<Command, LineError>
    ensures { result ≡ forms_reading layer_forms (words line.now) }
{
    match only_word(line) {
        None => Err(LineError::Count),
        Some(b"red") => Ok(Command::LayerRed),
        Some(b"blue") => Ok(Command::LayerBlue),
        Some(_) => Err(LineError::Word),
    }
}

// The command of the one word behind `region`. Whole words are compared: by a `match`, each byte of each word would be a case of
// the refusal.
fn region_of(word: &[u8]) -> Result<Command, LineError>
    ensures { result ≡ forms_reading region_forms (word.now ∷ []) }
{
    if "union".as_bytes() == word {
        return Ok(Command::Region(Op::Union));
    }
    if "intersection".as_bytes() == word {
        return Ok(Command::Region(Op::Intersection));
    }
    if "difference".as_bytes() == word {
        return Ok(Command::Region(Op::Difference));
    }
    if "symmetric".as_bytes() == word {
        return Ok(Command::Region(Op::Symmetric));
    }
    Err(LineError::Word)
}

/// The command of a line `union`, `intersection`, `difference` or `symmetric`.
pub fn region(line: &[u8]) -> Result<Command, LineError>
    ensures { result ≡ forms_reading region_forms (words line.now) }
{
    match only_word(line) {
        None => Err(LineError::Count),
        Some(word) => region_of(word),
    }
}

/// The command of a line `lower` or `upper`.
pub fn envelope(line: &[u8]) -> Result<Command, LineError>
    ensures { result ≡ forms_reading envelope_forms (words line.now) }
{
    match only_word(line) {
        None => Err(LineError::Count),
        Some(b"lower") => Ok(Command::Envelope(Which::Lower)),
        Some(b"upper") => Ok(Command::Envelope(Which::Upper)),
        Some(_) => Err(LineError::Word),
    }
}

/// The command, where no word stands in the line.
pub fn bare_command(line: &[u8], command: Command) -> Result<Command, LineError>
    ensures { result ≡ forms_reading (empty_form command ∷ []) (words line.now) }
{
    match next_word(line) {
        None => Ok(command),
        Some(_) => Err(LineError::Count),
    }
}
