ghost use Rattle.std.specs.Prelude.{◌≡◌, ◌≤◌, length, option_map};
ghost use Rattle.script_lines.specs.declared.number.TheConstants.{FEW};
ghost use Rattle.script_lines.specs.Number.{digits_number, positive_of, number_of, limited_size, limited_number};

use exact_plane::{MAX_COORDINATE, WEIGHT_LIMIT};

/// No number past this limit is in any range, so that one is read as the limit, however long it is.
pub const NUMBER_LIMIT: u128 = MAX_COORDINATE * WEIGHT_LIMIT;

// So many digits fit in 64 bits, whatever they are.
const FEW: usize = 18;

// The number that few digits write, which is below the limit.
fn few_digits(digits: &[u8]) -> Option<u128>
    requires { length digits.now ≤ FEW }
    ensures { result ≡ option_map limited_size (digits_number digits.now) }
{
    let mut number: u64 = 0;
    for digit in digits {
        if !digit.is_ascii_digit() {
            return None;
        }
        number = 10 * number + u64::from(*digit - b'0');
    }
    Some(u128::from(number))
}

// The number that digits write, kept at the limit.
fn many_digits(digits: &[u8]) -> Option<u128>
    ensures { result ≡ option_map limited_size (digits_number digits.now) }
{
    let mut number = 0;
    for digit in digits {
        if !digit.is_ascii_digit() {
            return None;
        }
        number = (10 * number + u128::from(*digit - b'0')).min(NUMBER_LIMIT);
    }
    Some(number)
}

// The size of a number above 0, of digits without a leading 0.
fn positive(digits: &[u8]) -> Option<u128>
    ensures { result ≡ option_map limited_size (positive_of digits.now) }
{
    if !matches!(digits, [b'1'..=b'9', ..]) {
        return None;
    }
    if digits.len() <= FEW {
        return few_digits(digits);
    }
    many_digits(digits)
}

/// The number that a word is.
///
/// A number is `0`, or an optional `-`, a digit 1 to 9 and any digits, however many; `None` is for any other word. One whose
/// size is past a limit that no number in any range passes is given as that limit with its sign, so that a range is tried on the
/// result as on the number itself.
pub fn read_number(word: &[u8]) -> Option<i128>
    ensures { result ≡ option_map limited_number (number_of word.now) }
{
    match word {
        b"0" => Some(0),
        [b'-', digits @ ..] => {
            let size = positive(digits)?;
            Some(-(size as i128))
        }
        digits => {
            let size = positive(digits)?;
            Some(size as i128)
        }
    }
}
