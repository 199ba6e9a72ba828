ghost use Rattle.std.specs.Prelude.{◌≡◌, ◌+◌, ◌^◌, ◌<◌, ◌≤◌, pos, int_div};
ghost use Rattle.std.specs.Int.{IsGcd};
ghost use Rattle.integers.specs.Divisor.{gcd};

/// The greatest common divisor, by Euclid's steps; 0 of two zeros.
pub fn greatest_common_divisor(a: u64, b: u64) -> u64
    ensures value { result ≡ gcd a b }
    ensures greatest { IsGcd a b result }
    ensures positive { 0 < a + b → 0 < result }
    ensures within_first { 0 < a → result ≤ a }
    ensures within_second { 0 < b → result ≤ b }
{
    let mut x = a;
    let mut y = b;
    'steps: while y != 0 {
        let rest = x % y;
        x = y;
        y = rest;
    }
    x
}

/// The number divided by another, rounded towards 0.
pub fn quotient(number: i64, by: u64) -> i64
    requires some { 0 < by }
    requires small { by < 2 ^ 63 }
    ensures { result ≡ int_div number (pos by) }
{
    number / by as i64
}
