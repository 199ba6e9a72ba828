//! Whole numbers: the greatest common divisor, and for proofs the laws of sums, products, signs, sizes and
//! ratios.
//!
//! `specs/` has the definitions. `proofs/` has the lemmas that the crates above cite: `Reify` solves equations
//! of rings, `Machine` shows that signed arithmetic stays in its machine word, `Signs` and `Compare` have
//! orders, `Bezout` and `Reduce` lowest terms.
#![tactic(auto)]

mod divisor;

pub use divisor::{greatest_common_divisor, quotient};
