// Helpers over the bits and the comparisons of f64. Each takes any float and refuses nothing.
#![tactic(auto)]

ghost use Rattle.std.specs.Prelude.{◌≡◌};
ghost use Rattle.std.specs.Float.{binary64};
ghost use Rattle.std.specs.Float.Ieee.{of_bits, to_bits};
ghost use Rattle.float.specs.Float.{magnitude_of, sign_bit};

use std::num::{f64_from_bits_with_nan, f64_to_bits_with_nan};

// x without its sign: +0 of either zero, the NaN of a NaN. `x.abs()` asks one thing more: where four are added,
// as for an edge, it takes 31 instructions and this 25.
#[tactic(auto, using(crate::proofs::WithoutSign::up_to_zero, crate::proofs::WithoutSign::above_zero))]
pub fn magnitude(x: f64) -> f64
    ensures { result ≡ magnitude_of x }
{
    if x <= 0.0 { 0.0 - x } else { x }
}

// Whether the sign bit is set, also of a zero; no of a NaN.
pub fn sign_bit(x: f64) -> bool
    ensures { result ≡ sign_bit x }
{
    !x.is_nan() && x.is_sign_negative()
}

// The float of a bit pattern: of every pattern of a NaN the one NaN.
pub fn from_bits(n: u64) -> f64
    ensures { result ≡ of_bits binary64 n }
{
    f64_from_bits_with_nan(n)
}

// The bit pattern of a float: 7ff8000000000000 of a NaN.
pub fn to_bits(x: f64) -> u64
    ensures { result ≡ to_bits binary64 x }
{
    f64_to_bits_with_nan(x)
}
