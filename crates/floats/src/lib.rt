// Binary64 beyond the operators: bit patterns in and out, total at a NaN too, and the larger of two.

#![tactic(auto)]

ghost use Rattle.std.specs.Prelude.{◌≡◌};
ghost use Rattle.std.specs.Float.{binary64};
ghost use Rattle.std.specs.Float.Ieee.{of_bits, to_bits};
ghost use Rattle.floats.specs.Ops.{larger};

use std::num;

// Every pattern has a value. The patterns of a NaN all have the one NaN.
pub fn of_bits(b: u64) -> f64
    ensures { result ≡ of_bits binary64 b }
{
    num::f64_from_bits_with_nan(b)
}

// Every value has a pattern. The NaN has the quiet one with a clear sign.
pub fn bits_of(x: f64) -> u64
    ensures { result ≡ to_bits binary64 x }
{
    num::f64_to_bits_with_nan(x)
}

// The second where the first is below it, else the first: Rust's `max` of two numbers.
pub fn larger(a: f64, b: f64) -> f64
    ensures { result ≡ larger a b }
{
    if a < b { b } else { a }
}
