// What the library does with single f32s: tests and bits. No call of a C library.
#![tactic(auto)]

ghost use Rattle.std.specs.Prelude.{◌≡◌, not};
ghost use Rattle.std.specs.Float.Ieee.Scale.{finite};
ghost use Rattle.exact.specs.Tests as tests;
ghost use Rattle.float32.specs.Bits.{bits_of, float_of};

use std::num::{f32_from_bits_with_nan, f32_to_bits_with_nan};

// The least and the most that the squares of a sine and a cosine add to: 1 - 2^-20 and 1 + 2^-20.
const CIRCLE_LEAST: f32 = f32::from_bits(0x3f7f_fff0);

const CIRCLE_MOST: f32 = f32::from_bits(0x3f80_0008);

// No NaN and no infinity. Two comparisons: std's `is_finite` subtracts first, which takes longer in
// `off_circle`.
#[tactic(auto, using(crate::proofs::Checks::above_least, crate::proofs::Checks::not_above))]
pub fn is_finite(x: f32) -> bool
    ensures { result ≡ finite x }
{
    f32::NEG_INFINITY < x && x < f32::INFINITY
}

// The size of x: that of a zero, of either sign, is +0.
#[tactic(auto, using(crate::proofs::Checks::abs_is))]
pub fn abs(x: f32) -> f32
    ensures { result ≡ tests.abs x }
{
    x.abs()
}

// Over the cap in size, or a NaN: no comparison with a NaN holds, so the one that accepts is asked.
#[tactic(auto, unfolding(exact::specs::Tests::capped))]
pub fn over_cap(x: f32, cap: f32) -> bool
    ensures { result ≡ not (tests.capped cap x) }
{
    !(abs(x) <= cap)
}

// Not between lo and hi, or a NaN.
pub fn outside(x: f32, lo: f32, hi: f32) -> bool
    ensures { result ≡ not (tests.between lo hi x) }
{
    !(lo <= x && x <= hi)
}

// No sine and cosine of one angle: a member is not finite, or the squares do not add to 1.
#[tactic(auto, unfolding(exact::specs::Tests::circle))]
pub fn off_circle(s: f32, c: f32) -> bool
    ensures { result ≡ not (tests.circle s c) }
{
    !is_finite(s) || !is_finite(c) || outside(s * s + c * c, CIRCLE_LEAST, CIRCLE_MOST)
}

// The bit pattern of x. Every NaN is written as one, so that the answer does not turn on which.
pub fn to_bits(x: f32) -> u32
    ensures { result ≡ bits_of x }
{
    f32_to_bits_with_nan(x)
}

// The float of any pattern. All patterns above the infinity's, their signs left out, are NaNs.
pub fn from_bits(b: u32) -> f32
    ensures { result ≡ float_of b }
{
    f32_from_bits_with_nan(b)
}
