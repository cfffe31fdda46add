// A correctly rounded square root of an f32, over whole numbers.
ghost use Rattle.std.specs.Prelude.{◌+◌, ◌-◌, ◌/◌, ◌%◌, ◌^◌, ◌<◌, ◌≤◌, ◌≡◌, IsTrue};
ghost use Rattle.roots.specs.Root.{sqrt_of, rootable};
ghost use Rattle.roots.specs.Parts.{Nearest, Lifted, Packed, spread};

use std::num::f64_to_bits_with_nan;

// No NaN and not below zero. No comparison with a NaN holds, so the one that accepts is asked.
#[tactic(auto, using(crate::proofs::Answer::test_is))]
pub fn has_root(x: f32) -> bool
    ensures { result ≡ rootable x }
{
    0.0 <= x
}

// A whole number whose root has 24 binary digits, also when it is rounded.
#[derive(Clone, Copy)]
struct Radicand {
    value: u64,
    ghost least: { 2 ^ 46 ≤ value },
    ghost most: { value ≤ 2 ^ 48 - 2 ^ 24 },
}

impl Radicand {
    // A whole number near the root, by two steps of Heron's rule in f64 from a parabola. It is there for
    // speed, and nothing is claimed of it: `nearest_root` tests it. (2^52 added, the last places of an
    // f64 are its whole part, rounded.)
    fn guess(self) -> u64 {
        let v = self.value as f64;
        let a = (6.270524152877852e-8 - v * 6.69835564680521e-23) * v + 4349951.5;
        let b = (a + v / a) * 0.5;
        let t = (b + v / b) * 0.5 + 4503599627370496.0;
        f64_to_bits_with_nan(t) % 0x200_0000
    }

    // g is the whole number nearest to the root. (The square is taken once, for speed.)
    fn is_nearest(self, g: u64) -> bool
        ensures { IsTrue result → Nearest self.value g }
    {
        if 0x80_0000 <= g && g < 0x100_0000 {
            let square = g * g;
            square < self.value + g && self.value <= square + g
        } else {
            false
        }
    }

    // The whole number nearest to the root: the guess, if it is the one.
    fn nearest_root(self) -> u64
        ensures { Nearest self.value result }
    {
        let g = self.guess();
        if self.is_nearest(g) {
            g
        } else {
            let floor = self.value.isqrt();
            if floor * floor + floor < self.value {
                floor + 1
            } else {
                floor
            }
        }
    }
}

// An f32 above zero: digits * 2 ^ (exponent - 214), with 24 binary digits.
#[derive(Clone, Copy)]
struct Scaled {
    digits: u32,
    exponent: u32,
    ghost least: { 2 ^ 23 ≤ digits },
    ghost most: { digits < 2 ^ 24 },
    ghost bound: { exponent ≤ 318 },
}

impl Scaled {
    // t of the smallest f32, with its leading digit brought to the 24th place.
    fn lifted(t: u32) -> Scaled
        requires t_nonzero { 0 < t }
        requires t_bound { t < 2 ^ 23 }
        ensures { Lifted t result.digits result.exponent }
    {
        let places = t.leading_zeros() - 8;
        Scaled {
            digits: t << places,
            exponent: 65 - places,
        }
    }

    // The f32 with the bit pattern b.
    fn normal(b: u32) -> Scaled
        requires least { 2 ^ 23 ≤ b }
        requires most { b < 0x7f80_0000 }
        ensures digits { result.digits ≡ b % 2 ^ 23 + 2 ^ 23 }
        ensures exponent { result.exponent ≡ b / 2 ^ 23 + 64 }
    {
        Scaled {
            digits: b % 0x80_0000 + 0x80_0000,
            exponent: b / 0x80_0000 + 64,
        }
    }

    // The digits with places after them: the whole number whose root is the root's 24 digits.
    fn spread(self) -> Radicand
        ensures { result.value ≡ spread self.digits self.exponent }
    {
        let digits = self.digits as u64;
        if self.exponent % 2 == 0 {
            Radicand {
                value: digits * 0x100_0000,
            }
        } else {
            Radicand {
                value: digits * 0x80_0000,
            }
        }
    }

    // The bit pattern of the root.
    fn root_bits(self) -> u32
        ensures { Packed self.digits self.exponent result }
    {
        let q = self.spread().nearest_root();
        ((self.exponent + 1) / 2 + 30) * 0x80_0000 + (q as u32)
    }

    // b is that bit pattern. A pattern's exponent counts the leading digit, which q has too.
    fn is_root_bits(self, b: u32) -> bool
        ensures { IsTrue result → Packed self.digits self.exponent b }
    {
        b / 0x80_0000 == (self.exponent + 1) / 2 + 31
            && self.spread().is_nearest((b % 0x80_0000 + 0x80_0000) as u64)
    }
}

// The root of x, the nearest f32. +0, -0 and +inf, whose patterns the first test finds, are their own
// roots.
pub fn rounded_root(x: f32) -> f32
    requires { IsTrue (rootable x) }
    ensures { result ≡ sqrt_of x }
{
    let b = x.to_bits();
    if b == 0 || 0x7f80_0000 <= b {
        x
    } else if b < 0x80_0000 {
        f32::from_bits(Scaled::lifted(b).root_bits())
    } else {
        f32::from_bits(Scaled::normal(b).root_bits())
    }
}

// y is the root of x. Only asked of a y that is likely to be it: where x is zero, subnormal or
// infinite the answer is no.
pub fn is_root(x: f32, y: f32) -> bool
    ensures { IsTrue result → y ≡ sqrt_of x }
{
    let b = float32::to_bits(x);
    0x80_0000 <= b && b < 0x7f80_0000 && Scaled::normal(b).is_root_bits(float32::to_bits(y))
}
