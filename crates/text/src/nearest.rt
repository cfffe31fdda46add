// What a decimal number is taken for: the nearest f32, and a whole number. Over whole numbers alone.
ghost use Rattle.std.specs.Prelude.{◌≡◌, ◌<◌, ◌≤◌, ◌+◌, ◌*◌, ◌^◌};
ghost use Rattle.std.specs.Float.Ieee.Nearest.{closest};
ghost use Rattle.text.specs.Decimals.{nearest_of, whole_in};
ghost use Rattle.text.specs.Rounding.{Long, Lifted, Extra, Normal, Packed};

use crate::Decimal;

// A number with its leading digit brought to the 32nd place, and by how many places.
#[derive(Clone, Copy)]
struct Up {
    n: u64,
    by: u32,
}

fn lifted(n: u32) -> Up
    requires { 0 < n }
    ensures { Lifted n result.n result.by }
{
    let by = u32::leading_zeros(n);
    Up {
        n: (n as u64) << by,
        by,
    }
}

// num / den to the nearest whole number, ties to even. The parity decides where twice the rest is
// den; elsewhere it changes nothing.
fn divided(num: u64, den: u64) -> u64
    requires { Normal num den }
    ensures { result ≡ closest num den }
{
    let q = num / den;
    let twice = num % den * 2;
    if den < twice + q % 2 {
        return q + 1;
    }
    q
}

// The bit pattern of num / den with k binary places more, in units of the smallest f32. A pattern's
// exponent counts the leading digit, which the quotient has too.
fn bits(num: u64, den: u64, k: u32) -> u32
    requires normal { Normal num den }
    requires k_bound { k ≤ 250 }
    ensures { result ≡ k * 2 ^ 23 + closest num den }
{
    k * 0x80_0000 + (divided(num, den) as u32)
}

// How many binary places more the quotient of two lifted numbers needs for 24 digits.
fn extra(a: u64, b: u64) -> u32
    requires long { Long a }
    requires long_2 { Long b }
    ensures { Extra a b result }
{
    if a < b {
        return 24;
    }
    23
}

// The bit pattern of n / d.
fn packed(n: u32, d: u32) -> u32
    requires { 0 < d }
    ensures { Packed n d result }
{
    if n == 0 {
        return 0;
    }
    let a = lifted(n);
    let b = lifted(d);
    let j = extra(a.n, b.n);
    bits(a.n << j, b.n, b.by + 149 - a.by - j)
}

// The f32 nearest to it, ties to even.
pub fn nearest(d: Decimal) -> f32
    requires { d.places ≤ 8 }
    ensures { result ≡ nearest_of d }
{
    let bits = packed(d.digits, 10u32.pow(d.places));
    if d.minus {
        return f32::from_bits(0x8000_0000 + bits);
    }
    f32::from_bits(bits)
}

// A number whose digits after the point are all 0.
pub fn whole(d: Decimal) -> Option<i32>
    requires digits_bound { d.digits < 10 ^ 9 }
    requires places_bound { d.places ≤ 8 }
    ensures { result ≡ whole_in d }
{
    let ten = 10u32.pow(d.places);
    if d.digits % ten != 0 {
        return None;
    }
    let n = (d.digits / ten) as i32;
    Some(if d.minus { -n } else { n })
}
