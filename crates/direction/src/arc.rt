// The angle of a point by whole numbers, in units of 2^-24 degree.
ghost use Rattle.std.specs.Prelude.{◌≡◌, ℕ, ◌<◌, ◌≤◌, ◌+◌, ◌*◌, ◌^◌};
ghost use Rattle.trig.specs.Fixed.{step_of};
ghost use Rattle.direction.specs.Direction.{arc_part, arc_of, ratio_of, octant_of, quadrant_of, digits_of, place_of, units_at};

// One in the fixed point of the sum.
const ONE: u64 = 0x4000_0000;

// Angles, in units of 2^-24 degree.
const DEGREES_45: u64 = 754974720;

pub const DEGREES_90: u64 = 1509949440;

// One term more of the arctangent's Taylor sum, in units of 2^-30: 1 - j * z / (j + 2) * h. (`trig` has a
// step of its own: a public one may ask nothing of its caller.)
#[tactic(auto, using(crate::proofs::Sizes::step_fits, crate::proofs::Sizes::step_cut, crate::proofs::Sizes::step_share), unfolding(trig::specs::Fixed::step_of))]
fn arc_step(z: u64, h: u64, j: u64) -> u64
    requires z_bound { z ≤ 186413511 }
    requires h_bound { h ≤ ONE }
    requires j_bound { j ≤ 13 }
    ensures value { result ≡ step_of ONE j (j + 2) z h }
    ensures upper_bound { result ≤ ONE }
{
    ONE - j * z / (j + 2) * h / ONE
}

// arctan r / r for z = r * r.
#[tactic(auto, using(crate::proofs::Sizes::part_is))]
fn arc_part(z: u64) -> u64
    requires { z ≤ 186413511 }
    ensures value { result ≡ arc_part z }
    ensures upper_bound { result ≤ ONE }
{
    let a = arc_step(z, ONE, 13);
    let b = arc_step(z, a, 11);
    let c = arc_step(z, b, 9);
    let d = arc_step(z, c, 7);
    let e = arc_step(z, d, 5);
    let f = arc_step(z, e, 3);
    arc_step(z, f, 1)
}

// The arctangent of r, at most 5 / 12.
#[tactic(auto, using(crate::proofs::Sizes::arc_square, crate::proofs::Sizes::arc_product, crate::proofs::Sizes::arc_is, crate::proofs::Arcs::arc_most))]
fn arc(r: u64) -> u64
    requires { r ≤ 447392426 }
    ensures value { result ≡ arc_of r }
    ensures upper_bound { result ≤ DEGREES_45 }
{
    let h = arc_part(r * r / ONE);
    (r * h / ONE * 961263669 + 536870912) / ONE
}

// n / d.
#[tactic(auto, using(crate::proofs::Sizes::ratio_is, crate::proofs::Arcs::ratio_most))]
fn ratio(n: u64, d: u64) -> u64
    requires n_bound { n < 4294967296 }
    requires d_nonzero { 0 < d }
    requires n_bound_2 { 12 * n ≤ 5 * d }
    ensures value { result ≡ ratio_of n d }
    ensures upper_bound { result ≤ 447392426 }
{
    n * ONE / d
}

// The size of a finite float: digits * 2^(place - 1) of the smallest f32.
#[derive(Clone, Copy)]
struct Size {
    digits: u64,
    place: u32,
    ghost few_digits: { digits < 2 ^ 24 },
}

impl Size {
    // The size of the float with the bit pattern b.
    #[tactic(auto, using(crate::proofs::Sizes::digits_low, crate::proofs::Sizes::digits_high, crate::proofs::Sizes::place_low, crate::proofs::Sizes::place_high))]
    fn of_bits(b: u32) -> Size
        ensures digits { result.digits ≡ digits_of b }
        ensures place { result.place ≡ place_of b }
    {
        if b < 8388608 {
            Size {
                digits: b as u64,
                place: 1,
            }
        } else {
            Size {
                digits: (b % 8388608 + 8388608) as u64,
                place: b / 8388608,
            }
        }
    }
}

// The angle of (d, n), from 0 to 45 degrees.
#[tactic(auto, using(crate::proofs::Quadrants::octant_low, crate::proofs::Quadrants::octant_high))]
fn eighth(d: u64, n: u64) -> u64
    requires d_nonzero { 0 < d }
    requires d_bound { d < 72057594037927936 }
    requires n_bound { n < 16777216 }
    requires n_le_d { n ≤ d }
    ensures value { result ≡ octant_of d n }
    ensures upper_bound { result ≤ DEGREES_45 }
{
    if 12 * n <= 5 * d {
        arc(ratio(n, d))
    } else {
        DEGREES_45 - arc(ratio(d - n, d + n))
    }
}

// The same of two sizes by their bit patterns. What is below 2^-30 of the larger one
// counts as zero.
fn octant(p: u32, q: u32) -> u64
    requires p_nonzero { 0 < p }
    requires p_bound { p < 2139095040 }
    requires q_le_p { q ≤ p }
    ensures value { result ≡ octant_of (units_at p) (units_at q) }
    ensures upper_bound { result ≤ DEGREES_45 }
{
    let large = Size::of_bits(p);
    let small = Size::of_bits(q);
    let k = large.place - small.place;
    if 32 <= k {
        0
    } else {
        eighth(large.digits << k, small.digits)
    }
}

// From 0 to 90 degrees.
#[tactic(auto, using(crate::proofs::Quadrants::quadrant_low, crate::proofs::Quadrants::quadrant_high, crate::proofs::Sizes::units_order, crate::proofs::Sizes::units_strict))]
pub fn quadrant(p: u32, q: u32) -> u64
    requires p_bound { p < 2139095040 }
    requires q_nonzero { 0 < q }
    requires q_bound { q < 2139095040 }
    ensures value { result ≡ quadrant_of (units_at p) (units_at q) }
    ensures upper_bound { result ≤ DEGREES_90 }
{
    if q <= p {
        octant(p, q)
    } else {
        DEGREES_90 - octant(q, p)
    }
}
