// The sine and the cosine of an angle in degrees, by whole numbers. No call of a C library.
#![tactic(auto)]

ghost use Rattle.std.specs.Prelude.{◌≡◌, if◌then◌else◌, nat_le, nat_lt, ℕ, ◌<◌, ◌≤◌, ◌^◌, ◌-◌, ◌*◌};
ghost use Rattle.std.specs.Float.Ieee.{neg};
ghost use Rattle.refusals.specs.Paper.{said};
ghost use Rattle.trig.specs.Fixed.{step_of, sine_part, cosine_part, square_of, sine_long, sine_bits, cosine_bits, small_pair, lift_by, left_of, far_pair, pair_of, sine_says};
ghost use Rattle.trig.specs.Angle.{PairOf, OnCircle};

use refusals::Refusal;

// A sine and a cosine of one angle.
#[derive(Clone, Copy)]
pub struct Pair {
    pub sine: f32,
    pub cosine: f32,
}

// One in the fixed point of the sums.
const ONE: u64 = 0x1_0000_0000;

// Angles from 45 degrees on, in units of 2^-18 degree.
const DEGREES_45: u64 = 11796480;

const DEGREES_90: u64 = 23592960;

const DEGREES_135: u64 = 35389440;

const DEGREES_180: u64 = 47185920;

// One term more of a Taylor sum, in units of 2^-32: 1 - z / n * h. The divisions of all terms wait for
// none but z. (`direction` has a step of its own: a public one may ask nothing of its caller.)
#[tactic(auto, using(crate::proofs::Whole::step_is))]
fn step(z: u64, h: u64, n: u64) -> u64
    requires z_bound { z < ONE }
    requires h_bound { h ≤ ONE }
    requires n_nonzero { 0 < n }
    ensures value { result ≡ step_of ONE 1 n z h }
    ensures upper_bound { result ≤ ONE }
{
    ONE - z / n * h / ONE
}

// sin r / r for z = r * r: the divisors are 2 * 3, 4 * 5 and so on, written out as the cosine's are.
#[tactic(auto, using(crate::proofs::Whole::sine_chain))]
fn sine_part(z: u64) -> u64
    requires { z < ONE }
    ensures value { result ≡ sine_part z }
    ensures upper_bound { result ≤ ONE }
{
    let a = step(z, ONE, 110);
    let b = step(z, a, 72);
    let c = step(z, b, 42);
    let d = step(z, c, 20);
    step(z, d, 6)
}

// cos r for z = r * r.
#[tactic(auto, using(crate::proofs::Whole::cosine_chain))]
fn cosine_part(z: u64) -> u64
    requires { z < ONE }
    ensures value { result ≡ cosine_part z }
    ensures upper_bound { result ≤ ONE }
{
    let a = step(z, ONE, 90);
    let b = step(z, a, 56);
    let c = step(z, b, 30);
    let d = step(z, c, 12);
    step(z, d, 2)
}

// An angle of digits / (2^places * 2^18) degrees, at most 45. The digits are 24, unless the sine is below
// 2^-125.
#[derive(Clone, Copy)]
struct SmallAngle {
    digits: u64,
    places: u64,
    ghost few_digits: { digits < 2 ^ 24 },
    ghost at_most_45: { digits ≤ 11796480 * 2 ^ places },
    ghost few_places: { places ≤ 131 },
}

impl SmallAngle {
    // y of 2^-18 degree, with its leading digit brought to the 24th place.
    fn lifted(y: u64) -> SmallAngle
        requires { y ≤ DEGREES_45 }
        ensures digits { result.digits ≡ y * 2 ^ lift_by y }
        ensures places { result.places ≡ lift_by y }
    {
        if y == 0 {
            SmallAngle {
                digits: 0,
                places: 131,
            }
        } else {
            let places = y.leading_zeros() - 40;
            SmallAngle {
                digits: y << places,
                places: places as u64,
            }
        }
    }

    // The square in radians, in units of 2^-32.
    #[tactic(auto, using(crate::proofs::Whole::square_zero, crate::proofs::Whole::angle_most, crate::proofs::Whole::square_fits), unfolding(crate::specs::Fixed::square_of))]
    fn square(self) -> u64
        ensures value { result ≡ square_of self.digits self.places }
        ensures upper_bound { result < ONE }
    {
        if 30 <= self.places {
            0
        } else {
            let a = (self.digits * 64) >> self.places;
            a * a / 134217728 * 2679443160 / ONE
        }
    }

    // The sine, in units of 1 / (2^places * 2^63).
    #[tactic(auto, using(crate::proofs::Whole::long_is))]
    fn sine_long(self) -> u64
        ensures value { result ≡ sine_long self.digits self.places }
        ensures upper_bound { result ≤ 10302605453284081664 }
    {
        let f = 2398762259 * sine_part(self.square()) / 16777216;
        self.digits * f
    }

    // The same rounded to an f32, as its bit pattern.
    #[tactic(auto, using(crate::proofs::Whole::tiny_most, crate::proofs::Whole::bits_tiny, crate::proofs::Whole::bits_low, crate::proofs::Whole::bits_high))]
    fn sine_bits(self) -> u32
        ensures { result ≡ sine_bits self.digits self.places }
    {
        let p = self.sine_long();
        if 126 <= self.places {
            (((p >> (self.places - 87)) + 1) / 2) as u32
        } else if p < 9223372036854775808 {
            let q = (p + 274877906944) / 549755813888;
            ((125 - self.places) * 8388608 + q) as u32
        } else {
            let q = (p + 549755813888) / 1099511627776;
            ((126 - self.places) * 8388608 + q) as u32
        }
    }

    // The cosine, as its bit pattern.
    #[tactic(auto, using(crate::proofs::Whole::cosine_is))]
    fn cosine_bits(self) -> u32
        ensures { result ≡ cosine_bits self.digits self.places }
    {
        let q = (cosine_part(self.square()) + 128) / 256;
        (1048576000 + q) as u32
    }

    #[tactic(auto, using(crate::proofs::Ways::small_is))]
    fn pair(self) -> Pair
        ensures { result ≡ small_pair self.digits self.places }
    {
        Pair {
            sine: float32::from_bits(self.sine_bits()),
            cosine: float32::from_bits(self.cosine_bits()),
        }
    }
}

// How far y of 2^-18 degree, from 45 to 180 degrees, is from the nearest of 90 and 180 degrees.
#[tactic(auto, unfolding(crate::specs::Fixed::left_of))]
fn left(y: u64) -> u64
    requires lt_y { DEGREES_45 < y }
    requires y_bound { y ≤ DEGREES_180 }
    ensures value { result ≡ left_of y }
    ensures upper_bound { result ≤ DEGREES_45 }
{
    if y <= DEGREES_90 {
        DEGREES_90 - y
    } else if y <= DEGREES_135 {
        y - DEGREES_90
    } else {
        DEGREES_180 - y
    }
}

// The sine of y of 2^-18 degree, from 45 to 180 degrees, p the pair of what is left to 90 or 180. One
// float by each question, here, in the next two and in `with_sign`: so an Arm processor chooses with no
// jump.
fn far_sine(y: u64, p: Pair) -> f32
    ensures { result ≡ (if nat_le y DEGREES_135 then p.cosine else p.sine) }
{
    if y <= DEGREES_135 { p.cosine } else { p.sine }
}

// c, with a minus beyond 90 degrees.
fn minus_beyond(y: u64, c: f32) -> f32
    ensures { result ≡ (if nat_le y DEGREES_90 then c else neg c) }
{
    if y <= DEGREES_90 { c } else { -c }
}

// The cosine of the same y.
fn far_cosine(y: u64, p: Pair) -> f32
    ensures { result ≡ (if nat_le y DEGREES_135 then (if nat_le y DEGREES_90 then p.sine else neg p.sine) else neg p.cosine) }
{
    if y <= DEGREES_135 {
        minus_beyond(y, p.sine)
    } else {
        -p.cosine
    }
}

// The pair of y of 2^-18 degree, from 45 to 180 degrees. The quadrant is asked for after the sums, which
// need not wait for it.
#[tactic(auto, using(crate::proofs::Ways::far_is))]
fn far_pair(y: u64) -> Pair
    requires lt_y { DEGREES_45 < y }
    requires y_bound { y ≤ DEGREES_180 }
    ensures { result ≡ far_pair y }
{
    let p = SmallAngle::lifted(left(y)).pair();
    Pair {
        sine: far_sine(y, p),
        cosine: far_cosine(y, p),
    }
}

// The pair of the angle with the bit pattern b, from 0 to 180 degrees: by the angle from the nearest
// of 0, 90 and 180 degrees.
fn pair_of(b: u32) -> Pair
    requires { b ≤ 1127481344 }
    ensures { result ≡ pair_of b }
{
    let e = b / 8388608;
    let t = (b % 8388608) as u64;
    if e == 0 {
        SmallAngle {
            digits: t,
            places: 131,
        }
        .pair()
    } else if b <= 1110704128 {
        SmallAngle {
            digits: t + 8388608,
            places: (132 - e) as u64,
        }
        .pair()
    } else {
        far_pair((t + 8388608) << (e - 132))
    }
}

// s with the sign of the bit pattern b.
fn with_sign(b: u32, s: f32) -> f32
    ensures { result ≡ (if nat_lt b 2147483648 then s else neg s) }
{
    if b < 2147483648 { s } else { -s }
}

// The sine and the cosine of x degrees, from -180 to 180.
pub fn sine_and_cosine(x: f32) -> Result<Pair, Refusal>
    ensures answer { said result ≡ sine_says x }
    ensures distance { PairOf x result }
    ensures circle { OnCircle result }
{
    if float32::outside(x, -180.0, 180.0) {
        return Err(Refusal::Angle);
    }
    let b = float32::to_bits(x);
    let p = pair_of(b % 2147483648);
    Ok(Pair {
        sine: with_sign(b, p.sine),
        cosine: p.cosine,
    })
}
