// The angle of a point in degrees: the arctangent of two numbers, by whole numbers. No call of a C
// library.
#![tactic(auto)]

mod arc;

ghost use Rattle.std.specs.Prelude.{◌≡◌, if◌then◌else◌, ℕ, ◌-◌, ◌≤◌, IsTrue};
ghost use Rattle.std.specs.Float.Ieee.Scale.{finite};
ghost use Rattle.direction.specs.Arc.{Points};
ghost use Rattle.direction.specs.Direction.{angle_of, degrees_of, direction_of};

use arc::DEGREES_90;

// In units of 2^-24 degree.
const DEGREES_180: u64 = 3019898880;

// g, or 180 degrees less g, in units of 2^-24 degree.
fn half_turn(left: bool, g: u64) -> u64
    requires { g ≤ DEGREES_90 }
    ensures value { result ≡ (if left then DEGREES_180 - g else g) }
    ensures upper_bound { result ≤ DEGREES_180 }
{
    if left { DEGREES_180 - g } else { g }
}

// j of 2^-24 degree. Both parts are floats without a rounding, so that only the sum is rounded.
#[tactic(auto, using(crate::proofs::Rounded::degrees_is, crate::proofs::Rounded::counted))]
fn degrees(j: u64) -> f32
    requires { j ≤ DEGREES_180 }
    ensures { result ≡ degrees_of j }
{
    let high = (j / 4096) as f32;
    let low = (j % 4096) as f32;
    high / 4096.0 + low / 16777216.0
}

// The angle of a finite x and y.
fn angle(x: f32, y: f32) -> f32
    requires x_finite { IsTrue (finite x) }
    requires y_finite { IsTrue (finite y) }
    ensures { result ≡ angle_of x y }
{
    if y == 0.0 {
        if x < 0.0 { 180.0 } else { 0.0 }
    } else {
        let p = float32::to_bits(x) % 2147483648;
        let q = float32::to_bits(y) % 2147483648;
        let d = degrees(half_turn(x < 0.0, arc::quadrant(p, q)));
        if y < 0.0 { -d } else { d }
    }
}

// The angle from the x axis to the y axis, from -180 to 180 degrees; a NaN where x or y is not
// finite.
pub fn direction(x: f32, y: f32) -> f32
    ensures answer { result ≡ direction_of x y }
    ensures distance { Points x y result }
{
    if float32::is_finite(x) && float32::is_finite(y) {
        angle(x, y)
    } else {
        f32::NAN
    }
}
