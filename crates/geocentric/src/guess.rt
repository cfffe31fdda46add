// Guesses at the two roots of the geocentric step. They are there for speed, and nothing is claimed
// of them: `roots::sqrt_by_guess` tests each. At an accepted place nearly all pass.
use std::num::f64_to_bits_with_nan;

// At the root of a number from 0.993 to 1, by its series about 1. The last two factors are fitted.
pub fn near_one(x: f32) -> f32 {
    let e = 1.0 - x;
    1.0 - e * (0.5 + e * (0.12499898 + e * 0.06290058))
}

// At the root of the square of a radius in metres: twice the root, by a polynomial that is fitted
// about the middle of the range. (2^52 added, the last places of an f64 are its whole part, rounded,
// and these are the digits of the root, which lies between 2^22 and 2^23.)
#[tactic(auto, using(float32::proofs::Bits::low_no_nan))]
pub fn near_radius(x: f32) -> f32 {
    if 4.0e13 <= x && x <= 5.3e13 {
        let u = x as f64 - 4.65e13;
        let w = u * u;
        let low = (13638181.697194949 + u * 1.4664711501760232e-7)
            + w * (u * 8.477694770630194e-36 - 7.884255078740932e-22);
        let high = (u * 1.715003047336051e-63 - 1.1392878265669185e-49)
            + w * (u * 4.801054781479588e-91 - 2.8370350541625635e-77);
        let t = low + w * w * high + 4503599627370496.0;
        f32::from_bits(0x4a00_0000 + (f64_to_bits_with_nan(t) % 0x200_0000) as u32)
    } else {
        0.0
    }
}
