// The error figures of the two models.
ghost use Rattle.std.specs.Prelude.{◌≡◌};
ghost use Rattle.refusals.specs.Paper.{said};
ghost use Rattle.models.specs.Errors.{error_says};

use crate::epochs::UNKNOWN_EPOCH;
use refusals::Refusal;

// Angles in degrees, strengths in nT. The declination's error is the root of the squares of sigma_c and
// sigma_v / H. C and Rust lend lists that hold it, so its layout is C's.
#[repr(C)]
#[derive(Clone, Copy, Default)]
pub struct WmmErrorModel {
    pub declination_sigma_c: f32,
    pub declination_sigma_v: f32,
    pub inclination: f32,
    pub f: f32,
    pub h: f32,
    pub x: f32,
    pub y: f32,
    pub z: f32,
}

const ERRORS_2020: WmmErrorModel = WmmErrorModel {
    declination_sigma_c: 0.26,
    declination_sigma_v: 5625.0,
    inclination: 0.21,
    f: 145.0,
    h: 128.0,
    x: 131.0,
    y: 94.0,
    z: 157.0,
};

const ERRORS_2025: WmmErrorModel = WmmErrorModel {
    declination_sigma_c: 0.26,
    declination_sigma_v: 5417.0,
    inclination: 0.20,
    f: 138.0,
    h: 133.0,
    x: 137.0,
    y: 89.0,
    z: 141.0,
};

#[tactic(auto, using(crate::specs::Signed::year_is, crate::specs::Signed::year_not, crate::proofs::BuiltIn::says_2020, crate::proofs::BuiltIn::says_2025, crate::proofs::BuiltIn::says_unknown))]
pub fn error_model_by_epoch_year(epoch_year: i32) -> Result<WmmErrorModel, Refusal>
    ensures { said result ≡ error_says epoch_year }
{
    match epoch_year {
        2020 => Ok(ERRORS_2020),
        2025 => Ok(ERRORS_2025),
        _ => Err(UNKNOWN_EPOCH),
    }
}
