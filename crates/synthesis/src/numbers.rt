// The checks of Sum's numbers: refusals 9, 3, 10 and 11.
ghost use Rattle.std.specs.Prelude.{◌≡◌};
ghost use Rattle.synthesis.specs.Sum.{numbers_verdict};

use crate::{Colatitude, Longitude};
use refusals::{Refusal, Verdict};

#[tactic(auto, unfolding(crate::specs::Sum::numbers_verdict, crate::specs::Sum::ratio_ok, crate::specs::Sum::offset_ok))]
pub fn check_numbers(
    colatitude: Colatitude,
    longitude: Longitude,
    ratio: f32,
    offset: f32,
) -> Verdict
    ensures { result ≡ numbers_verdict colatitude.cos colatitude.sin longitude.sin longitude.cos ratio offset }
{
    if float32::off_circle(colatitude.sin, colatitude.cos) {
        return Err(Refusal::Colatitude);
    }
    if float32::off_circle(longitude.sin, longitude.cos) {
        return Err(Refusal::Longitude);
    }
    if float32::outside(ratio, 0.875, 1.015625) {
        return Err(Refusal::Ratio);
    }
    if float32::outside(offset, 0.0, 5.0) {
        return Err(Refusal::Offset);
    }
    Ok(())
}
