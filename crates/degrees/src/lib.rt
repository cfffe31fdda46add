// Field with the place in degrees: the pairs are made here, so that no caller needs a sine.
#![tactic(auto)]

ghost use Rattle.std.specs.Prelude.{◌≡◌};
ghost use Rattle.refusals.specs.Paper.{said};
ghost use Rattle.models.specs.Epochs.{epoch_offset};
ghost use Rattle.degrees.specs.Degrees.{DegreesClose, degrees_says, place_of};

use field::{Latitude, Place};
use lists::CoefficientSet;
use refusals::{Day, Refusal};
use strengths::GeomagneticField;
use synthesis::Longitude;

// Refusal 16 for the latitude, then for the longitude, then Field's own with the two made pairs.
#[tactic(auto, using(crate::proofs::Ways::said_close), unfolding(crate::specs::Degrees::degrees_says))]
pub fn field_in_degrees(
    height: f32,
    latitude_deg: f32,
    longitude_deg: f32,
    day: Day,
    set: CoefficientSet<'_>,
) -> Result<GeomagneticField, Refusal>
    ensures answer { said result ≡ degrees_says (place_of height latitude_deg longitude_deg set.entry) day.year day.day_of_year }
    ensures distance { DegreesClose (place_of height latitude_deg longitude_deg set.entry) (epoch_offset day.year day.day_of_year) result }
    ensures kept { set.exit ≡ set.entry }
{
    let phi = trig::sine_and_cosine(latitude_deg)?;
    let lambda = trig::sine_and_cosine(longitude_deg)?;
    let place = Place {
        height,
        latitude: Latitude {
            sin: phi.sine,
            cos: phi.cosine,
        },
        longitude: Longitude {
            sin: lambda.sine,
            cos: lambda.cosine,
        },
    };
    field::field(place, day, set)
}
