// Grid variation: declination against the grid of the polar charts.
ghost use Rattle.std.specs.Prelude.{◌≡◌};
ghost use Rattle.refusals.specs.Paper.{said};
ghost use Rattle.strengths.specs.Grid.{crate_wrapped, wrapped, variation_of, grid_says};

use refusals::Refusal;

const GRID_VARIATION_MIN_ABS_LATITUDE_DEG: f32 = 55.0;

// The crate's own rule. One step at most: a difference of a declination and a longitude is never further out.
#[tactic(auto, unfolding(crate::specs::Grid::crate_wrapped))]
fn crate_wrap_to_180(deg: f32) -> f32
    ensures { result ≡ crate_wrapped deg }
{
    if deg > 180.0 {
        deg - 360.0
    } else if deg < -180.0 {
        deg + 360.0
    } else {
        deg
    }
}

// Due south has one name: two crews wrote -180 and 180 for one grid line.
#[tactic(auto, using(crate::proofs::Named::named, crate::proofs::Named::kept))]
fn wrap_to_180(deg: f32) -> f32
    ensures { result ≡ wrapped deg }
{
    let turned = crate_wrap_to_180(deg);
    if turned == -180.0 { 180.0 } else { turned }
}

// None between the two polar charts.
#[tactic(auto, unfolding(crate::specs::Grid::variation_of))]
fn variation(latitude_deg: f32, longitude_deg: f32, declination_deg: f32) -> Option<f32>
    ensures { result ≡ variation_of latitude_deg longitude_deg declination_deg }
{
    if latitude_deg >= GRID_VARIATION_MIN_ABS_LATITUDE_DEG {
        Some(wrap_to_180(declination_deg - longitude_deg))
    } else if latitude_deg <= -GRID_VARIATION_MIN_ABS_LATITUDE_DEG {
        Some(wrap_to_180(declination_deg + longitude_deg))
    } else {
        None
    }
}

#[tactic(auto, unfolding(crate::specs::Grid::grid_says))]
pub fn grid_variation(
    latitude_deg: f32,
    longitude_deg: f32,
    declination_deg: f32,
) -> Result<Option<f32>, Refusal>
    ensures { said result ≡ grid_says latitude_deg longitude_deg declination_deg }
{
    if float32::outside(latitude_deg, -90.0, 90.0) {
        return Err(Refusal::Latitude);
    }
    if float32::outside(longitude_deg, -180.0, 180.0) {
        return Err(Refusal::Longitude);
    }
    if float32::outside(declination_deg, -180.0, 180.0) {
        return Err(Refusal::Unusable);
    }
    Ok(variation(latitude_deg, longitude_deg, declination_deg))
}
