// The strengths and the directions over three components, grid variation, and the square root.
ghost use Rattle.std.specs.Prelude.{◌≡◌};
ghost use Rattle.roots.specs.Answer.{root_says};
ghost use Rattle.strengths.specs.Strengths.{bare, h_of, f_of, strength_says, zone_says, uncertainty_says};
ghost use Rattle.strengths.specs.Angles.{declination_of, inclination_of};
ghost use Rattle.strengths.specs.Grid.{grid_says};
ghost use Rattle.ffi.specs.Told.{number_of, result_place, itself, zone_number, is_given, variation_place};

use crate::tell::tell;
use strengths::{WarningZone, bare_record};

#[unsafe(no_mangle)]
pub extern "C" fn njerumoy_horizontal(x: f32, y: f32, z: f32, h: &mut f32) -> u32
    ensures { let p = strength_says (bare x y z) (h_of (bare x y z)) in
        (result ≡ number_of p) × (h.new ≡ result_place itself h.old p) }
{
    tell(bare_record(x, y, z).h(), h)
}

#[unsafe(no_mangle)]
pub extern "C" fn njerumoy_total(x: f32, y: f32, z: f32, f: &mut f32) -> u32
    ensures { let p = strength_says (bare x y z) (f_of (bare x y z)) in
        (result ≡ number_of p) × (f.new ≡ result_place itself f.old p) }
{
    tell(bare_record(x, y, z).f(), f)
}

// The number of a zone.
fn zone_number(zone: Option<WarningZone>) -> u32
    ensures { result ≡ zone_number zone }
{
    match zone {
        None => 0,
        Some(WarningZone::Blackout) => 1,
        Some(WarningZone::Caution) => 2,
    }
}

#[unsafe(no_mangle)]
pub extern "C" fn njerumoy_zone(x: f32, y: f32, z: f32, zone: &mut u32) -> u32
    ensures { let p = zone_says (bare x y z) in
        (result ≡ number_of p) × (zone.new ≡ result_place zone_number zone.old p) }
{
    let answer = bare_record(x, y, z).declination_warning();
    tell(answer.map(zone_number), zone)
}

#[unsafe(no_mangle)]
pub extern "C" fn njerumoy_field_declination(x: f32, y: f32, z: f32, declination: &mut f32) -> u32
    ensures { let p = strength_says (bare x y z) (declination_of (bare x y z)) in
        (result ≡ number_of p) × (declination.new ≡ result_place itself declination.old p) }
{
    tell(bare_record(x, y, z).declination(), declination)
}

#[unsafe(no_mangle)]
pub extern "C" fn njerumoy_inclination(x: f32, y: f32, z: f32, inclination: &mut f32) -> u32
    ensures { let p = strength_says (bare x y z) (inclination_of (bare x y z)) in
        (result ≡ number_of p) × (inclination.new ≡ result_place itself inclination.old p) }
{
    tell(bare_record(x, y, z).inclination(), inclination)
}

#[unsafe(no_mangle)]
pub extern "C" fn njerumoy_declination_uncertainty(
    x: f32,
    y: f32,
    z: f32,
    epoch_year: i32,
    uncertainty: &mut f32,
) -> u32
    ensures { let p = uncertainty_says (bare x y z) epoch_year in
        (result ≡ number_of p) × (uncertainty.new ≡ result_place itself uncertainty.old p) }
{
    let answer = bare_record(x, y, z).declination_uncertainty(epoch_year);
    tell(answer, uncertainty)
}

#[unsafe(no_mangle)]
pub extern "C" fn njerumoy_grid_variation(
    latitude_deg: f32,
    longitude_deg: f32,
    declination_deg: f32,
    given: &mut u32,
    variation: &mut f32,
) -> u32
    ensures { let p = grid_says latitude_deg longitude_deg declination_deg in
        (result ≡ number_of p) × (given.new ≡ result_place is_given given.old p) × (variation.new ≡ variation_place variation.old p) }
{
    let answer = strengths::grid_variation(latitude_deg, longitude_deg, declination_deg);
    if let Ok(Some(degrees)) = answer {
        *variation = degrees;
    }
    tell(answer.map(|v| v.is_some() as u32), given)
}

#[unsafe(no_mangle)]
pub extern "C" fn njerumoy_square_root(x: f32, root: &mut f32) -> u32
    ensures { let p = root_says x in
        (result ≡ number_of p) × (root.new ≡ result_place itself root.old p) }
{
    tell(roots::square_root(x), root)
}
