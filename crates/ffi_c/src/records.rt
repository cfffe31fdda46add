// The strengths and the directions over three components, grid variation, and the square root.
ghost use Rattle.std.specs.Prelude.{◌≡◌};
ghost use Rattle.roots.specs.Answer.{root_says};
ghost use Rattle.strengths.specs.Strengths.{bare, h_of, f_of, strength_says, zone_says, uncertainty_says};
ghost use Rattle.strengths.specs.Angles.{declination_of, inclination_of};
ghost use Rattle.strengths.specs.Grid.{grid_says};
ghost use Rattle.ffi.specs.Told.{number_of, result_place, itself, zone_number, is_given, variation_place};

#[unsafe(no_mangle)]
pub extern "C" fn njerumoy_horizontal(x: f32, y: f32, z: f32, h: &mut f32) -> u32
    ensures { let p = strength_says (bare x y z) (h_of (bare x y z)) in
        (result ≡ number_of p) × (h.new ≡ result_place itself h.old p) }
{
    ffi::njerumoy_horizontal(x, y, z, h)
}

#[unsafe(no_mangle)]
pub extern "C" fn njerumoy_total(x: f32, y: f32, z: f32, f: &mut f32) -> u32
    ensures { let p = strength_says (bare x y z) (f_of (bare x y z)) in
        (result ≡ number_of p) × (f.new ≡ result_place itself f.old p) }
{
    ffi::njerumoy_total(x, y, z, f)
}

#[unsafe(no_mangle)]
pub extern "C" fn njerumoy_zone(x: f32, y: f32, z: f32, zone: &mut u32) -> u32
    ensures { let p = zone_says (bare x y z) in
        (result ≡ number_of p) × (zone.new ≡ result_place zone_number zone.old p) }
{
    ffi::njerumoy_zone(x, y, z, zone)
}

#[unsafe(no_mangle)]
pub extern "C" fn njerumoy_field_declination(x: f32, y: f32, z: f32, declination: &mut f32) -> u32
    ensures { let p = strength_says (bare x y z) (declination_of (bare x y z)) in
        (result ≡ number_of p) × (declination.new ≡ result_place itself declination.old p) }
{
    ffi::njerumoy_field_declination(x, y, z, declination)
}

#[unsafe(no_mangle)]
pub extern "C" fn njerumoy_inclination(x: f32, y: f32, z: f32, inclination: &mut f32) -> u32
    ensures { let p = strength_says (bare x y z) (inclination_of (bare x y z)) in
        (result ≡ number_of p) × (inclination.new ≡ result_place itself inclination.old p) }
{
    ffi::njerumoy_inclination(x, y, z, inclination)
}

#[unsafe(no_mangle)]
pub extern "C" fn njerumoy_declination_uncertainty(
    x: f32,
    y: f32,
    z: f32,
    epoch_year: i32,
    uncertainty: &mut f32,
) -> u32
    ensures { let p = uncertainty_says (bare x y z) epoch_year in
        (result ≡ number_of p) × (uncertainty.new ≡ result_place itself uncertainty.old p) }
{
    ffi::njerumoy_declination_uncertainty(x, y, z, epoch_year, uncertainty)
}

#[unsafe(no_mangle)]
pub extern "C" fn njerumoy_grid_variation(
    latitude_deg: f32,
    longitude_deg: f32,
    declination_deg: f32,
    given: &mut u32,
    variation: &mut f32,
) -> u32
    ensures { let p = grid_says latitude_deg longitude_deg declination_deg in
        (result ≡ number_of p) × (given.new ≡ result_place is_given given.old p) × (variation.new ≡ variation_place variation.old p) }
{
    ffi::njerumoy_grid_variation(
        latitude_deg,
        longitude_deg,
        declination_deg,
        given,
        variation,
    )
}

#[unsafe(no_mangle)]
pub extern "C" fn njerumoy_square_root(x: f32, root: &mut f32) -> u32
    ensures { let p = root_says x in
        (result ≡ number_of p) × (root.new ≡ result_place itself root.old p) }
{
    ffi::njerumoy_square_root(x, root)
}
