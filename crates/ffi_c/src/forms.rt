// Field by the bytes of a stored set of either form: with lists of 90 entries, or of 104.
ghost use Rattle.std.specs.Prelude.{◌≡◌};
ghost use Rattle.ffi.specs.Told.{number_of, result_place, entry_place, where_place, years_place, field_floats, error_floats, either_field};

#[unsafe(no_mangle)]
pub extern "C" fn njerumoy_field_stored_either(
    stored: &[u8],
    height: f32,
    sin_phi: f32,
    cos_phi: f32,
    sin_lambda: f32,
    cos_lambda: f32,
    year: i32,
    day_of_year: i32,
    xyz: &mut [f32; 3],
    errors: &mut [f32; 8],
    entry: &mut [usize; 2],
    years: &mut [i32; 2],
    place: &mut usize,
) -> u32
    ensures answer { let p = either_field stored.now height sin_phi cos_phi sin_lambda cos_lambda year day_of_year in
        (result ≡ number_of p) × (xyz.new ≡ result_place field_floats xyz.old p) × (errors.new ≡ result_place error_floats errors.old p)
        × (entry.new ≡ entry_place entry.old p) × (years.new ≡ years_place years.old p) × (place.new ≡ where_place place.old p) }
    ensures kept { stored.exit.now ≡ stored.entry.now }
{
    ffi::njerumoy_field_stored_either(
        stored,
        height,
        sin_phi,
        cos_phi,
        sin_lambda,
        cos_lambda,
        year,
        day_of_year,
        xyz,
        errors,
        entry,
        years,
        place,
    )
}
