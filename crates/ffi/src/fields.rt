// Field, Field in degrees, and Allowance, of Field and of the IGRF profile.
ghost use Rattle.std.specs.Prelude.{◌≡◌};
ghost use Rattle.field.specs.Field.{asked, field_says};
ghost use Rattle.degrees.specs.Degrees.{place, degrees_says};
ghost use Rattle.models.specs.Epochs.{epoch_offset};
ghost use Rattle.igrf.specs.Igrf.{early, profile};
ghost use Rattle.allowance.specs.declared.Allowances.{Allowances};
ghost use Rattle.allowance.specs.Allowance.{allowance_says};
ghost use Rattle.allowance.specs.Profile.{IgrfCovered, igrf_allowance_says};
ghost use Rattle.ffi.specs.Told.{number_of, result_place, entry_place, years_place, field_floats, error_floats, allowance_floats};

use crate::asks;
use crate::tell::{tell_dated, tell_field};
use allowance::Allowances;
use lists::SecondSet;
use refusals::Day;

#[unsafe(no_mangle)]
pub extern "C" fn njerumoy_field(
    height: f32,
    sin_phi: f32,
    cos_phi: f32,
    sin_lambda: f32,
    cos_lambda: f32,
    year: i32,
    day_of_year: i32,
    epoch_year: i32,
    g: &[f32],
    h: &[f32],
    g_dot: &[f32],
    h_dot: &[f32],
    xyz: &mut [f32; 3],
    errors: &mut [f32; 8],
    entry: &mut [usize; 2],
    years: &mut [i32; 2],
) -> u32
    ensures answer { let p = field_says (asked height sin_phi cos_phi sin_lambda cos_lambda epoch_year g.now h.now g_dot.now h_dot.now) year day_of_year in
        (result ≡ number_of p) × (xyz.new ≡ result_place field_floats xyz.old p) × (errors.new ≡ result_place error_floats errors.old p)
        × (entry.new ≡ entry_place entry.old p) × (years.new ≡ years_place years.old p) }
    ensures kept { (g.exit.now ≡ g.entry.now) × (h.exit.now ≡ h.entry.now) × (g_dot.exit.now ≡ g_dot.entry.now) × (h_dot.exit.now ≡ h_dot.entry.now) }
{
    let place = asks::place(height, sin_phi, cos_phi, sin_lambda, cos_lambda);
    let set = asks::set(epoch_year, g, h, g_dot, h_dot);
    let answer = field::field(place, Day { year, day_of_year }, set);
    tell_field(answer, xyz, errors, entry, years)
}

#[unsafe(no_mangle)]
pub extern "C" fn njerumoy_field_in_degrees(
    height: f32,
    latitude_deg: f32,
    longitude_deg: f32,
    year: i32,
    day_of_year: i32,
    epoch_year: i32,
    g: &[f32],
    h: &[f32],
    g_dot: &[f32],
    h_dot: &[f32],
    xyz: &mut [f32; 3],
    errors: &mut [f32; 8],
    entry: &mut [usize; 2],
    years: &mut [i32; 2],
) -> u32
    ensures answer { let p = degrees_says (place height latitude_deg longitude_deg epoch_year g.now h.now g_dot.now h_dot.now) year day_of_year in
        (result ≡ number_of p) × (xyz.new ≡ result_place field_floats xyz.old p) × (errors.new ≡ result_place error_floats errors.old p)
        × (entry.new ≡ entry_place entry.old p) × (years.new ≡ years_place years.old p) }
    ensures kept { (g.exit.now ≡ g.entry.now) × (h.exit.now ≡ h.entry.now) × (g_dot.exit.now ≡ g_dot.entry.now) × (h_dot.exit.now ≡ h_dot.entry.now) }
{
    let set = asks::set(epoch_year, g, h, g_dot, h_dot);
    let day = Day { year, day_of_year };
    let answer = degrees::field_in_degrees(height, latitude_deg, longitude_deg, day, set);
    tell_field(answer, xyz, errors, entry, years)
}

// The allowances of X, Y and Z.
fn allowance_floats(v: Allowances) -> [f32; 3]
    ensures { result ≡ allowance_floats v }
{
    [v.x, v.y, v.z]
}

#[unsafe(no_mangle)]
pub extern "C" fn njerumoy_allowance(
    height: f32,
    sin_phi: f32,
    cos_phi: f32,
    sin_lambda: f32,
    cos_lambda: f32,
    year: i32,
    day_of_year: i32,
    epoch_year: i32,
    g: &[f32],
    h: &[f32],
    g_dot: &[f32],
    h_dot: &[f32],
    allowances: &mut [f32; 3],
    entry: &mut [usize; 2],
    years: &mut [i32; 2],
) -> u32
    ensures answer { let p = allowance_says (asked height sin_phi cos_phi sin_lambda cos_lambda epoch_year g.now h.now g_dot.now h_dot.now) year day_of_year in
        (result ≡ number_of p) × (allowances.new ≡ result_place allowance_floats allowances.old p)
        × (entry.new ≡ entry_place entry.old p) × (years.new ≡ years_place years.old p) }
    ensures kept { (g.exit.now ≡ g.entry.now) × (h.exit.now ≡ h.entry.now) × (g_dot.exit.now ≡ g_dot.entry.now) × (h_dot.exit.now ≡ h_dot.entry.now) }
{
    let place = asks::place(height, sin_phi, cos_phi, sin_lambda, cos_lambda);
    let set = asks::set(epoch_year, g, h, g_dot, h_dot);
    let answer = allowance::allowance(place, Day { year, day_of_year }, set);
    tell_dated(answer.map(allowance_floats), allowances, entry, years)
}

// In the IGRF profile. `covers` is of what is written where 0 is returned: each number is at least demand
// 3's allowance, and at most 1.01 times as much.
#[unsafe(no_mangle)]
pub extern "C" fn njerumoy_igrf_allowance(
    height: f32,
    sin_phi: f32,
    cos_phi: f32,
    sin_lambda: f32,
    cos_lambda: f32,
    year: i32,
    day_of_year: i32,
    epoch_year: i32,
    g: &[f32],
    h: &[f32],
    g_dot: &[f32],
    h_dot: &[f32],
    second_epoch_year: i32,
    second_g: &[f32],
    second_h: &[f32],
    allowances: &mut [f32; 3],
    entry: &mut [usize; 2],
    years: &mut [i32; 2],
) -> u32
    ensures answer { let p = igrf_allowance_says (profile (asked height sin_phi cos_phi sin_lambda cos_lambda epoch_year g.now h.now g_dot.now h_dot.now) second_epoch_year second_g.now second_h.now) year day_of_year in
        (result ≡ number_of p) × (allowances.new ≡ result_place allowance_floats allowances.old p)
        × (entry.new ≡ entry_place entry.old p) × (years.new ≡ years_place years.old p) }
    ensures covers { result ≡ 0 → (v : Allowances) × (allowances.new ≡ allowance_floats v)
        × IgrfCovered (profile (asked height sin_phi cos_phi sin_lambda cos_lambda epoch_year g.now h.now g_dot.now h_dot.now) second_epoch_year second_g.now second_h.now) (early year) (epoch_offset year day_of_year) v }
    ensures kept { (g.exit.now ≡ g.entry.now) × (h.exit.now ≡ h.entry.now) × (g_dot.exit.now ≡ g_dot.entry.now) × (h_dot.exit.now ≡ h_dot.entry.now) × (second_g.exit.now ≡ second_g.entry.now) × (second_h.exit.now ≡ second_h.entry.now) }
{
    let place = asks::place(height, sin_phi, cos_phi, sin_lambda, cos_lambda);
    let first = asks::set(epoch_year, g, h, g_dot, h_dot);
    let second = SecondSet {
        epoch_year: second_epoch_year,
        g: second_g,
        h: second_h,
    };
    let answer = allowance::igrf_allowance(place, Day { year, day_of_year }, first, second);
    tell_dated(answer.map(allowance_floats), allowances, entry, years)
}
