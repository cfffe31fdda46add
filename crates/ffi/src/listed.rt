// Field and the uncertainty with a lent list of error records.
ghost use Rattle.std.specs.Prelude.{◌≡◌};
ghost use Rattle.strengths.specs.Strengths.{bare, listed_uncertainty};
ghost use Rattle.field.specs.Field.{asked, listed_field};
ghost use Rattle.ffi.specs.Told.{number_of, result_place, itself, entry_place, years_place, field_floats, error_floats};

use crate::asks;
use crate::tell::{tell, tell_field};
use models::ErrorRecord;
use refusals::Day;
use strengths::bare_record;

#[unsafe(no_mangle)]
pub extern "C" fn njerumoy_field_listed(
    height: f32,
    sin_phi: f32,
    cos_phi: f32,
    sin_lambda: f32,
    cos_lambda: f32,
    year: i32,
    day_of_year: i32,
    epoch_year: i32,
    g: &[f32],
    h: &[f32],
    g_dot: &[f32],
    h_dot: &[f32],
    records: &[ErrorRecord],
    xyz: &mut [f32; 3],
    errors: &mut [f32; 8],
    entry: &mut [usize; 2],
    years: &mut [i32; 2],
) -> u32
    ensures answer { let p = listed_field records.now (asked height sin_phi cos_phi sin_lambda cos_lambda epoch_year g.now h.now g_dot.now h_dot.now) year day_of_year in
        (result ≡ number_of p) × (xyz.new ≡ result_place field_floats xyz.old p) × (errors.new ≡ result_place error_floats errors.old p)
        × (entry.new ≡ entry_place entry.old p) × (years.new ≡ years_place years.old p) }
    ensures kept { (g.exit.now ≡ g.entry.now) × (h.exit.now ≡ h.entry.now) × (g_dot.exit.now ≡ g_dot.entry.now) × (h_dot.exit.now ≡ h_dot.entry.now) × (records.exit.now ≡ records.entry.now) }
{
    let place = asks::place(height, sin_phi, cos_phi, sin_lambda, cos_lambda);
    let set = asks::set(epoch_year, g, h, g_dot, h_dot);
    let answer = field::field_listed(place, Day { year, day_of_year }, set, records);
    tell_field(answer, xyz, errors, entry, years)
}

#[unsafe(no_mangle)]
pub extern "C" fn njerumoy_declination_uncertainty_listed(
    x: f32,
    y: f32,
    z: f32,
    epoch_year: i32,
    records: &[ErrorRecord],
    uncertainty: &mut f32,
) -> u32
    ensures answer { let p = listed_uncertainty (bare x y z) records.now epoch_year in
        (result ≡ number_of p) × (uncertainty.new ≡ result_place itself uncertainty.old p) }
    ensures kept { records.exit.now ≡ records.entry.now }
{
    let answer = bare_record(x, y, z).declination_uncertainty_listed(records, epoch_year);
    tell(answer, uncertainty)
}
