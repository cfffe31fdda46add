// The yearly rates, of Field and of the IGRF profile.
ghost use Rattle.std.specs.Prelude.{◌≡◌};
ghost use Rattle.field.specs.Field.{asked};
ghost use Rattle.igrf.specs.Igrf.{RateClose, early, profile};
ghost use Rattle.rates.specs.declared.YearlyRates.{YearlyRates};
ghost use Rattle.rates.specs.Profile.{igrf_rates_says};
ghost use Rattle.rates.specs.Rates.{AllFinite, rates_says};
ghost use Rattle.ffi.specs.Told.{number_of, result_place, entry_place, years_place, rate_floats};

use crate::asks;
use crate::tell::tell_dated;
use lists::SecondSet;
use rates::YearlyRates;
use refusals::Day;

// The seven rates, in the record's order.
fn rate_floats(v: YearlyRates) -> [f32; 7]
    ensures { result ≡ rate_floats v }
{
    [v.x, v.y, v.z, v.declination, v.inclination, v.h, v.f]
}

#[unsafe(no_mangle)]
pub extern "C" fn njerumoy_rates(
    height: f32,
    sin_phi: f32,
    cos_phi: f32,
    sin_lambda: f32,
    cos_lambda: f32,
    year: i32,
    day_of_year: i32,
    epoch_year: i32,
    g: &[f32],
    h: &[f32],
    g_dot: &[f32],
    h_dot: &[f32],
    rates: &mut [f32; 7],
    entry: &mut [usize; 2],
    years: &mut [i32; 2],
) -> u32
    ensures answer { let p = rates_says (asked height sin_phi cos_phi sin_lambda cos_lambda epoch_year g.now h.now g_dot.now h_dot.now) year day_of_year in
        (result ≡ number_of p) × (rates.new ≡ result_place rate_floats rates.old p)
        × (entry.new ≡ entry_place entry.old p) × (years.new ≡ years_place years.old p) }
    ensures kept { (g.exit.now ≡ g.entry.now) × (h.exit.now ≡ h.entry.now) × (g_dot.exit.now ≡ g_dot.entry.now) × (h_dot.exit.now ≡ h_dot.entry.now) }
{
    let place = asks::place(height, sin_phi, cos_phi, sin_lambda, cos_lambda);
    let set = asks::set(epoch_year, g, h, g_dot, h_dot);
    let answer = rates::rates(place, Day { year, day_of_year }, set);
    tell_dated(answer.map(rate_floats), rates, entry, years)
}

// In the IGRF profile. `distance` is demand 3 of the rates of X, Y and Z that are written where 0 is
// returned, and that none of the seven is infinite.
#[unsafe(no_mangle)]
pub extern "C" fn njerumoy_igrf_rates(
    height: f32,
    sin_phi: f32,
    cos_phi: f32,
    sin_lambda: f32,
    cos_lambda: f32,
    year: i32,
    day_of_year: i32,
    epoch_year: i32,
    g: &[f32],
    h: &[f32],
    g_dot: &[f32],
    h_dot: &[f32],
    second_epoch_year: i32,
    second_g: &[f32],
    second_h: &[f32],
    rates: &mut [f32; 7],
    entry: &mut [usize; 2],
    years: &mut [i32; 2],
) -> u32
    ensures answer { let p = igrf_rates_says (profile (asked height sin_phi cos_phi sin_lambda cos_lambda epoch_year g.now h.now g_dot.now h_dot.now) second_epoch_year second_g.now second_h.now) year day_of_year in
        (result ≡ number_of p) × (rates.new ≡ result_place rate_floats rates.old p)
        × (entry.new ≡ entry_place entry.old p) × (years.new ≡ years_place years.old p) }
    ensures distance { result ≡ 0 → (v : YearlyRates) × (rates.new ≡ rate_floats v)
        × (RateClose (profile (asked height sin_phi cos_phi sin_lambda cos_lambda epoch_year g.now h.now g_dot.now h_dot.now) second_epoch_year second_g.now second_h.now) (early year) v.x v.y v.z × AllFinite v) }
    ensures kept { (g.exit.now ≡ g.entry.now) × (h.exit.now ≡ h.entry.now) × (g_dot.exit.now ≡ g_dot.entry.now) × (h_dot.exit.now ≡ h_dot.entry.now) × (second_g.exit.now ≡ second_g.entry.now) × (second_h.exit.now ≡ second_h.entry.now) }
{
    let place = asks::place(height, sin_phi, cos_phi, sin_lambda, cos_lambda);
    let first = asks::set(epoch_year, g, h, g_dot, h_dot);
    let second = SecondSet {
        epoch_year: second_epoch_year,
        g: second_g,
        h: second_h,
    };
    let answer = rates::igrf_rates(place, Day { year, day_of_year }, first, second);
    tell_dated(answer.map(rate_floats), rates, entry, years)
}
