// The IGRF profile.
ghost use Rattle.std.specs.Prelude.{◌≡◌};
ghost use Rattle.models.specs.Epochs.{epoch_offset};
ghost use Rattle.synthesis.specs.declared.Xyz.{Xyz};
ghost use Rattle.field.specs.Field.{asked};
ghost use Rattle.igrf.specs.Igrf.{IgrfClose, early, igrf_says, profile};
ghost use Rattle.ffi.specs.Told.{number_of, result_place, entry_place, years_place, xyz_floats};

use crate::asks;
use crate::tell::tell_dated;
use lists::SecondSet;
use refusals::Day;
use synthesis::Xyz;

// X, Y and Z.
fn xyz_floats(v: Xyz) -> [f32; 3]
    ensures { result ≡ xyz_floats v }
{
    [v.x, v.y, v.z]
}

// `distance` is demand 3 of what is written where 0 is returned.
#[unsafe(no_mangle)]
pub extern "C" fn njerumoy_igrf(
    height: f32,
    sin_phi: f32,
    cos_phi: f32,
    sin_lambda: f32,
    cos_lambda: f32,
    year: i32,
    day_of_year: i32,
    epoch_year: i32,
    g: &[f32],
    h: &[f32],
    g_dot: &[f32],
    h_dot: &[f32],
    second_epoch_year: i32,
    second_g: &[f32],
    second_h: &[f32],
    xyz: &mut [f32; 3],
    entry: &mut [usize; 2],
    years: &mut [i32; 2],
) -> u32
    ensures answer { let p = igrf_says (profile (asked height sin_phi cos_phi sin_lambda cos_lambda epoch_year g.now h.now g_dot.now h_dot.now) second_epoch_year second_g.now second_h.now) year day_of_year in
        (result ≡ number_of p) × (xyz.new ≡ result_place xyz_floats xyz.old p)
        × (entry.new ≡ entry_place entry.old p) × (years.new ≡ years_place years.old p) }
    ensures distance { result ≡ 0 → (v : Xyz) × (xyz.new ≡ xyz_floats v)
        × IgrfClose (profile (asked height sin_phi cos_phi sin_lambda cos_lambda epoch_year g.now h.now g_dot.now h_dot.now) second_epoch_year second_g.now second_h.now) (early year) (epoch_offset year day_of_year) v }
    ensures kept { (g.exit.now ≡ g.entry.now) × (h.exit.now ≡ h.entry.now) × (g_dot.exit.now ≡ g_dot.entry.now) × (h_dot.exit.now ≡ h_dot.entry.now) × (second_g.exit.now ≡ second_g.entry.now) × (second_h.exit.now ≡ second_h.entry.now) }
{
    let place = asks::place(height, sin_phi, cos_phi, sin_lambda, cos_lambda);
    let first = asks::set(epoch_year, g, h, g_dot, h_dot);
    let second = SecondSet {
        epoch_year: second_epoch_year,
        g: second_g,
        h: second_h,
    };
    let answer = igrf::igrf(place, Day { year, day_of_year }, first, second);
    tell_dated(answer.map(xyz_floats), xyz, entry, years)
}
