// Field by the bytes of a stored set of either form: with lists of 90 entries, or of 104.
ghost use Rattle.std.specs.Prelude.{◌≡◌, ◌≤◌};
ghost use Rattle.refusals.specs.Paper.{accepted, said};
ghost use Rattle.tables.specs.Degree.{degree_of, entries};
ghost use Rattle.stored.specs.Stored.{entries_in, frame_of};
ghost use Rattle.ffi.specs.Told.{number_of, result_place, entry_place, where_place, years_place, field_floats, error_floats, either_field};

use crate::asks;
use crate::tell::{note_where, tell_field};
use field::Place;
use refusals::{Day, Refusal};
use strengths::GeomagneticField;
use tables::{N_COEFF, N_COEFF_MAX};

// The number of bytes of a set with lists of 104.
const LONGER_LENGTH: usize = 1681;

// What the reader refuses, then what Field says of the set, by lists of N entries of the call's own, as
// many as bytes have that are in order: so the reader never refuses their lengths.
fn field_by<const N: usize>(
    stored: &[u8],
    place: Place,
    day: Day,
) -> Result<GeomagneticField, Refusal>
    requires room { N ≤ 104 }
    requires whole { N ≡ entries (degree_of N) }
    requires fits { frame_of (entries_in stored.now) stored.now ≡ accepted → N ≡ entries_in stored.now }
    ensures { said result ≡ either_field stored.now place.height place.latitude.sin place.latitude.cos place.longitude.sin place.longitude.cos day.year day.day_of_year }
{
    let mut g = [0.0f32; N];
    let mut h = [0.0f32; N];
    let mut g_dot = [0.0f32; N];
    let mut h_dot = [0.0f32; N];
    let epoch_year = stored::read_either(stored, &mut g, &mut h, &mut g_dot, &mut h_dot)?;
    let set = asks::set(epoch_year, &g, &h, &g_dot, &h_dot);
    field::field(place, day, set)
}

// Bytes that are in order have one of two lengths, and others are refused alike whichever lists are lent.
fn field_either(stored: &[u8], place: Place, day: Day) -> Result<GeomagneticField, Refusal>
    ensures { said result ≡ either_field stored.now place.height place.latitude.sin place.latitude.cos place.longitude.sin place.longitude.cos day.year day.day_of_year }
{
    if stored.len() == LONGER_LENGTH {
        field_by::<N_COEFF_MAX>(stored, place, day)
    } else {
        field_by::<N_COEFF>(stored, place, day)
    }
}

#[unsafe(no_mangle)]
pub extern "C" fn njerumoy_field_stored_either(
    stored: &[u8],
    height: f32,
    sin_phi: f32,
    cos_phi: f32,
    sin_lambda: f32,
    cos_lambda: f32,
    year: i32,
    day_of_year: i32,
    xyz: &mut [f32; 3],
    errors: &mut [f32; 8],
    entry: &mut [usize; 2],
    years: &mut [i32; 2],
    place: &mut usize,
) -> u32
    ensures answer { let p = either_field stored.now height sin_phi cos_phi sin_lambda cos_lambda year day_of_year in
        (result ≡ number_of p) × (xyz.new ≡ result_place field_floats xyz.old p) × (errors.new ≡ result_place error_floats errors.old p)
        × (entry.new ≡ entry_place entry.old p) × (years.new ≡ years_place years.old p) × (place.new ≡ where_place place.old p) }
    ensures kept { stored.exit.now ≡ stored.entry.now }
{
    let there = asks::place(height, sin_phi, cos_phi, sin_lambda, cos_lambda);
    let answer = field_either(stored, there, Day { year, day_of_year });
    note_where(answer, place);
    tell_field(answer, xyz, errors, entry, years)
}
