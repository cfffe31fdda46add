// A stored set: reading it, writing it, and Field by its bytes.
ghost use Rattle.std.specs.Prelude.{◌≡◌};
ghost use Rattle.refusals.specs.Paper.{said};
ghost use Rattle.lists.specs.Sets.{lists_of};
ghost use Rattle.stored.specs.Stored.{read_either_of, read_of, write_either_of, write_of};
ghost use Rattle.ffi.specs.Told.{number_of, result_place, entry_place, where_place, years_place, verdict_number, verdict_entry, whole, field_floats, error_floats, stored_field};

use crate::asks;
use crate::tell::{note_entry, note_where, number, tell_field, tell_read};
use field::Place;
use refusals::{Day, Refusal, Verdict};
use strengths::GeomagneticField;
use tables::N_COEFF;

#[unsafe(no_mangle)]
pub extern "C" fn njerumoy_read_stored(
    stored: &[u8],
    g: &mut [f32],
    h: &mut [f32],
    g_dot: &mut [f32],
    h_dot: &mut [f32],
    epoch_year: &mut i32,
    entry: &mut [usize; 2],
    place: &mut usize,
) -> u32
    ensures answer { let s = read_of stored.now (lists_of g.old h.old g_dot.old h_dot.old) in
        (result ≡ number_of s.says) × (lists_of g.new h.new g_dot.new h_dot.new ≡ s.lists)
        × (epoch_year.new ≡ result_place whole epoch_year.old s.says)
        × (entry.new ≡ entry_place entry.old s.says) × (place.new ≡ where_place place.old s.says) }
    ensures kept { stored.exit.now ≡ stored.entry.now }
{
    let answer = stored::read(stored, g, h, g_dot, h_dot);
    tell_read(answer, epoch_year, entry, place)
}

// The same for lists of 90 entries or of 104.
#[unsafe(no_mangle)]
pub extern "C" fn njerumoy_read_stored_either(
    stored: &[u8],
    g: &mut [f32],
    h: &mut [f32],
    g_dot: &mut [f32],
    h_dot: &mut [f32],
    epoch_year: &mut i32,
    entry: &mut [usize; 2],
    place: &mut usize,
) -> u32
    ensures answer { let s = read_either_of stored.now (lists_of g.old h.old g_dot.old h_dot.old) in
        (result ≡ number_of s.says) × (lists_of g.new h.new g_dot.new h_dot.new ≡ s.lists)
        × (epoch_year.new ≡ result_place whole epoch_year.old s.says)
        × (entry.new ≡ entry_place entry.old s.says) × (place.new ≡ where_place place.old s.says) }
    ensures kept { stored.exit.now ≡ stored.entry.now }
{
    let answer = stored::read_either(stored, g, h, g_dot, h_dot);
    tell_read(answer, epoch_year, entry, place)
}

#[unsafe(no_mangle)]
pub extern "C" fn njerumoy_write_stored(
    epoch_year: i32,
    g: &[f32],
    h: &[f32],
    g_dot: &[f32],
    h_dot: &[f32],
    stored: &mut [u8],
    entry: &mut [usize; 2],
) -> u32
    ensures answer { let w = write_of epoch_year (lists_of g.now h.now g_dot.now h_dot.now) stored.old in
        (result ≡ verdict_number w.found) × (stored.new ≡ w.bytes) × (entry.new ≡ verdict_entry entry.old w.found) }
    ensures kept { (g.exit.now ≡ g.entry.now) × (h.exit.now ≡ h.entry.now) × (g_dot.exit.now ≡ g_dot.entry.now) × (h_dot.exit.now ≡ h_dot.entry.now) }
{
    let set = asks::set(epoch_year, g, h, g_dot, h_dot);
    tell_verdict(stored::write(set, stored), entry)
}

// The same for lists of 90 entries or of 104.
#[unsafe(no_mangle)]
pub extern "C" fn njerumoy_write_stored_either(
    epoch_year: i32,
    g: &[f32],
    h: &[f32],
    g_dot: &[f32],
    h_dot: &[f32],
    stored: &mut [u8],
    entry: &mut [usize; 2],
) -> u32
    ensures answer { let w = write_either_of epoch_year (lists_of g.now h.now g_dot.now h_dot.now) stored.old in
        (result ≡ verdict_number w.found) × (stored.new ≡ w.bytes) × (entry.new ≡ verdict_entry entry.old w.found) }
    ensures kept { (g.exit.now ≡ g.entry.now) × (h.exit.now ≡ h.entry.now) × (g_dot.exit.now ≡ g_dot.entry.now) × (h_dot.exit.now ≡ h_dot.entry.now) }
{
    let set = asks::set(epoch_year, g, h, g_dot, h_dot);
    tell_verdict(stored::write_either(set, stored), entry)
}

// Whether the set was written, and what a refusal of the lists carries.
fn tell_verdict(found: Verdict, entry: &mut [usize; 2]) -> u32
    ensures { (result ≡ verdict_number found) × (entry.new ≡ verdict_entry entry.old found) }
{
    note_entry(found, entry);
    number(found)
}

// What the reader refuses, then what Field says of the set. The lists are this function's own, so the
// reader never refuses their lengths.
fn field_of(stored: &[u8], place: Place, day: Day) -> Result<GeomagneticField, Refusal>
    ensures { said result ≡ stored_field stored.now place.height place.latitude.sin place.latitude.cos place.longitude.sin place.longitude.cos day.year day.day_of_year }
{
    let mut g = [0.0f32; N_COEFF];
    let mut h = [0.0f32; N_COEFF];
    let mut g_dot = [0.0f32; N_COEFF];
    let mut h_dot = [0.0f32; N_COEFF];
    let epoch_year = stored::read(stored, &mut g, &mut h, &mut g_dot, &mut h_dot)?;
    let set = asks::set(epoch_year, &g, &h, &g_dot, &h_dot);
    field::field(place, day, set)
}

#[unsafe(no_mangle)]
pub extern "C" fn njerumoy_field_stored(
    stored: &[u8],
    height: f32,
    sin_phi: f32,
    cos_phi: f32,
    sin_lambda: f32,
    cos_lambda: f32,
    year: i32,
    day_of_year: i32,
    xyz: &mut [f32; 3],
    errors: &mut [f32; 8],
    entry: &mut [usize; 2],
    years: &mut [i32; 2],
    place: &mut usize,
) -> u32
    ensures answer { let p = stored_field stored.now height sin_phi cos_phi sin_lambda cos_lambda year day_of_year in
        (result ≡ number_of p) × (xyz.new ≡ result_place field_floats xyz.old p) × (errors.new ≡ result_place error_floats errors.old p)
        × (entry.new ≡ entry_place entry.old p) × (years.new ≡ years_place years.old p) × (place.new ≡ where_place place.old p) }
    ensures kept { stored.exit.now ≡ stored.entry.now }
{
    let there = asks::place(height, sin_phi, cos_phi, sin_lambda, cos_lambda);
    let answer = field_of(stored, there, Day { year, day_of_year });
    note_where(answer, place);
    tell_field(answer, xyz, errors, entry, years)
}
