// What a caller is told of an answer: the number that is returned, and the places that are filled. The
// limits of refusal 1 are always the same, and so are the days of 5 for each entry, so they have no place.
ghost use Rattle.std.specs.Prelude.{◌≡◌};
ghost use Rattle.refusals.specs.Paper.{said};
ghost use Rattle.ffi.specs.Told.{number_of, result_place, entry_place, where_place, years_place, whole, field_floats, error_floats};

use refusals::Refusal;
use strengths::GeomagneticField;

// 0, or the refusal's number.
pub fn number<A: Copy>(answer: Result<A, Refusal>) -> u32
    ensures { result ≡ number_of (said answer) }
{
    match answer {
        Ok(_) => 0,
        Err(k) => k.number(),
    }
}

// The answer in its place, and the number. It does not call `number`: the check wants the answer read once
// where its type is any.
pub fn tell<A: Copy>(answer: Result<A, Refusal>, place: &mut A) -> u32
    ensures { (result ≡ number_of (said answer)) × (place.new ≡ result_place (λ v. v) place.old (said answer)) }
{
    match answer {
        Ok(v) => {
            *place = v;
            0
        }
        Err(k) => k.number(),
    }
}

// The list and the index of refusal 7.
pub fn note_entry<A: Copy>(answer: Result<A, Refusal>, entry: &mut [usize; 2])
    ensures { entry.new ≡ entry_place entry.old (said answer) }
{
    if let Err(Refusal::Coefficient { list, index }) = answer {
        *entry = [list.number() as usize, index];
    }
}

// The epoch years of the day and of the set, of refusal 8.
pub fn note_years<A: Copy>(answer: Result<A, Refusal>, years: &mut [i32; 2])
    ensures { years.new ≡ years_place years.old (said answer) }
{
    if let Err(Refusal::OtherEpoch { of_day, of_set }) = answer {
        *years = [of_day, of_set];
    }
}

// Where a reader stopped: the line's number of refusals 13 and 14, the place in the bytes of 17, 18 and
// 19.
pub fn note_where<A: Copy>(answer: Result<A, Refusal>, place: &mut usize)
    ensures { place.new ≡ where_place place.old (said answer) }
{
    match answer {
        Err(Refusal::Malformed { line } | Refusal::OutOfOrder { line }) => *place = line,
        Err(
            Refusal::WrongTag { place: n }
            | Refusal::WrongLength { place: n }
            | Refusal::WrongEnd { place: n },
        ) => *place = n,
        _ => {}
    }
}

// An answer of Field or of the profile: its value, and what a refusal carries.
pub fn tell_dated<A: Copy>(
    answer: Result<A, Refusal>,
    place: &mut A,
    entry: &mut [usize; 2],
    years: &mut [i32; 2],
) -> u32
    ensures { (result ≡ number_of (said answer)) × (place.new ≡ result_place (λ v. v) place.old (said answer))
        × (entry.new ≡ entry_place entry.old (said answer)) × (years.new ≡ years_place years.old (said answer)) }
{
    note_entry(answer, entry);
    note_years(answer, years);
    tell(answer, place)
}

// X, Y and Z.
fn field_floats(v: GeomagneticField) -> [f32; 3]
    ensures { result ≡ field_floats v }
{
    [v.x, v.y, v.z]
}

// The error figures, in the record's order.
fn error_floats(v: GeomagneticField) -> [f32; 8]
    ensures { result ≡ error_floats v }
{
    let e = v.error;
    [
        e.declination_sigma_c,
        e.declination_sigma_v,
        e.inclination,
        e.f,
        e.h,
        e.x,
        e.y,
        e.z,
    ]
}

// A field record, and what a refusal of Field carries.
pub fn tell_field(
    answer: Result<GeomagneticField, Refusal>,
    xyz: &mut [f32; 3],
    errors: &mut [f32; 8],
    entry: &mut [usize; 2],
    years: &mut [i32; 2],
) -> u32
    ensures { (result ≡ number_of (said answer)) × (xyz.new ≡ result_place field_floats xyz.old (said answer)) × (errors.new ≡ result_place error_floats errors.old (said answer))
        × (entry.new ≡ entry_place entry.old (said answer)) × (years.new ≡ years_place years.old (said answer)) }
{
    tell(answer.map(error_floats), errors);
    tell_dated(answer.map(field_floats), xyz, entry, years)
}

// The epoch year of a set that was read, and what a refusal of the reader carries.
pub fn tell_read(
    answer: Result<i32, Refusal>,
    epoch_year: &mut i32,
    entry: &mut [usize; 2],
    place: &mut usize,
) -> u32
    ensures { (result ≡ number_of (said answer)) × (epoch_year.new ≡ result_place whole epoch_year.old (said answer))
        × (entry.new ≡ entry_place entry.old (said answer)) × (place.new ≡ where_place place.old (said answer)) }
{
    note_entry(answer, entry);
    note_where(answer, place);
    tell(answer, epoch_year)
}
