// The Gregorian calendar, for every year that an i32 holds, 0 and below too.
ghost use Rattle.std.specs.Prelude.{◌≡◌};
ghost use Rattle.models.specs.Calendar.{leap_year, days_in_year};

#[tactic(auto, using(crate::specs::Signed::fits_quot, crate::specs::Signed::divides_bits), unfolding(crate::specs::Calendar::leap_year))]
fn is_leap_year(year: i32) -> bool
    ensures { result ≡ leap_year year }
{
    year % 4 == 0 && (year % 100 != 0 || year % 400 == 0)
}

pub fn days_in_year(year: i32) -> u16
    ensures { result ≡ days_in_year year }
{
    if is_leap_year(year) { 366 } else { 365 }
}
