// The epoch year and the offset of a day.
ghost use Rattle.std.specs.Prelude.{◌≡◌, ◌≤◌};
ghost use Rattle.refusals.specs.Paper.{said};
ghost use Rattle.models.specs.Epochs.{day_from, epoch_year_of, igrf_day, known_epoch, natural_offset, epoch_says};

use crate::calendar::days_in_year;
use refusals::{Day, Refusal};

const WMM_EPOCH_INTERVAL_YEARS: i32 = 5;

// The two models serve from the first day of FIRST_YEAR to the last day of LAST_YEAR.
const FIRST_YEAR: u16 = 2020;

// The IGRF profile begins earlier.
const IGRF_FIRST_YEAR: u16 = 2000;

const LAST_YEAR: i32 = 2029;

const LAST_DAY: Day = Day {
    year: LAST_YEAR,
    day_of_year: 365,
};

#[derive(Clone, Copy)]
pub struct EpochOffset {
    pub epoch_year: i32,
    pub offset: f32,
}

// Refusal 5, with the first and the last day that are served.
pub const UNKNOWN_EPOCH: Refusal = Refusal::EpochYear {
    first: Day {
        year: FIRST_YEAR as i32,
        day_of_year: 1,
    },
    last: LAST_DAY,
};

#[tactic(auto, using(crate::specs::Signed::fits_quot, crate::specs::Signed::fits_epoch), unfolding(crate::specs::Epochs::epoch_year_of))]
fn date_to_epoch_year(year: i32) -> i32
    ensures { result ≡ epoch_year_of year }
{
    year / WMM_EPOCH_INTERVAL_YEARS * WMM_EPOCH_INTERVAL_YEARS
}

#[tactic(auto, using(crate::specs::Signed::year_bits, crate::specs::Signed::year_is, crate::specs::Signed::year_not), unfolding(crate::specs::Epochs::known_epoch))]
pub fn known_epoch(epoch_year: i32) -> bool
    ensures { result ≡ known_epoch epoch_year }
{
    epoch_year == 2020 || epoch_year == 2025
}

// The numbers come as u16, since each u16 is an f32 exactly.
fn years_since_epoch(year: u16, epoch_year: u16, day_of_year: u16, days: u16) -> f32
    requires epoch_year_le_year { epoch_year ≤ year }
    requires le_day_of_year { 1 ≤ day_of_year }
    ensures { result ≡ natural_offset year epoch_year day_of_year days }
{
    (year - epoch_year) as f32 + (day_of_year - 1) as f32 / days as f32
}

// One body for the two calls below: the days from the first of `first` on.
fn day_from(first: u16, day: Day) -> Result<EpochOffset, Refusal>
    ensures { said result ≡ day_from first day.year day.day_of_year }
{
    let Day { year, day_of_year } = day;
    let days = days_in_year(year);
    if day_of_year < 1 || (days as i32) < day_of_year {
        return Err(Refusal::DayOfYear);
    }
    // Asked of the year and not of its epoch year: the answer is the same for all sets, so no branch
    // turns on which of them serves the day.
    if year < first as i32 || LAST_YEAR < year {
        return Err(Refusal::EpochYear {
            first: Day {
                year: first as i32,
                day_of_year: 1,
            },
            last: LAST_DAY,
        });
    }
    let epoch_year = date_to_epoch_year(year);
    let offset = years_since_epoch(year as u16, epoch_year as u16, day_of_year as u16, days);
    Ok(EpochOffset { epoch_year, offset })
}

#[tactic(auto, using(crate::proofs::Years::day_of_epoch))]
pub fn epoch(day: Day) -> Result<EpochOffset, Refusal>
    ensures { said result ≡ epoch_says day.year day.day_of_year }
{
    day_from(FIRST_YEAR, day)
}

// The days of the IGRF profile.
pub fn igrf_epoch(day: Day) -> Result<EpochOffset, Refusal>
    ensures { said result ≡ igrf_day day.year day.day_of_year }
{
    day_from(IGRF_FIRST_YEAR, day)
}
