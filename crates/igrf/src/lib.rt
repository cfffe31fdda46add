// The IGRF profile: X, Y and Z from 2000 to 2029, and how they change in a year: before 2025 between two
// lent sets that are five years apart, from then on from the set of 2025 alone.
#![tactic(auto)]

ghost use Rattle.std.specs.Prelude.{◌≡◌, IfOk, cond, false, true, pos, ◌+ℤ◌};
ghost use Rattle.refusals.specs.Paper.{answered, said, both};
ghost use Rattle.std.specs.Int.Signed.{lt_z};
ghost use Rattle.models.specs.Epochs.{epoch_offset};
ghost use Rattle.lists.specs.Profile.{forecast_verdict, pair_verdict};
ghost use Rattle.igrf.specs.Igrf as igrfs;
ghost use Rattle.igrf.specs.Igrf.{IgrfClose, RateClose, accepted_says, igrf_says, profile_of, rate_says, years_found};

use field::{Place, check_epoch, xyz_uncapped};
use gap::Rate;
use lists::{CoefficientSet, SecondSet, check_pair};
use models::EpochOffset;
use refusals::{Day, Refusal, Verdict};
use synthesis::Xyz;

mod gap;

pub use gap::{Gap, Share, YEARS};

// The first year of the forecast, from the set of that year alone.
const FORECAST: i32 = 2025;

// Two sets are read: the day's year lies before the forecast.
#[tactic(auto, unfolding(crate::specs::Igrf::early))]
pub fn early(year: i32) -> bool
    ensures { result ≡ igrfs.early year }
{
    year < FORECAST
}

// The epoch year of the second set.
fn five_later(year: i32) -> i32
    requires { (lt_z year (pos 0) ≡ false) × (lt_z (pos 2029) year ≡ false) }
    ensures { result ≡ year +ℤ pos 5 }
{
    year + 5
}

// The sets that are read, both or the first alone: 6, 23, 22 and 7 of their lists, then 8 where one is not
// of the year that the day needs: the second's is five years later.
fn check_sets(year: i32, of_day: i32, first: CoefficientSet<'_>, second: SecondSet<'_>) -> Verdict
    requires { (lt_z of_day (pos 0) ≡ false) × (lt_z (pos 2029) of_day ≡ false) }
    ensures { let l = first.entry.lists in let s = second.entry in
        result ≡ both (cond (igrfs.early year) (pair_verdict l.g.now l.h.now s.g.now s.h.now) (forecast_verdict l.g.now l.h.now l.g_dot.now l.h_dot.now)) (years_found (igrfs.early year) of_day first.entry.epoch_year s.epoch_year) }
{
    if early(year) {
        check_pair(first.lists, second)?;
        check_epoch(of_day, first.epoch_year)?;
        return check_epoch(five_later(of_day), second.epoch_year);
    }
    first.lists.check_forecast()?;
    check_epoch(of_day, first.epoch_year)
}

// Refusals 1, 2, 3, 4, 5, 6, 23, 22, 7, 8, or the day's epoch and offset.
fn accepted(
    place: Place,
    day: Day,
    first: CoefficientSet<'_>,
    second: SecondSet<'_>,
) -> Result<EpochOffset, Refusal>
    ensures { said result ≡ accepted_says (profile_of place first.entry second.entry) day.year day.day_of_year }
{
    place.check()?;
    let e = models::igrf_epoch(day)?;
    check_sets(day.year, e.epoch_year, first, second)?;
    Ok(e)
}

// X, Y and Z of an accepted question before 2025. A function of its own: the arrays of the gap are cleared
// at the entry of the function that they stand in, and no other call is to wait for that.
fn xyz_between(
    place: Place,
    day: Day,
    e: EpochOffset,
    first: CoefficientSet<'_>,
    second: SecondSet<'_>,
) -> Result<Xyz, Refusal>
    requires accepted { accepted_says (profile_of place first second) day.year day.day_of_year ≡ answered e }
    requires early { igrfs.early day.year ≡ true }
    ensures { said result ≡ igrf_says (profile_of place first.entry second.entry) day.year day.day_of_year }
{
    let gap = Gap::between::<Rate>(first.lists, second);
    xyz_uncapped(place, e.offset, gap.lists(first.lists))
}

// Their yearly rates in the same way.
fn yearly_between(
    place: Place,
    day: Day,
    e: EpochOffset,
    first: CoefficientSet<'_>,
    second: SecondSet<'_>,
) -> Result<Xyz, Refusal>
    requires accepted { accepted_says (profile_of place first second) day.year day.day_of_year ≡ answered e }
    requires early { igrfs.early day.year ≡ true }
    ensures { said result ≡ rate_says (profile_of place first.entry second.entry) day.year day.day_of_year }
{
    let gap = Gap::between::<Rate>(first.lists, second);
    xyz_uncapped(place, 0.0, gap.lists(first.lists).rated())
}

// X, Y and Z. `answer` is demands 1 and 2, `distance` demand 3; the lent slices keep what they hold.
pub fn igrf(
    place: Place,
    day: Day,
    first: CoefficientSet<'_>,
    second: SecondSet<'_>,
) -> Result<Xyz, Refusal>
    ensures answer { said result ≡ igrf_says (profile_of place first.entry second.entry) day.year day.day_of_year }
    ensures distance { IfOk result (λ v. IgrfClose (profile_of place first.entry second.entry) (igrfs.early day.year) (epoch_offset day.year day.day_of_year) v) }
    ensures kept { (first.exit ≡ first.entry) × (second.exit ≡ second.entry) }
{
    let e = accepted(place, day, first, second)?;
    if early(day.year) {
        return xyz_between(place, day, e, first, second);
    }
    xyz_uncapped(place, e.offset, first.lists)
}

// Their yearly rates, in nT a year, with the same refusals and the same promises: the sums of the rates in
// the place of the coefficients, with no time passed.
pub fn igrf_component_rates(
    place: Place,
    day: Day,
    first: CoefficientSet<'_>,
    second: SecondSet<'_>,
) -> Result<Xyz, Refusal>
    ensures answer { said result ≡ rate_says (profile_of place first.entry second.entry) day.year day.day_of_year }
    ensures distance { IfOk result (λ v. RateClose (profile_of place first.entry second.entry) (igrfs.early day.year) v.x v.y v.z) }
    ensures kept { (first.exit ≡ first.entry) × (second.exit ≡ second.entry) }
{
    let epoch = accepted(place, day, first, second)?;
    if early(day.year) {
        return yearly_between(place, day, epoch, first, second);
    }
    xyz_uncapped(place, 0.0, first.lists.rated())
}
