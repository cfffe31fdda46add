// The yearly rates in the IGRF profile.
ghost use Rattle.std.specs.Prelude.{◌≡◌, IfOk};
ghost use Rattle.refusals.specs.Paper.{said};
ghost use Rattle.igrf.specs.Igrf.{RateClose, early, profile_of};
ghost use Rattle.rates.specs.Profile.{igrf_rates_says};
ghost use Rattle.rates.specs.Rates.{AllFinite};

use crate::{YearlyRates, divisor, rates_with};
use field::Place;
use lists::{CoefficientSet, SecondSet};
use refusals::{Day, Refusal};
use strengths::bare_record;

// The profile's refusals in their order, then 21, then the answer. `answer` is demands 1 and 2, `distance`
// demand 3 of the rates of X, Y and Z; no rate is infinite; the lent slices keep what they hold.
pub fn igrf_rates(
    place: Place,
    day: Day,
    first: CoefficientSet<'_>,
    second: SecondSet<'_>,
) -> Result<YearlyRates, Refusal>
    ensures answer { said result ≡ igrf_rates_says (profile_of place first.entry second.entry) day.year day.day_of_year }
    ensures distance { IfOk result (λ v. RateClose (profile_of place first.entry second.entry) (early day.year) v.x v.y v.z) }
    ensures finite { IfOk result AllFinite }
    ensures kept { (first.exit ≡ first.entry) × (second.exit ≡ second.entry) }
{
    let c = igrf::igrf(place, day, first, second)?;
    let v = bare_record(c.x, c.y, c.z);
    let h = divisor(v)?;
    // Nothing is refused here that was not refused above.
    let r = igrf::igrf_component_rates(place, day, first, second)?;
    rates_with(v, h, r)
}
