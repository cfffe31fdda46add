// The allowance in the IGRF profile. Before 2025 the majorant takes both sets by size: the rate of a
// coefficient is the sum of the two sizes over five years.
ghost use Rattle.std.specs.Prelude.{◌≡◌, IfOk};
ghost use Rattle.refusals.specs.Paper.{said};
ghost use Rattle.models.specs.Epochs.{epoch_offset};
ghost use Rattle.igrf.specs.Igrf.{early, profile_of};
ghost use Rattle.allowance.specs.Code as code;
ghost use Rattle.allowance.specs.Profile.{IgrfCovered, igrf_allowance_says};

use crate::{Allowances, allowance_at};
use field::Place;
use igrf::{Gap, Share, YEARS};
use lists::{CoefficientSet, Lists, SecondSet};
use refusals::{Day, Refusal};

// The sizes of two coefficients over five years.
struct Sizes;

impl Share for Sizes {
    ghost share = { code.span };

    #[tactic(auto, unfolding(crate::specs::Code::span))]
    fn share(from: f32, to: f32) -> f32 {
        (float32::abs(to) + float32::abs(from)) / YEARS
    }
}

// The profile's refusals, then the answer. `covers`: each number is at least demand 3's allowance, and at
// most 1.01 times as much; the lent slices keep what they hold.
#[tactic(auto, unfolding(crate::specs::Profile::igrf_allowance_says))]
pub fn igrf_allowance(
    place: Place,
    day: Day,
    first: CoefficientSet<'_>,
    second: SecondSet<'_>,
) -> Result<Allowances, Refusal>
    ensures answer { said result ≡ igrf_allowance_says (profile_of place first.entry second.entry) day.year day.day_of_year }
    ensures covers { IfOk result (λ v. IgrfCovered (profile_of place first.entry second.entry) (early day.year) (epoch_offset day.year day.day_of_year) v) }
    ensures kept { (first.exit ≡ first.entry) × (second.exit ≡ second.entry) }
{
    igrf::igrf(place, day, first, second)?;
    // The profile answered, so it answers for the day too.
    let e = models::igrf_epoch(day)?;
    if igrf::early(day.year) {
        let l = first.lists;
        let gap = Gap::between::<Sizes>(l, second);
        let lists = Lists {
            g_dot: &gap.g[..l.g.len()],
            h_dot: &gap.h[..l.h.len()],
            ..l
        };
        return Ok(allowance_at(place, e, CoefficientSet { lists, ..first }));
    }
    Ok(allowance_at(place, e, first))
}
