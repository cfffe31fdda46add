// The checks of the lists in the IGRF profile: of g and h of two sets before 2025, of one set's four
// lists from then on.
ghost use Rattle.std.specs.Prelude.{◌≡◌};
ghost use Rattle.lists.specs.Profile.{all_zero, forecast_verdict, pair_verdict, still};

use crate::{Lists, MAIN_CAP, RATE_CAP};
use refusals::{ListName, Refusal, Verdict};

// The set of five years later: its rates are never read.
#[derive(Clone, Copy)]
pub struct SecondSet<'a> {
    pub epoch_year: i32,
    pub g: &'a [f32],
    pub h: &'a [f32],
}

// The entries of degree 1 to 8: those above must not change.
const FREE: usize = 44;

// 6, 23, then 7, of g and h of the first set and of the second.
#[tactic(auto, using(crate::proofs::Checked::pair_caps_pass), unfolding(crate::specs::Profile::pair_verdict))]
pub fn check_pair(first: Lists<'_>, second: SecondSet<'_>) -> Verdict
    ensures answer { let l = first.entry in let s = second.entry in result ≡ pair_verdict l.g.now l.h.now s.g.now s.h.now }
    ensures kept { (first.exit ≡ first.entry) × (second.exit ≡ second.entry) }
{
    let both = Lists {
        g: first.g,
        h: first.h,
        g_dot: second.g,
        h_dot: second.h,
    };
    both.check_lengths()?;
    if both.are_within(MAIN_CAP) {
        return Ok(());
    }
    both.search_caps(ListName::SecondG, ListName::SecondH, MAIN_CAP)
}

// Every entry is zero, of either sign.
fn are_zero(s: &[f32]) -> bool
    ensures { result ≡ all_zero s.now }
{
    s.iter().all(|x| *x == 0.0)
}

// Every rate above degree 8 is zero, of either sign.
fn is_still(s: &[f32]) -> bool
    ensures { result ≡ still s.now }
{
    // By the part itself: `skip` would step over those before it one by one.
    match s.get(FREE..) {
        Some(above) => are_zero(above),
        None => true,
    }
}

impl<'a> Lists<'a> {
    // 6, 23, 22, then 7, of the four lists of a set.
    #[tactic(auto, using(crate::proofs::Checked::caps_pass), unfolding(crate::specs::Profile::forecast_verdict))]
    pub fn check_forecast(self) -> Verdict
        ensures answer { let l = self.entry in result ≡ forecast_verdict l.g.now l.h.now l.g_dot.now l.h_dot.now }
        ensures kept { self.exit ≡ self.entry }
    {
        self.check_lengths()?;
        if !is_still(self.g_dot) || !is_still(self.h_dot) {
            return Err(Refusal::RateAboveEight);
        }
        if self.are_within(RATE_CAP) {
            return Ok(());
        }
        self.search_caps(ListName::GDot, ListName::HDot, RATE_CAP)
    }
}
