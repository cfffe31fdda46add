// What is made of two sets that are five years apart, in the place of the yearly rates.
ghost use Rattle.std.specs.Prelude.{◌≡◌, ◌≤◌, Float, length, take};
ghost use Rattle.igrf.specs.Igrf.{fifth, in_array};

use lists::{Lists, SecondSet};
use tables::N_COEFF_MAX;

// How many years lie between two sets.
pub const YEARS: f32 = 5.0;

// How a year's share is made of a coefficient in the first set and in the second.
pub trait Share {
    ghost share: { Float → Float → Float };

    fn share(from: f32, to: f32) -> f32
        ensures { result ≡ share from to };
}

// The yearly rate: the difference over the years.
pub struct Rate;

impl Share for Rate {
    ghost share = { fifth };

    #[tactic(auto, unfolding(crate::specs::Igrf::fifth))]
    fn share(from: f32, to: f32) -> f32 {
        (to - from) / YEARS
    }
}

// The shares of g and of h, each in an array as long as the longer lists: those of shorter ones are its
// first places.
#[derive(Clone, Copy)]
pub struct Gap {
    pub g: [f32; N_COEFF_MAX],
    pub h: [f32; N_COEFF_MAX],
}

fn shares_between<S: Share>(from: &[f32], to: &[f32]) -> [f32; N_COEFF_MAX]
    ensures { result ≡ in_array S.share from.now to.now }
{
    let mut r = [0.0f32; N_COEFF_MAX];
    for k in 0..from.len().min(to.len()).min(N_COEFF_MAX) {
        r[k] = S::share(from[k], to[k]);
    }
    r
}

impl Gap {
    // Of lists of any length: of their first places, as many as each has and the array.
    pub fn between<S: Share>(first: Lists<'_>, second: SecondSet<'_>) -> Gap
        ensures answer { result ≡ record { g = in_array S.share first.entry.g.now second.entry.g.now; h = in_array S.share first.entry.h.now second.entry.h.now } }
        ensures kept { (first.exit ≡ first.entry) × (second.exit ≡ second.entry) }
    {
        Gap {
            g: shares_between::<S>(first.g, second.g),
            h: shares_between::<S>(first.h, second.h),
        }
    }

    // The first set's coefficients, with these as their rates.
    pub(crate) fn lists<'a>(&'a self, first: Lists<'a>) -> Lists<'a>
        requires { (length first.g.now ≤ length self.now.g) × (length first.h.now ≤ length self.now.h) }
        ensures main { (result.g ≡ first.entry.g) × (result.h ≡ first.entry.h) }
        ensures rates { (result.g_dot.now ≡ take (length first.entry.g.now) self.now.g) × (result.h_dot.now ≡ take (length first.entry.h.now) self.now.h) }
    {
        Lists {
            g_dot: &self.g[..first.g.len()],
            h_dot: &self.h[..first.h.len()],
            ..first
        }
    }
}
