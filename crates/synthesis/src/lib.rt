// The entry Sum: X', Y and Z' of the model at a geocentric place and a date, in the crate's sign.
#![tactic(auto)]

ghost use Rattle.std.specs.Prelude.{◌≡◌, Ok};
ghost use Rattle.refusals.specs.Paper.{accepted, said};
ghost use Rattle.lists.specs.Lists.{Long};
ghost use Rattle.synthesis.specs.Sum.{SumClose, lent_at, sum_says, summed_says, uncapped_says};

use date::Dated;
use lists::Lists;
use numbers::check_numbers;
use paths::synthesize_geocentric_xyz;
use refusals::{Refusal, Verdict};

mod angles;
mod date;
mod degrees;
mod general;
mod lanes;
mod near_pole;
mod numbers;
mod paths;
mod rows;
mod terms;

pub use angles::SinCos;
pub use paths::NEAR_POLE_SIN_THETA_MIN;
pub use rows::PDp;

// The orders of a row.
const M_LEN: usize = tables::N_MAX + 1;

// The pair of the geocentric colatitude.
#[derive(Clone, Copy)]
pub struct Colatitude {
    pub cos: f32,
    pub sin: f32,
}

// The pair of the longitude.
#[derive(Clone, Copy)]
pub struct Longitude {
    pub sin: f32,
    pub cos: f32,
}

// X', Y and Z' in nT.
#[derive(Clone, Copy)]
pub struct Xyz {
    pub x: f32,
    pub y: f32,
    pub z: f32,
}

// One body for the two calls below, with its only call of the sums: the compiler then makes one piece of
// the checks and the sums. `checked` is what is refused of the lists; what is told of the numbers comes
// first all the same.
#[tactic(auto, using(crate::proofs::NumberChecks::on_circle))]
fn sum_by(
    colatitude: Colatitude,
    longitude: Longitude,
    ratio: f32,
    offset: f32,
    lists: Lists,
    checked: Verdict,
) -> Result<Xyz, Refusal>
    requires { checked ≡ accepted → Long lists.g.now lists.h.now lists.g_dot.now lists.h_dot.now }
    ensures { said result ≡ summed_says checked (lent_at colatitude longitude ratio offset lists.entry) }
{
    check_numbers(colatitude, longitude, ratio, offset)?;
    checked?;
    let dated = Dated { lists, offset };
    Ok(synthesize_geocentric_xyz(colatitude, longitude, ratio, dated))
}

// Refusals 9, 3, 10, 11, 6, 23, 7, then the answer. `answer` is demands 1 and 2, `distance` demand 3;
// the lent slices keep what they hold.
#[tactic(auto, using(crate::proofs::Answers::long_of), unfolding(crate::specs::Sum::sum_says))]
pub fn sum(
    colatitude: Colatitude,
    longitude: Longitude,
    ratio: f32,
    offset: f32,
    lists: Lists,
) -> Result<Xyz, Refusal>
    ensures answer { said result ≡ sum_says (lent_at colatitude longitude ratio offset lists.entry) }
    ensures distance { (v : Xyz) → result ≡ Ok v → SumClose (lent_at colatitude longitude ratio offset lists.entry) v }
    ensures kept { lists.exit ≡ lists.entry }
{
    sum_by(colatitude, longitude, ratio, offset, lists, lists.check())
}

// The same without refusal 7, whatever the entries are: for a caller who has looked at them already.
#[tactic(auto, using(crate::proofs::Answers::long_of_lengths), unfolding(crate::specs::Sum::uncapped_says))]
pub fn sum_uncapped(
    colatitude: Colatitude,
    longitude: Longitude,
    ratio: f32,
    offset: f32,
    lists: Lists,
) -> Result<Xyz, Refusal>
    ensures answer { said result ≡ uncapped_says (lent_at colatitude longitude ratio offset lists.entry) }
    ensures kept { lists.exit ≡ lists.entry }
{
    sum_by(
        colatitude,
        longitude,
        ratio,
        offset,
        lists,
        lists.check_lengths(),
    )
}
