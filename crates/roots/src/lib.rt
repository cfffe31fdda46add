// The square root of an f32, correctly rounded, over whole numbers. No call of a C library. (std's
// `f32::sqrt` is the processor's own, whose word is taken for it; this one is proved.)
#![tactic(auto)]

mod root;

ghost use Rattle.std.specs.Prelude.{◌≡◌};
ghost use Rattle.roots.specs.Root.{sqrt_of};
ghost use Rattle.refusals.specs.Paper.{said};
ghost use Rattle.roots.specs.Answer.{root_says};

use refusals::Refusal;

// The f32 nearest to the root of x; a NaN for a NaN and for a number below zero.
pub fn sqrt(x: f32) -> f32
    ensures { result ≡ sqrt_of x }
{
    if root::has_root(x) {
        root::rounded_root(x)
    } else {
        f32::NAN
    }
}

// The same, where the caller has a guess: to test one takes a fraction of the time of a search.
pub fn sqrt_by_guess(x: f32, guess: f32) -> f32
    ensures { result ≡ sqrt_of x }
{
    if root::is_root(x, guess) {
        guess
    } else {
        sqrt(x)
    }
}

// The root as a call of its own: a NaN and a number below zero are refused. -0 is not below zero.
#[tactic(auto, using(crate::proofs::Answer::root_said, crate::proofs::Answer::refusal_said))]
pub fn square_root(x: f32) -> Result<f32, Refusal>
    ensures { said result ≡ root_says x }
{
    if root::has_root(x) {
        Ok(root::rounded_root(x))
    } else {
        Err(Refusal::Unusable)
    }
}
