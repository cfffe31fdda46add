// The yearly rates: how X, Y, Z, declination, inclination, H and F change in a year.
#![tactic(auto)]

ghost use Rattle.std.specs.Prelude.{◌≡◌, IfOk, cond, false, Ok, Err};
ghost use Rattle.std.specs.Float.{binary32};
ghost use Rattle.std.specs.Float.Ieee.{eq, of_bits};
ghost use Rattle.refusals.specs.Paper.{said};
ghost use Rattle.refusals.specs.declared.Refusal.TheVariants.{ZeroDivisor};
ghost use Rattle.strengths.specs.Strengths.{h_of};
ghost use Rattle.field.specs.Field.{asked_of};
ghost use Rattle.rates.specs.Rates.{AllFinite, RatesClose, declination_rate, f_rate, h_rate_of, inclination_rate, rates_says, rates_with, to_degrees};

use field::{Place, xyz_uncapped};
use lists::CoefficientSet;
use refusals::{Day, Refusal};
use strengths::GeomagneticField;
use synthesis::Xyz;

mod profile;

pub use profile::igrf_rates;

// How many degrees a radian has.
const DEGREES_IN_RADIAN: f32 = f32::from_bits(0x42652ee1);

// X, Y, Z, H and F in nT a year, declination and inclination in degrees a year.
#[derive(Clone, Copy)]
pub struct YearlyRates {
    pub x: f32,
    pub y: f32,
    pub z: f32,
    pub declination: f32,
    pub inclination: f32,
    pub h: f32,
    pub f: f32,
}

fn to_degrees(x: f32) -> f32
    ensures { result ≡ to_degrees x }
{
    x * DEGREES_IN_RADIAN
}

#[tactic(auto, unfolding(crate::specs::Rates::h_rate_of))]
fn h_rate(h: f32, v: GeomagneticField, r: Xyz) -> f32
    ensures { result ≡ h_rate_of h v r }
{
    (v.x * r.x + v.y * r.y) / h
}

#[tactic(auto, unfolding(crate::specs::Rates::f_rate))]
fn f_rate(f: f32, v: GeomagneticField, r: Xyz) -> f32
    ensures { result ≡ f_rate f v r }
{
    (v.x * r.x + v.y * r.y + v.z * r.z) / f
}

#[tactic(auto, unfolding(crate::specs::Rates::declination_rate))]
fn declination_rate(h: f32, v: GeomagneticField, r: Xyz) -> f32
    ensures { result ≡ declination_rate h v r }
{
    to_degrees((r.y * v.x - v.y * r.x) / (h * h))
}

#[tactic(auto, unfolding(crate::specs::Rates::inclination_rate))]
fn inclination_rate(h: f32, f: f32, v: GeomagneticField, r: Xyz) -> f32
    ensures { result ≡ inclination_rate h f v r }
{
    to_degrees((r.z * h - v.z * h_rate(h, v, r)) / (f * f))
}

// H, by which rates are divided, or refusal 21.
#[tactic(auto, unfolding(strengths::specs::Strengths::h_of))]
fn divisor(v: GeomagneticField) -> Result<f32, Refusal>
    ensures { result ≡ cond (eq (h_of v) (of_bits binary32 0)) (Err ZeroDivisor) (Ok (h_of v)) }
{
    let h = roots::sqrt(v.x * v.x + v.y * v.y);
    if h == 0.0 {
        return Err(Refusal::ZeroDivisor);
    }
    Ok(h)
}

// The rates of a field v whose H is known and not zero, and whose X, Y and Z have the rates r.
fn rates_with(v: GeomagneticField, h: f32, r: Xyz) -> Result<YearlyRates, Refusal>
    requires { (h ≡ h_of v) × (eq h (of_bits binary32 0) ≡ false) }
    ensures { said result ≡ rates_with r v }
{
    let f = roots::sqrt(h * h + v.z * v.z);
    if f == 0.0 {
        return Err(Refusal::ZeroDivisor);
    }
    Ok(YearlyRates {
        x: r.x,
        y: r.y,
        z: r.z,
        declination: declination_rate(h, v, r),
        inclination: inclination_rate(h, f, v, r),
        h: h_rate(h, v, r),
        f: f_rate(f, v, r),
    })
}

// Field's refusals in their order, then 21, then the answer. `answer` is demands 1 and 2, `distance`
// demand 3 of the rates of X, Y and Z; no rate is infinite; the lent slices keep what they hold.
pub fn rates(place: Place, day: Day, set: CoefficientSet<'_>) -> Result<YearlyRates, Refusal>
    ensures answer { said result ≡ rates_says (asked_of place set.entry) day.year day.day_of_year }
    ensures distance { IfOk result (λ v. RatesClose (asked_of place set.entry) v) }
    ensures finite { IfOk result AllFinite }
    ensures kept { set.exit ≡ set.entry }
{
    let v = field::field(place, day, set)?;
    // H comes before the sums, so that its root is worked out beside them.
    let h = divisor(v)?;
    // The rates in the place of the coefficients, and again as rates, with no time passed, as the source
    // has it. Nothing is refused here that Field has not refused.
    let r = xyz_uncapped(place, 0.0, set.lists.rated())?;
    rates_with(v, h, r)
}
