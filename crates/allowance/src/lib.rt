// The entry Allowance: for the same input as Field, how far its X, Y and Z can lie from the exact
// field. An upper bound of demand 3's allowance.
#![tactic(auto)]

ghost use Rattle.std.specs.Prelude.{◌≡◌, IfOk};
ghost use Rattle.refusals.specs.Paper.{said};
ghost use Rattle.models.specs.Epochs.{epoch_offset};
ghost use Rattle.field.specs.Field.{asked_of};
ghost use Rattle.bounds.specs.Bounds as bounds;
ghost use Rattle.lists.specs.Lists.{Long};
ghost use Rattle.allowance.specs.Allowance.{Covered, allowances_of, allowance_says};

use field::Place;
use geocentric::{geodetic_to_geocentric, radius_ratio};
use inputs::Inputs;
use lists::CoefficientSet;
use models::EpochOffset;
use refusals::{Day, Refusal};
use synthesis::Colatitude;
use turn::turn;

mod angles;
mod general;
mod inputs;
mod near_pole;
mod paths;
mod profile;
mod rows;
mod terms;
mod totals;
mod turn;

pub use profile::igrf_allowance;

// How far X, Y and Z can lie from the exact field, in nT.
#[derive(Clone, Copy)]
pub struct Allowances {
    pub x: f32,
    pub y: f32,
    pub z: f32,
}

// 1 + 2^-8: a majorant that is computed with rounding may fall short, but not by as much as this.
const ROUNDING: f32 = f32::from_bits(0x3f808000);

// 0.1256: a little more than 2^-3, which is 2^-20 in units of 2^-17.
const LEAST: f32 = f32::from_bits(0x3e009d49);

// 2^-17.
const SHARE: f32 = f32::from_bits(0x37000000);

// What is shown for the majorant b.
#[tactic(auto, unfolding(bounds::specs::Bounds::allowed))]
fn allowed(b: f32) -> f32
    ensures { result ≡ bounds.allowed b }
{
    (b * ROUNDING + LEAST) * SHARE
}

// For a place, a day's epoch and offset, and lists that Field accepts.
fn allowance_at(place: Place, e: EpochOffset, set: CoefficientSet<'_>) -> Allowances
    requires { Long set.lists.g.now set.lists.h.now set.lists.g_dot.now set.lists.h_dot.now }
    ensures { result ≡ allowances_of (asked_of place set.entry) e }
{
    let p = geodetic_to_geocentric(place.height, place.latitude.sin, place.latitude.cos);
    let inputs = Inputs {
        colatitude: Colatitude {
            cos: p.cos_theta,
            sin: p.sin_theta,
        },
        longitude: place.longitude,
        ratio: radius_ratio(p.r),
        offset: e.offset,
        lists: set.lists,
    };
    let v = turn(inputs.majorants(), p, place.latitude);
    Allowances {
        x: allowed(v.x),
        y: allowed(v.y),
        z: allowed(v.z),
    }
}

// Field's refusals, then the answer. `covers`: each number is at least demand 3's allowance, and at most 1.01
// times as much; the lent slices keep what they hold.
#[tactic(auto, unfolding(crate::specs::Allowance::allowance_says))]
pub fn allowance(place: Place, day: Day, set: CoefficientSet<'_>) -> Result<Allowances, Refusal>
    ensures answer { said result ≡ allowance_says (asked_of place set.entry) day.year day.day_of_year }
    ensures covers { IfOk result (λ v. Covered (asked_of place set.entry) (epoch_offset day.year day.day_of_year) v) }
    ensures kept { set.exit ≡ set.entry }
{
    field::field(place, day, set)?;
    // Field answered, so Epoch answers for the day too.
    let e = models::epoch(day)?;
    Ok(allowance_at(place, e, set))
}
