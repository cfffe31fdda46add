// The entry Field: the geomagnetic field at a place and a day, from a lent coefficient set.
#![tactic(auto)]

ghost use Rattle.std.specs.Prelude.{◌≡◌, true, IfOk};
ghost use Rattle.refusals.specs.Paper.{accepted, answered, check, said};
ghost use Rattle.models.specs.Epochs.{epoch_offset, known_epoch, unknown_epoch};
ghost use Rattle.field.specs.Field.{asked_of, FieldAccepted, FieldClose, components_says, dated_says, epoch_verdict, field_says, field_with, record_says};

use lists::CoefficientSet;
use models::{EpochOffset, WmmErrorModel};
use refusals::{Day, Refusal, Verdict};
use strengths::GeomagneticField;
use synthesis::Xyz;

mod axes;
mod dated;
mod listed;
mod place;

pub use axes::turn;
pub use dated::xyz_uncapped;
pub use listed::field_listed;
pub use place::{Latitude, Place};

// Refusal 8.
pub fn check_epoch(of_day: i32, of_set: i32) -> Verdict
    ensures { result ≡ epoch_verdict of_day of_set }
{
    if of_set != of_day {
        return Err(Refusal::OtherEpoch { of_day, of_set });
    }
    Ok(())
}

// Refusal 5 of the set, on a day of a known epoch.
fn check_known(of_day: i32, of_set: i32) -> Verdict
    requires { known_epoch of_day ≡ true }
    ensures { result ≡ check (known_epoch of_set) unknown_epoch accepted }
{
    // The day's own year is known, so no branch turns on which of the two sets it is.
    if of_set != of_day && !models::known_epoch(of_set) {
        return Err(models::UNKNOWN_EPOCH);
    }
    Ok(())
}

// From the set's year on, for an accepted place and day. Sum checks the lists.
#[tactic(auto, using(crate::proofs::Answers::dated_by))]
fn components_at(place: Place, e: EpochOffset, set: CoefficientSet<'_>) -> Result<Xyz, Refusal>
    requires { FieldAccepted (asked_of place set) e }
    ensures { said result ≡ dated_says (asked_of place set.entry) e }
{
    check_known(e.epoch_year, set.epoch_year)?;
    let v = dated::xyz(place, e.offset, set.lists)?;
    check_epoch(e.epoch_year, set.epoch_year)?;
    Ok(v)
}

// Refusals 1 to 8 in their order, then X, Y and Z.
#[tactic(auto, using(crate::proofs::Answers::accepted_of), unfolding(crate::specs::Field::components_says))]
fn components(place: Place, day: Day, set: CoefficientSet<'_>) -> Result<Xyz, Refusal>
    ensures { said result ≡ components_says (asked_of place set.entry) day.year day.day_of_year }
{
    place.check()?;
    let e = models::epoch(day)?;
    components_at(place, e, set)
}

// The record: what refuses the figures, then the components with them.
fn with_figures(
    v: Xyz,
    figures: Result<WmmErrorModel, Refusal>,
) -> Result<GeomagneticField, Refusal>
    ensures { said result ≡ record_says (answered v) (said figures) }
{
    figures.map(|error| GeomagneticField {
        x: v.x,
        y: v.y,
        z: v.z,
        error,
    })
}

// Field with figures from anywhere, already looked up: the built-in ones, or those of a lent list.
#[tactic(auto, unfolding(crate::specs::Field::field_with))]
pub fn field_with(
    place: Place,
    day: Day,
    set: CoefficientSet<'_>,
    figures: Result<WmmErrorModel, Refusal>,
) -> Result<GeomagneticField, Refusal>
    ensures answer { said result ≡ field_with (said figures) (asked_of place set.entry) day.year day.day_of_year }
    ensures kept { set.exit ≡ set.entry }
{
    let v = components(place, day, set)?;
    with_figures(v, figures)
}

// Refusals 1 to 8 in their order, then the answer. `answer` is demands 1 and 2, `distance` demand 3;
// the lent slices keep what they hold. The figures are looked up by the set's year: where they are
// used, refusal 8 has found it to be the day's. They come last, so the sums need not carry them.
pub fn field(place: Place, day: Day, set: CoefficientSet<'_>) -> Result<GeomagneticField, Refusal>
    ensures answer { said result ≡ field_says (asked_of place set.entry) day.year day.day_of_year }
    ensures distance { IfOk result (λ v. FieldClose (asked_of place set.entry) (epoch_offset day.year day.day_of_year) v) }
    ensures kept { set.exit ≡ set.entry }
{
    let shown = components(place, day, set)?;
    with_figures(shown, models::error_model_by_epoch_year(set.epoch_year))
}
