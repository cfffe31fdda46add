// Field with the error figures of a lent list.
ghost use Rattle.std.specs.Prelude.{◌≡◌, IfOk};
ghost use Rattle.refusals.specs.Paper.{said};
ghost use Rattle.models.specs.Epochs.{epoch_offset};
ghost use Rattle.field.specs.Field.{asked_of, listed_field, FieldClose};

use crate::{Place, field_with};
use lists::CoefficientSet;
use models::ErrorRecord;
use refusals::{Day, Refusal};
use strengths::GeomagneticField;

// Refusals 1 to 8, then 15 and 12 of the list, then the answer. As Field's own clauses, with the list
// for the built-in records.
pub fn field_listed(
    place: Place,
    day: Day,
    set: CoefficientSet<'_>,
    records: &[ErrorRecord],
) -> Result<GeomagneticField, Refusal>
    ensures answer { said result ≡ listed_field records.now (asked_of place set.entry) day.year day.day_of_year }
    ensures distance { IfOk result (λ v. FieldClose (asked_of place set.entry) (epoch_offset day.year day.day_of_year) v) }
    ensures kept { (set.exit ≡ set.entry) × (records.exit.now ≡ records.entry.now) }
{
    field_with(
        place,
        day,
        set,
        models::error_model_listed(records, set.epoch_year),
    )
}
