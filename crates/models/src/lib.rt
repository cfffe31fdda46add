// Which model a day belongs to: its epoch year, its offset in years, and the epoch's error
// figures, the two built-in records or those of a lent list.
#![tactic(auto)]

mod calendar;
mod epochs;
mod errors;
mod records;

pub use epochs::{EpochOffset, UNKNOWN_EPOCH, epoch, igrf_epoch, known_epoch};
pub use errors::{WmmErrorModel, error_model_by_epoch_year};
pub use records::{ErrorRecord, error_model_listed};
