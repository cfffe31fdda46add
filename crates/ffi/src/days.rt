// Epoch.
ghost use Rattle.std.specs.Prelude.{◌≡◌};
ghost use Rattle.models.specs.Epochs.{epoch_says};
ghost use Rattle.ffi.specs.Told.{number_of, result_place, year_of, offset_of};

use crate::tell::tell;
use refusals::Day;

#[unsafe(no_mangle)]
pub extern "C" fn njerumoy_epoch(
    year: i32,
    day_of_year: i32,
    epoch_year: &mut i32,
    offset: &mut f32,
) -> u32
    ensures { let p = epoch_says year day_of_year in
        (result ≡ number_of p) × (epoch_year.new ≡ result_place year_of epoch_year.old p) × (offset.new ≡ result_place offset_of offset.old p) }
{
    let answer = models::epoch(Day { year, day_of_year });
    tell(answer.map(|e| e.epoch_year), epoch_year);
    tell(answer.map(|e| e.offset), offset)
}
