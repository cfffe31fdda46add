// Error records with their years, and the search of a lent list of them.
ghost use Rattle.std.specs.Prelude.{◌≡◌};
ghost use Rattle.refusals.specs.Paper.{said};
ghost use Rattle.models.specs.Records.{figure_ok, figures_ok, figures_says, listed_errors};

use crate::errors::WmmErrorModel;
use refusals::Refusal;

// The figures of one epoch. Lists of it are lent by C and Rust too.
#[repr(C)]
#[derive(Clone, Copy)]
pub struct ErrorRecord {
    pub epoch_year: i32,
    pub figures: WmmErrorModel,
}

// Finite, and not below zero: -0 is not. No comparison with a NaN holds.
#[tactic(auto, unfolding(crate::specs::Records::figure_ok))]
fn is_figure(x: f32) -> bool
    ensures { result ≡ figure_ok x }
{
    float32::is_finite(x) && 0.0 <= x
}

// All eight are looked at, whichever of them is used.
#[tactic(auto, unfolding(crate::specs::Records::figures_ok))]
fn are_figures(m: WmmErrorModel) -> bool
    ensures { result ≡ figures_ok m }
{
    is_figure(m.declination_sigma_c)
        && is_figure(m.declination_sigma_v)
        && is_figure(m.inclination)
        && is_figure(m.f)
        && is_figure(m.h)
        && is_figure(m.x)
        && is_figure(m.y)
        && is_figure(m.z)
}

// Refusal 12, or the figures of a record that was found.
#[tactic(auto, unfolding(crate::specs::Records::figures_says))]
fn usable_figures(m: WmmErrorModel) -> Result<WmmErrorModel, Refusal>
    ensures { said result ≡ figures_says m }
{
    if are_figures(m) {
        Ok(m)
    } else {
        Err(Refusal::Unusable)
    }
}

// The first record of the year wins.
pub fn error_model_listed(
    records: &[ErrorRecord],
    epoch_year: i32,
) -> Result<WmmErrorModel, Refusal>
    ensures result_value { said result ≡ listed_errors records.now epoch_year }
    ensures kept { records.exit.now ≡ records.entry.now }
{
    for r in records {
        if r.epoch_year == epoch_year {
            return usable_figures(r.figures);
        }
    }
    Err(Refusal::NoErrorRecord)
}
