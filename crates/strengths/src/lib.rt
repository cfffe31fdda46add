// The field record, and the strengths over it. Each takes the record by value, and refuses one with
// a component that is no usable number.
#![tactic(auto)]

ghost use Rattle.std.specs.Prelude.{◌≡◌};
ghost use Rattle.refusals.specs.declared.Refusal.TheVariants.{Unusable};
ghost use Rattle.refusals.specs.Paper.{accepted, check, said};
ghost use Rattle.strengths.specs.Angles.{declination_says, declination_of, inclination_of, AngleOf};
ghost use Rattle.strengths.specs.Strengths.{bare, usable, hypot_of, h_of, f_of, strength_says, zone_of, zone_says, uncertainty_of, uncertainty_with, uncertainty_says, listed_uncertainty};

use models::{ErrorRecord, WmmErrorModel};
use refusals::{Refusal, Verdict};

mod grid;

pub use grid::grid_variation;

// The largest size of a component: 2^60 nT, whose square is far from overflow.
const MAX_COMPONENT: f32 = f32::from_bits(0x5d800000);

const BLACKOUT_ZONE_H_NT: f32 = 2000.0;

const CAUTION_ZONE_H_NT: f32 = 6000.0;

const MAX_DECLINATION_UNCERTAINTY_DEG: f32 = 180.0;

// North, east and down in nT, and the error figures of the model that answered.
#[derive(Clone, Copy)]
pub struct GeomagneticField {
    pub x: f32,
    pub y: f32,
    pub z: f32,
    pub error: WmmErrorModel,
}

// Where H is so weak that a compass is not to be relied on.
#[derive(Clone, Copy, PartialEq, Eq)]
pub enum WarningZone {
    Caution,
    Blackout,
}

fn hypot(a: f32, b: f32) -> f32
    ensures { result ≡ hypot_of a b }
{
    roots::sqrt(a * a + b * b)
}

// The declination of a field of x to the north and y to the east: the angle from the north to the
// east, from -180 to 180 degrees.
pub fn declination(x: f32, y: f32) -> Result<f32, Refusal>
    ensures answer { said result ≡ declination_says x y }
    ensures distance { AngleOf x y result }
{
    if float32::over_cap(x, MAX_COMPONENT) || float32::over_cap(y, MAX_COMPONENT) {
        return Err(Refusal::Unusable);
    }
    Ok(direction::direction(x, y))
}

#[tactic(auto, unfolding(crate::specs::Strengths::zone_of))]
fn warning_zone(h: f32) -> Option<WarningZone>
    ensures { result ≡ zone_of h }
{
    if h < BLACKOUT_ZONE_H_NT {
        Some(WarningZone::Blackout)
    } else if h < CAUTION_ZONE_H_NT {
        Some(WarningZone::Caution)
    } else {
        None
    }
}

// A root that is no number below 180, as at H = 0, is shown as 180.
#[tactic(auto, unfolding(crate::specs::Strengths::clamped))]
fn uncertainty(m: WmmErrorModel, h: f32) -> f32
    ensures { result ≡ uncertainty_of m h }
{
    let u = hypot(m.declination_sigma_c, m.declination_sigma_v / h);
    if u < MAX_DECLINATION_UNCERTAINTY_DEG {
        u
    } else {
        MAX_DECLINATION_UNCERTAINTY_DEG
    }
}

// The record of three components alone, as a profile without error figures gives them. No strength
// reads its figures.
pub fn bare_record(x: f32, y: f32, z: f32) -> GeomagneticField
    ensures { result ≡ bare x y z }
{
    GeomagneticField {
        x,
        y,
        z,
        error: WmmErrorModel::default(),
    }
}

impl GeomagneticField {
    #[tactic(auto, unfolding(crate::specs::Strengths::usable))]
    fn is_usable(self) -> bool
        ensures { result ≡ usable self }
    {
        !float32::over_cap(self.x, MAX_COMPONENT)
            && !float32::over_cap(self.y, MAX_COMPONENT)
            && !float32::over_cap(self.z, MAX_COMPONENT)
    }

    fn check(self) -> Verdict
        ensures { result ≡ check (usable self) Unusable accepted }
    {
        if self.is_usable() {
            Ok(())
        } else {
            Err(Refusal::Unusable)
        }
    }

    #[tactic(auto, unfolding(crate::specs::Strengths::h_of))]
    fn horizontal(self) -> f32
        ensures { result ≡ h_of self }
    {
        hypot(self.x, self.y)
    }

    #[tactic(auto, unfolding(crate::specs::Strengths::strength_says))]
    pub fn h(self) -> Result<f32, Refusal>
        ensures { said result ≡ strength_says self (h_of self) }
    {
        self.check()?;
        Ok(self.horizontal())
    }

    #[tactic(auto, unfolding(crate::specs::Strengths::strength_says, crate::specs::Strengths::f_of))]
    pub fn f(self) -> Result<f32, Refusal>
        ensures { said result ≡ strength_says self (f_of self) }
    {
        self.check()?;
        Ok(hypot(self.horizontal(), self.z))
    }

    pub fn declination(self) -> Result<f32, Refusal>
        ensures answer { said result ≡ strength_says self (declination_of self) }
        ensures distance { AngleOf self.x self.y result }
    {
        self.check()?;
        Ok(direction::direction(self.x, self.y))
    }

    // The angle of Z over H: from -90 to 90 degrees, down positive.
    pub fn inclination(self) -> Result<f32, Refusal>
        ensures answer { said result ≡ strength_says self (inclination_of self) }
        ensures distance { AngleOf (h_of self) self.z result }
    {
        self.check()?;
        Ok(direction::direction(self.horizontal(), self.z))
    }

    #[tactic(auto, unfolding(crate::specs::Strengths::zone_says))]
    pub fn declination_warning(self) -> Result<Option<WarningZone>, Refusal>
        ensures { said result ≡ zone_says self }
    {
        self.check()?;
        Ok(warning_zone(self.horizontal()))
    }

    // One body for built-in and lent figures: what refuses them, then refusal 12.
    #[tactic(auto, unfolding(crate::specs::Strengths::uncertainty_with))]
    pub fn uncertainty_with(self, figures: Result<WmmErrorModel, Refusal>) -> Result<f32, Refusal>
        ensures { said result ≡ uncertainty_with (said figures) self }
    {
        let m = figures?;
        self.check()?;
        Ok(uncertainty(m, self.horizontal()))
    }

    // The figures are those of the year that is asked for, whatever the record holds.
    #[tactic(auto, unfolding(crate::specs::Strengths::uncertainty_says))]
    pub fn declination_uncertainty(self, epoch_year: i32) -> Result<f32, Refusal>
        ensures { said result ≡ uncertainty_says self epoch_year }
    {
        self.uncertainty_with(models::error_model_by_epoch_year(epoch_year))
    }

    // The same with the figures of a lent list.
    #[tactic(auto, unfolding(crate::specs::Strengths::listed_uncertainty))]
    pub fn declination_uncertainty_listed(
        self,
        records: &[ErrorRecord],
        epoch_year: i32,
    ) -> Result<f32, Refusal>
        ensures result_value { said result ≡ listed_uncertainty self records.now epoch_year }
        ensures kept { records.exit.now ≡ records.entry.now }
    {
        self.uncertainty_with(models::error_model_listed(records, epoch_year))
    }
}
