// The choice between the two paths.
ghost use Rattle.std.specs.Prelude.{◌≡◌, T};
ghost use Rattle.lists.specs.Lists.{Long};
ghost use Rattle.exact.specs.Tests.{circle};
ghost use Rattle.synthesis.specs.Sum.{lent_at, value_of};

use crate::date::Dated;
use crate::general::synthesize_xyz_prime;
use crate::near_pole::synthesize_near_pole;
use crate::{Colatitude, Longitude, Xyz};

pub const NEAR_POLE_SIN_THETA_MIN: f32 = f32::from_bits(0x3a83126f);

// The near-pole path gives Y itself; the general one gives Y', which is Y times sin θ.
pub fn synthesize_geocentric_xyz(
    theta: Colatitude,
    lambda: Longitude,
    ratio: f32,
    dated: Dated,
) -> Xyz
    requires long { let l = dated.lists in Long l.g.now l.h.now l.g_dot.now l.h_dot.now }
    requires t { T (circle theta.sin theta.cos) }
    ensures { result ≡ value_of (lent_at theta lambda ratio dated.entry.offset dated.entry.lists) }
{
    let top = tables::degree_of(dated.lists.g.len());
    if float32::abs(theta.sin) < NEAR_POLE_SIN_THETA_MIN {
        return synthesize_near_pole(top, theta, lambda, ratio, dated);
    }
    let r = synthesize_xyz_prime(top, theta, lambda, ratio, dated);
    Xyz {
        x: r.x,
        y: r.y / theta.sin,
        z: r.z,
    }
}
