// The choice between the two paths.
use crate::inputs::Inputs;
use synthesis::{NEAR_POLE_SIN_THETA_MIN, Xyz};

impl<'a> Inputs<'a> {
    ghost use Rattle.std.specs.Prelude.{◌≡◌};
    ghost use Rattle.allowance.specs.Code.{lent_of, majorants_of};

    // The majorants of Sum's three components, on the path that Sum takes.
    pub fn majorants(self) -> Xyz
        ensures { result ≡ majorants_of (lent_of self.entry) }
    {
        let s = float32::abs(self.colatitude.sin);
        if s < NEAR_POLE_SIN_THETA_MIN {
            return self.synthesize_near_pole();
        }
        let r = self.synthesize_xyz_prime();
        Xyz {
            x: r.x,
            y: r.y / s,
            z: r.z,
        }
    }
}
