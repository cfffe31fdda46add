// The near-pole path, as bounds: orders 0 and 1 alone, and east Y by the recurrence for P(n, 1) over
// sin θ.
ghost use Rattle.std.specs.Prelude.{◌≡◌, ◌+◌, ◌<◌};
ghost use Rattle.tables.specs.Degree.{N_MAX};
ghost use Rattle.sums.specs.Recurrence.{quotient};
ghost use Rattle.synthesis.specs.Sum.{Lent, inputs};
ghost use Rattle.bounds.specs.Bounds.{bounds};

use crate::inputs::Inputs;
use crate::terms::schmidt_size;
use crate::totals::degree_part;
use synthesis::{SinCos, Xyz};

// Q of degree j + 1.
fn quotient_of(j: usize, cos_theta: f32) -> f32
    requires { j < N_MAX }
    ensures { (a : Lent) → cos_theta ≡ a.cos_theta → result ≡ quotient bounds (inputs bounds a) (j + 1) }
{
    let c = float32::abs(cos_theta);
    let mut q_prev2 = 1.0f32;
    let mut q_prev1 = 1.0f32;
    for i in 0..j {
        let k = float32::abs(tables::legendre_k((i + 1) as f32, 1.0));
        let q = c * q_prev1 + k * q_prev2;
        q_prev2 = q_prev1;
        q_prev1 = q;
    }
    q_prev1
}

impl<'a> Inputs<'a> {
    ghost use Rattle.std.specs.Prelude.{length};
    ghost use Rattle.tables.specs.Degree.{degree_of};
    ghost use Rattle.allowance.specs.Code.{lent_of, near_pole, pole_degree};

    // The part of degree j + 1 in the sums.
    fn pole_part(self, j: usize, a_over_r_n2: f32) -> Xyz
        requires { j < degree_of (length self.lists.g.now) }
        ensures { result ≡ pole_degree (lent_of self.entry) j a_over_r_n2 }
    {
        let n = j + 1;
        let u0 = SinCos { sin: 0.0, cos: 1.0 };
        let u1 = SinCos {
            sin: float32::abs(self.longitude.sin),
            cos: float32::abs(self.longitude.cos),
        };
        let w0 = self.parts_at(n, 0, u0);
        let w1 = self.parts_at(n, 1, u1);
        let s = schmidt_size(n, 1);
        let q_n = quotient_of(j, self.colatitude.cos);
        let d = degree_part(
            n,
            a_over_r_n2,
            Xyz {
                x: 0.0 + w0.gc * w0.dps + w1.gc * w1.dps,
                y: 0.0,
                z: 0.0 + w0.gc * w0.ps + w1.gc * w1.ps,
            },
        );
        Xyz {
            y: a_over_r_n2 * w1.gs * q_n * s,
            ..d
        }
    }

    pub fn synthesize_near_pole(self) -> Xyz
        ensures { result ≡ near_pole (lent_of self.entry) (degree_of (length self.entry.lists.g.now)) }
    {
        self.over_degrees(|j, power| self.pole_part(j, power))
    }
}
