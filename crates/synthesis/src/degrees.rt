// What both paths do with a degree's sums over its orders.
ghost use Rattle.std.specs.Prelude.{◌≡◌, ◌<◌};
ghost use Rattle.tables.specs.Degree.{M_LEN};
ghost use Rattle.synthesis.specs.Code.{degree_part, plus_of};

use crate::Xyz;

impl Xyz {
    // Three sums at once.
    #[tactic(auto, unfolding(crate::specs::Code::plus_of, sums::specs::Arithmetic::rounded))]
    pub fn plus(self, other: Xyz) -> Xyz
        ensures { result ≡ plus_of self other }
    {
        Xyz {
            x: self.x + other.x,
            y: self.y + other.y,
            z: self.z + other.z,
        }
    }
}

// The part of degree n in the sums, from the sums over its orders.
#[tactic(auto, using(exact::proofs::Wholes::lit_one), unfolding(crate::specs::Code::degree_part, sums::specs::Arithmetic::rounded, sums::specs::Recurrence::lit))]
pub fn degree_part(n: usize, a_over_r_n2: f32, a: Xyz) -> Xyz
    requires { n < M_LEN }
    ensures { result ≡ degree_part n a_over_r_n2 a }
{
    Xyz {
        x: a_over_r_n2 * a.x,
        y: a_over_r_n2 * a.y,
        z: (n as f32 + 1.0) * a_over_r_n2 * a.z,
    }
}
