// The sums over the degrees, on either path.
ghost use Rattle.std.specs.Prelude.{◌≡◌, ◌<◌};
ghost use Rattle.tables.specs.Degree.{M_LEN};
ghost use Rattle.synthesis.specs.Code.{degree_part};

use crate::inputs::Inputs;
use synthesis::Xyz;

// The part of degree n, from the sums over its orders. Sum has the same: it has a condition, and what has
// one stays inside its crate.
#[tactic(auto, using(exact::proofs::Wholes::lit_one), unfolding(synthesis::specs::Code::degree_part, sums::specs::Arithmetic::rounded, sums::specs::Recurrence::lit))]
pub fn degree_part(n: usize, a_over_r_n2: f32, a: Xyz) -> Xyz
    requires { n < M_LEN }
    ensures { result ≡ degree_part n a_over_r_n2 a }
{
    Xyz {
        x: a_over_r_n2 * a.x,
        y: a_over_r_n2 * a.y,
        z: (n as f32 + 1.0) * a_over_r_n2 * a.z,
    }
}

impl<'a> Inputs<'a> {
    ghost use Rattle.std.specs.Prelude.{ℕ, Float, length};
    ghost use Rattle.tables.specs.Degree.{degree_of};
    ghost use Rattle.synthesis.specs.declared.Xyz.{Xyz};
    ghost use Rattle.allowance.specs.Code.{lent_of, over_degrees};

    // `part` makes the part of degree j + 1 of j and the power of the ratio there.
    pub fn over_degrees<F: Fn(usize, f32) -> Xyz>(self, part: F) -> Xyz
        requires { (j : ℕ) (power : Float) → j < degree_of (length self.lists.g.now) → F.pre part j power }
        ensures { (of_degree : ℕ → Float → Xyz) → ((j : ℕ) (power : Float) (r : Xyz) → j < degree_of (length self.entry.lists.g.now) → F.post part j power r → r ≡ of_degree j power)
            → result ≡ over_degrees (lent_of self.entry) of_degree (degree_of (length self.entry.lists.g.now)) }
    {
        let ratio = float32::abs(self.ratio);
        let mut a_over_r_n2 = ratio * ratio * ratio;
        let mut tot = Xyz {
            x: 0.0,
            y: 0.0,
            z: 0.0,
        };
        let top = tables::degree_of(self.lists.g.len());
        for j in 0..top {
            tot = tot.plus(part(j, a_over_r_n2));
            a_over_r_n2 = a_over_r_n2 * ratio;
        }
        tot
    }
}
