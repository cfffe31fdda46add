// The general path, as bounds: the terms by order, a degree's sum over its orders, the sum over the
// degrees.
use crate::angles::sin_cos_m_lambda;
use crate::inputs::Inputs;
use crate::totals::degree_part;
use synthesis::Xyz;

impl<'a> Inputs<'a> {
    ghost use Rattle.std.specs.Prelude.{◌≡◌, ◌<◌, ◌≤◌, length};
    ghost use Rattle.tables.specs.Degree.{degree_of};
    ghost use Rattle.allowance.specs.Code.{general, lent_of, row_part, row_sums, terms_of};

    // The terms of degree n and order m.
    fn term(self, n: usize, m: usize) -> Xyz
        requires { (0 < n) × (n ≤ degree_of (length self.lists.g.now)) × (m ≤ n) }
        ensures { result ≡ terms_of (lent_of self.entry) n m }
    {
        let u = sin_cos_m_lambda(m, self.longitude);
        let w = self.parts_at(n, m, u);
        let order = m as f32;
        Xyz {
            x: w.gc * w.dps,
            y: order * w.gs * w.ps,
            z: w.gc * w.ps,
        }
    }

    // The sums of degree n over its orders.
    fn row(self, n: usize) -> Xyz
        requires { (0 < n) × (n ≤ degree_of (length self.lists.g.now)) }
        ensures { result ≡ row_sums (lent_of self.entry) n }
    {
        let mut acc = Xyz {
            x: 0.0,
            y: 0.0,
            z: 0.0,
        };
        for m in 0..n + 1 {
            acc = acc.plus(self.term(n, m));
        }
        acc
    }

    // The part of degree j + 1 in the sums.
    fn general_part(self, j: usize, a_over_r_n2: f32) -> Xyz
        requires { j < degree_of (length self.lists.g.now) }
        ensures { result ≡ row_part (lent_of self.entry) j a_over_r_n2 }
    {
        degree_part(j + 1, a_over_r_n2, self.row(j + 1))
    }

    // Y is here Y', which is Y times sin θ.
    pub fn synthesize_xyz_prime(self) -> Xyz
        ensures { result ≡ general (lent_of self.entry) (degree_of (length self.entry.lists.g.now)) }
    {
        self.over_degrees(|j, power| self.general_part(j, power))
    }
}
