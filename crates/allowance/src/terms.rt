// What the terms of a degree and an order are made of, as bounds.
ghost use Rattle.std.specs.Prelude.{◌≡◌, ◌<◌, ◌≤◌};
ghost use Rattle.exact.specs.Tests.{abs};
ghost use Rattle.tables.specs.Degree.{M_LEN, place};
ghost use Rattle.tables.specs.Tables.{schmidt_at};
ghost use Rattle.sums.specs.Recurrence.{coefficient};
ghost use Rattle.bounds.specs.Bounds.{bounds};

use crate::inputs::Inputs;
use crate::rows::{legendre_index, p_dp};
use synthesis::SinCos;

// g cos + h sin and g sin + h cos, s·P and s·dP.
#[derive(Clone, Copy)]
pub struct Parts {
    pub gc: f32,
    pub gs: f32,
    pub ps: f32,
    pub dps: f32,
}

#[tactic(auto, unfolding(bounds::specs::Bounds::bounds))]
fn coeff_at_t(main: f32, secular: f32, time_delta: f32) -> f32
    ensures { result ≡ coefficient bounds (abs main) (abs secular) (abs time_delta) }
{
    float32::abs(main) + float32::abs(time_delta) * float32::abs(secular)
}

// The size of Schmidt's factor of degree n and order m. A function of its own: the compiler then reads the
// one entry, and makes no copy of the table.
pub fn schmidt_size(n: usize, m: usize) -> f32
    requires { (n < M_LEN) × (m ≤ n) }
    ensures { result ≡ abs (schmidt_at (place n m)) }
{
    let ss = tables::schmidt_table();
    float32::abs(ss[legendre_index(n, m)])
}

impl<'a> Inputs<'a> {
    ghost use Rattle.std.specs.Prelude.{length};
    ghost use Rattle.tables.specs.Degree.{degree_of};
    ghost use Rattle.allowance.specs.Code.{lent_of, pair_of, parts_of};

    // `u` is the pair of the order's multiple of the longitude: the two paths take it in two ways.
    pub fn parts_at(self, n: usize, m: usize, u: SinCos) -> Parts
        requires { (0 < n) × (n ≤ degree_of (length self.lists.g.now)) × (m ≤ n) }
        ensures { result ≡ parts_of (lent_of self.entry) n m (pair_of u) }
    {
        let s = schmidt_size(n, m);
        let k = legendre_index(n, m) - 1;
        let l = self.lists;
        let gt = coeff_at_t(l.g[k], l.g_dot[k], self.offset);
        let ht = coeff_at_t(l.h[k], l.h_dot[k], self.offset);
        let r = p_dp(n, m, self.colatitude);
        Parts {
            gc: gt * u.cos + ht * u.sin,
            gs: gt * u.sin + ht * u.cos,
            ps: s * r.p,
            dps: s * r.dp,
        }
    }
}
