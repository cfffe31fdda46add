// The near-pole path: orders 0 and 1 alone, and east Y by the recurrence for P(n, 1) over sin θ,
// which stays finite at sin θ = 0.
ghost use Rattle.std.specs.Prelude.{◌≡◌, ◌+◌, ◌-◌, ◌<◌, get_or};
ghost use Rattle.std.specs.Float.{nan};
ghost use Rattle.tables.specs.Degree.{N_LEGENDRE};
ghost use Rattle.sums.specs.Arithmetic.{rounded};
ghost use Rattle.synthesis.specs.Sum.{inputs, lent_at};
ghost use Rattle.synthesis.specs.Code.{ListsOf, Reach, gh_at, near_pole, next_q, next_row, pole_parts};

use crate::angles::SinCos;
use crate::date::Dated;
use crate::degrees::degree_part;
use crate::rows::{PDp, gauss_norm_p_dp, legendre_index};
use crate::terms::term_of;
use crate::{Colatitude, Longitude, Xyz};
use tables::N_LEGENDRE;

// What a degree hands on: P of its orders 0 and 1, and Q.
#[derive(Clone, Copy)]
pub struct PoleRow {
    pub r0: PDp,
    pub r1: PDp,
    pub q: f32,
}

// Q of degree n, from those of the two degrees before.
#[tactic(auto, unfolding(crate::specs::Code::next_q, sums::specs::Arithmetic::rounded))]
fn next_q(n: usize, k: f32, cos_theta: f32, q_prev1: f32, q_prev2: f32) -> f32
    ensures { result ≡ next_q n k cos_theta q_prev1 q_prev2 }
{
    if n == 1 {
        1.0
    } else {
        cos_theta * q_prev1 - k * q_prev2
    }
}

// Degree n, from the two degrees before. k0 and k1 are the factors of its orders.
#[tactic(auto, unfolding(crate::specs::Code::next_row))]
fn pole_row(
    n: usize,
    k0: f32,
    k1: f32,
    theta: Colatitude,
    prev1: PoleRow,
    prev2: PoleRow,
) -> PoleRow
    requires { 0 < n }
    ensures { result ≡ next_row n k0 k1 theta.cos theta.sin prev1 prev2 }
{
    let r0 = gauss_norm_p_dp(n, 0, k0, theta, prev1.r0, prev1.r0, prev2.r0);
    let r1 = gauss_norm_p_dp(n, 1, k1, theta, prev1.r0, prev1.r1, prev2.r1);
    let q = next_q(n, k1, theta.cos, prev1.q, prev2.q);
    PoleRow { r0, r1, q }
}

// A degree's parts of the sums, its order 0 at place i of the tables: north and down over its orders, east
// of order 1 by Q. u is the longitude's pair. The terms of X have their sign turned, so they are taken away.
#[tactic(auto, unfolding(crate::specs::Code::pole_parts, sums::specs::Arithmetic::rounded))]
fn pole_degree(
    i: usize,
    row: PoleRow,
    schmidt: &[f32; N_LEGENDRE],
    dated: Dated,
    u: SinCos,
    a_over_r_n2: f32,
) -> Xyz
    requires reach { Reach (i + 1) dated.lists }
    requires i_nonzero { (0 < i) × (i + 1 < N_LEGENDRE) }
    ensures { result ≡ pole_parts row (gh_at dated.entry (i - 1)) (gh_at dated.entry i) (get_or schmidt.now i nan) (get_or schmidt.now (i + 1) nan) u a_over_r_n2 }
{
    let s1 = schmidt[i + 1];
    let w0 = dated.at(i - 1);
    let w1 = dated.at(i);
    let v0 = term_of(0.0, schmidt[i], row.r0, w0, SinCos { sin: 0.0, cos: 1.0 });
    let v1 = term_of(1.0, s1, row.r1, w1, u);
    Xyz {
        x: 0.0 - v0.x - v1.x,
        y: a_over_r_n2 * (w1.g * u.sin - w1.h * u.cos) * row.q * s1,
        z: 0.0 + v0.z + v1.z,
    }
}

// East is not multiplied by the power of the ratio once more: `pole_degree` has done it.
pub fn synthesize_near_pole(
    top: usize,
    theta: Colatitude,
    lambda: Longitude,
    ratio: f32,
    dated: Dated,
) -> Xyz
    requires { ListsOf top dated.lists }
    ensures { result ≡ near_pole (inputs rounded (lent_at theta lambda ratio dated.entry.offset dated.entry.lists)) top }
{
    let schmidt = tables::schmidt_table();
    let none = PDp { p: 0.0, dp: 0.0 };
    let mut prev2 = PoleRow {
        r0: none,
        r1: none,
        q: 1.0,
    };
    let mut prev1 = PoleRow {
        r0: PDp { p: 1.0, dp: 0.0 },
        r1: none,
        q: 1.0,
    };
    let mut k0 = 0.0f32;
    let mut k1 = 0.0f32;
    let u = SinCos {
        sin: lambda.sin,
        cos: lambda.cos,
    };
    let mut a_over_r_n2 = ratio * ratio * ratio;
    let mut tot = Xyz {
        x: 0.0,
        y: 0.0,
        z: 0.0,
    };
    for n in 1..top + 1 {
        let i = legendre_index(n, 0);
        let row = pole_row(n, k0, k1, theta, prev1, prev2);
        let a = pole_degree(i, row, &schmidt, dated, u, a_over_r_n2);
        tot = tot.plus(Xyz {
            y: a.y,
            ..degree_part(n, a_over_r_n2, a)
        });
        a_over_r_n2 = a_over_r_n2 * ratio;
        prev2 = prev1;
        prev1 = row;
        k0 = tables::legendre_k(n as f32, 0.0);
        k1 = tables::legendre_k(n as f32, 1.0);
    }
    tot
}
