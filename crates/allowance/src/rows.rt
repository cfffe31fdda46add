// P and its derivative with respect to the colatitude, as bounds. Sum's steps with every minus read as plus:
// a trait over the arithmetic for these few lines would be longer, and would go through Sum's lanes.
ghost use Rattle.std.specs.Prelude.{◌≡◌, ◌<◌, ◌≤◌};
ghost use Rattle.tables.specs.Degree.{M_LEN, N_LEGENDRE, place};
ghost use Rattle.sums.specs.Recurrence.{legendre, step};
ghost use Rattle.synthesis.specs.Sum.{Lent, inputs};
ghost use Rattle.bounds.specs.Bounds.{bounds};
ghost use Rattle.synthesis.specs.Code.{pdp, qp};

use synthesis::{Colatitude, PDp};

// The place of degree n and order m in the tables. Sum has the same: it has a condition, and what has one
// stays inside its crate.
pub fn legendre_index(n: usize, m: usize) -> usize
    requires { (n < M_LEN) × (m ≤ n) }
    ensures { (result ≡ place n m) × (result < N_LEGENDRE) }
{
    n * (n + 1) / 2 + m
}

// The step at degree n and order m; theta is the colatitude's pair by size. `prev1` is of degree n - 1, at
// order m - 1 where m is n and else at m; `prev2` is of degree n - 2.
#[tactic(auto, unfolding(sums::specs::Recurrence::step, bounds::specs::Bounds::bounds))]
pub fn gauss_norm_p_dp(n: usize, m: usize, k: f32, theta: Colatitude, prev1: PDp, prev2: PDp) -> PDp
    requires { (0 < n) × (m ≤ n) }
    ensures { result ≡ pdp (step bounds theta.cos theta.sin k n m (qp prev1) (qp prev1) (qp prev2)) }
{
    if n == m {
        return PDp {
            p: theta.sin * prev1.p,
            dp: theta.sin * prev1.dp + theta.cos * prev1.p,
        };
    }
    if n == 1 {
        return PDp {
            p: theta.cos,
            dp: theta.sin,
        };
    }
    if n - 2 < m {
        return PDp {
            p: theta.cos * prev1.p,
            dp: theta.cos * prev1.dp + theta.sin * prev1.p,
        };
    }
    PDp {
        p: theta.cos * prev1.p + k * prev2.p,
        dp: theta.cos * prev1.dp + theta.sin * prev1.p + k * prev2.dp,
    }
}

// From degree 0 to degree n: down the diagonal to order m, then along its column.
pub fn p_dp(n: usize, m: usize, colatitude: Colatitude) -> PDp
    requires { (n < M_LEN) × (m ≤ n) }
    ensures { (a : Lent) → colatitude.cos ≡ a.cos_theta → colatitude.sin ≡ a.sin_theta → result ≡ pdp (legendre bounds (inputs bounds a) n m) }
{
    let theta = Colatitude {
        cos: float32::abs(colatitude.cos),
        sin: float32::abs(colatitude.sin),
    };
    let mut prev2 = PDp { p: 0.0, dp: 0.0 };
    let mut prev1 = PDp { p: 1.0, dp: 0.0 };
    for j in 0..n {
        let o = m.min(j + 1);
        let k = float32::abs(tables::legendre_k(j as f32, o as f32));
        let r = gauss_norm_p_dp(j + 1, o, k, theta, prev1, prev2);
        prev2 = prev1;
        prev1 = r;
    }
    prev1
}
