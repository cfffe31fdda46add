// P and its derivative: three rows of fourteen of each, whose roles rotate after each degree.
ghost use Rattle.std.specs.Prelude.{◌≡◌, ◌+◌, ◌<◌, ◌≤◌};
ghost use Rattle.tables.specs.Degree.{M_LEN, N_LEGENDRE, place};
ghost use Rattle.sums.specs.Arithmetic.{rounded};
ghost use Rattle.sums.specs.Recurrence.{step};
ghost use Rattle.synthesis.specs.Code.{cells, four, lowered, pdp, put_pair, put_pairs, qp, rotated};

use crate::{Colatitude, M_LEN};

// P and its derivative with respect to the colatitude.
#[derive(Clone, Copy)]
pub struct PDp {
    pub p: f32,
    pub dp: f32,
}

// The place of degree n and order m in the tables.
pub fn legendre_index(n: usize, m: usize) -> usize
    requires { (n < M_LEN) × (m ≤ n) }
    ensures { (result ≡ place n m) × (result < N_LEGENDRE) }
{
    n * (n + 1) / 2 + m
}

// The last branch of `gauss_norm_p_dp`, from the same order of degrees n - 1 and n - 2. A function of
// its own, since the lanes take it alone.
#[tactic(auto, unfolding(sums::specs::Arithmetic::rounded))]
pub fn lower_p_dp(k: f32, cos: f32, sin: f32, prev1: PDp, prev2: PDp) -> PDp
    ensures { result ≡ pdp (lowered cos sin k (qp prev1) (qp prev2)) }
{
    PDp {
        p: cos * prev1.p - k * prev2.p,
        dp: cos * prev1.dp - sin * prev1.p - k * prev2.dp,
    }
}

// The row step. `diagonal` is of degree n - 1 and order m - 1, `prev1` of degree n - 1 and order m,
// `prev2` of degree n - 2 and order m; each branch reads what it needs.
#[tactic(auto, using(crate::proofs::LaneLaws::lower_branch), unfolding(sums::specs::Recurrence::step, sums::specs::Arithmetic::rounded))]
pub fn gauss_norm_p_dp(
    n: usize,
    m: usize,
    k: f32,
    theta: Colatitude,
    diagonal: PDp,
    prev1: PDp,
    prev2: PDp,
) -> PDp
    requires { (0 < n) × (m ≤ n) }
    ensures { result ≡ pdp (step rounded theta.cos theta.sin k n m (qp diagonal) (qp prev1) (qp prev2)) }
{
    if n == m {
        return PDp {
            p: theta.sin * diagonal.p,
            dp: theta.sin * diagonal.dp + theta.cos * diagonal.p,
        };
    }
    if n == 1 && m == 0 {
        return PDp {
            p: theta.cos,
            dp: -theta.sin,
        };
    }
    if m > n - 2 {
        return PDp {
            p: theta.cos * prev1.p,
            dp: theta.cos * prev1.dp - theta.sin * prev1.p,
        };
    }
    lower_p_dp(k, theta.cos, theta.sin, prev1, prev2)
}

// Which row holds degree n - 2, n - 1 and n.
#[derive(Clone, Copy)]
pub struct Places {
    pub prev2: usize,
    pub prev1: usize,
    pub cur: usize,
}

impl Places {
    pub fn rotated(self) -> Places
        ensures { result ≡ rotated self }
    {
        Places {
            prev2: self.prev1,
            prev1: self.cur,
            cur: self.prev2,
        }
    }
}

// The rows of P and those of its derivative.
#[derive(Clone, Copy)]
pub struct Rows {
    pub p: [[f32; M_LEN]; 3],
    pub dp: [[f32; M_LEN]; 3],
}

impl Rows {
    // Order m of the row k.
    fn at(&self, k: usize, m: usize) -> PDp
        requires { (k < 3) × (m < M_LEN) }
        ensures { result ≡ pdp (cells self.now k m) }
    {
        PDp {
            p: self.p[k][m],
            dp: self.dp[k][m],
        }
    }

    // The orders m to m + 3 of the row k.
    pub fn four_at(&self, k: usize, m: usize) -> [PDp; 4]
        requires { (k < 3) × (m + 3 < M_LEN) }
        ensures { result ≡ four (λ j. pdp (cells self.now k (m + j))) }
    {
        [
            self.at(k, m),
            self.at(k, m + 1),
            self.at(k, m + 2),
            self.at(k, m + 3),
        ]
    }

    // P and its derivative of order m, into the row k.
    fn put(&mut self, k: usize, m: usize, r: PDp)
        requires { (k < 3) × (m < M_LEN) }
        ensures { self.new ≡ put_pair self.old k m r }
    {
        self.p[k][m] = r.p;
        self.dp[k][m] = r.dp;
    }

    // The same of the orders m to m + 3.
    pub fn put_four(&mut self, k: usize, m: usize, r: [PDp; 4])
        requires { (k < 3) × (m + 3 < M_LEN) }
        ensures { self.new ≡ put_pairs self.old k m r }
    {
        self.put(k, m, r[0]);
        self.put(k, m + 1, r[1]);
        self.put(k, m + 2, r[2]);
        self.put(k, m + 3, r[3]);
    }
}
