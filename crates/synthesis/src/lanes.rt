// The general path runs over the orders in lanes, four at a time, and every lane takes the same step.
// A lane whose order is not below the degree keeps its start value, P(m, m): it is multiplied by 1
// where the others are by cos θ, and by 0 where they are by sin θ; its k is 0.
ghost use Rattle.std.specs.Prelude.{◌≡◌, cond, ℕ, ◌+◌, ◌<◌, ltb, get_or};
ghost use Rattle.std.specs.Float.{nan, binary32};
ghost use Rattle.std.specs.Float.Ieee.{of_bits};
ghost use Rattle.tables.specs.Degree.{M_LEN, N_MAX};
ghost use Rattle.sums.specs.Recurrence.{lit};
ghost use Rattle.synthesis.specs.Code.{W_LEN, divisor_at, four, lowered_at, lowered_four, next_k, pair_at, square_at, starts_of};

use crate::rows::{PDp, lower_p_dp};
use crate::{Colatitude, M_LEN};
use tables::N_MAX;

const W_LEN: usize = 2 * N_MAX;

// P(m, m) and its derivative, by order.
#[derive(Clone, Copy)]
pub struct Starts {
    pub p: [f32; M_LEN],
    pub dp: [f32; M_LEN],
}

impl Starts {
    pub fn at(&self, m: usize) -> PDp
        requires { m < M_LEN }
        ensures { result ≡ pair_at self.now m }
    {
        PDp {
            p: self.p[m],
            dp: self.dp[m],
        }
    }
}

pub fn start_values(theta: Colatitude) -> Starts
    ensures { result ≡ starts_of theta.cos theta.sin }
{
    let mut p = [0.0f32; M_LEN];
    let mut dp = [0.0f32; M_LEN];
    p[0] = 1.0;
    for m in 1..M_LEN {
        let a = p[m - 1];
        let b = dp[m - 1];
        p[m] = theta.sin * a;
        dp[m] = theta.sin * b + theta.cos * a;
    }
    Starts { p, dp }
}

// What the lanes are multiplied by: from place N_MAX - n on, the first n are below the degree n.
#[derive(Clone, Copy)]
pub struct Weights {
    pub cos: [f32; W_LEN],
    pub sin: [f32; W_LEN],
}

fn below_then(below: f32, then: f32) -> [f32; W_LEN]
    ensures { (j : ℕ) → j < W_LEN → get_or result j nan ≡ cond (ltb j N_MAX) below then }
{
    let mut r = [then; W_LEN];
    r[..N_MAX].fill(below);
    r
}

pub fn lane_weights(theta: Colatitude) -> Weights
    ensures { (j : ℕ) → j < W_LEN → (get_or result.cos j nan ≡ cond (ltb j N_MAX) theta.cos (of_bits binary32 0x3f800000))
        × (get_or result.sin j nan ≡ cond (ltb j N_MAX) theta.sin (of_bits binary32 0)) }
{
    Weights {
        cos: below_then(theta.cos, 1.0),
        sin: below_then(theta.sin, 0.0),
    }
}

impl Weights {
    // A lane after a step, a of degree n - 1 and b of degree n - 2; its weights are at place w.
    pub fn lower(&self, k: f32, w: usize, a: PDp, b: PDp) -> PDp
        requires { w < W_LEN }
        ensures { result ≡ lowered_at self.now w k a b }
    {
        lower_p_dp(k, self.cos[w], self.sin[w], a, b)
    }

    // The same of four lanes; their weights are from place w on.
    pub fn lower_four(&self, k: [f32; 4], w: usize, a: [PDp; 4], b: [PDp; 4]) -> [PDp; 4]
        requires { w + 3 < W_LEN }
        ensures { result ≡ lowered_four self.now w k a b }
    {
        [
            self.lower(k[0], w, a[0], b[0]),
            self.lower(k[1], w + 1, a[1], b[1]),
            self.lower(k[2], w + 2, a[2], b[2]),
            self.lower(k[3], w + 3, a[3], b[3]),
        ]
    }
}

// The orders as f32; their squares, and what K is divided by in the degree after each: K's numbers that
// all lanes share. Read from tables: a conversion does not run by lanes.
static ORDERS: [f32; M_LEN] = [
    0.0, 1.0, 2.0, 3.0, 4.0, 5.0, 6.0, 7.0, 8.0, 9.0, 10.0, 11.0, 12.0, 13.0,
];

static SQUARES: [f32; M_LEN] = [
    0.0, 1.0, 4.0, 9.0, 16.0, 25.0, 36.0, 49.0, 64.0, 81.0, 100.0, 121.0, 144.0, 169.0,
];

static DIVISORS: [f32; M_LEN] = [
    1.0, 3.0, 15.0, 35.0, 63.0, 99.0, 143.0, 195.0, 255.0, 323.0, 399.0, 483.0, 575.0, 675.0,
];

pub fn order(m: usize) -> f32
    requires { m < M_LEN }
    ensures { result ≡ lit m }
{
    ORDERS[m]
}

fn square(n: usize) -> f32
    requires { n < M_LEN }
    ensures { result ≡ square_at n }
{
    SQUARES[n]
}

fn divisor(n: usize) -> f32
    requires { n < M_LEN }
    ensures { result ≡ divisor_at n }
{
    DIVISORS[n]
}

// The factors of the degree after n for the lanes m to m + 3: made one degree ahead, so that no lane
// waits for a division.
pub fn next_k(n: usize, m: usize) -> [f32; 4]
    requires { (n < M_LEN) × (m + 3 < M_LEN) }
    ensures { result ≡ four (λ j. next_k n (m + j)) }
{
    let s = square(n);
    let d = divisor(n);
    [
        tables::legendre_k_over(s, order(m), d),
        tables::legendre_k_over(s, order(m + 1), d),
        tables::legendre_k_over(s, order(m + 2), d),
        tables::legendre_k_over(s, order(m + 3), d),
    ]
}
