// The general path: all orders, Y' not yet divided by sin θ.
ghost use Rattle.std.specs.Prelude.{◌≡◌, ◌+◌, ◌*◌, ◌/◌, ◌<◌, ◌≤◌, Float, T};
ghost use Rattle.std.specs.Float.{binary32};
ghost use Rattle.std.specs.Float.Ieee.{of_bits};
ghost use Rattle.tables.specs.Degree.{N_MAX, M_LEN, WMM_MAX, place};
ghost use Rattle.sums.specs.Arithmetic.{rounded};
ghost use Rattle.sums.specs.Recurrence.{Input};
ghost use Rattle.exact.specs.Tests.{circle};
ghost use Rattle.synthesis.specs.Sum.{inputs, lent_at};
ghost use Rattle.synthesis.specs.Code.{Above, Filled, Fresh, ListsOf, Reach, Ready, Wide, general, lane_total, lowered_at, nothing, pair_at, put_term, starts_of, term_at};

use crate::angles::sin_cos_m_lambda;
use crate::date::Dated;
use crate::degrees::degree_part;
use crate::lanes::{Starts, Weights, lane_weights, next_k, start_values};
use crate::rows::{PDp, Places, Rows, legendre_index};
use crate::terms::{Sources, Terms};
use crate::{Colatitude, Longitude, M_LEN, Xyz};
use tables::{N_LEGENDRE, N_MAX, WMM_MAX};

// What the lanes read.
#[derive(Clone, Copy)]
pub struct Lanes<'a> {
    pub sources: Sources<'a>,
    pub weights: &'a Weights,
    pub starts: &'a Starts,
}

impl<'a> Lanes<'a> {
    // The terms of the orders m to m + 3 in the degrees above m. Their four lanes go from degree to degree,
    // with their factors, which are 0 in degree m + 1: those of degree n - 2 are read from their row, those
    // of degree n - 1 are still at hand, so that no load waits for its store. What stands in a lane above
    // its degree is stored at a place of the next, and stored over later.
    fn put_four_orders(self, top: usize, m: usize, rows: &mut Rows, terms: &mut Terms)
        requires of_degree { ListsOf top self.sources.dated.lists }
        requires m_bound { (m + 3 < WMM_MAX) × (4 * (m / 4) ≡ m) }
        ensures { (i : Input Float) → Ready i top self.entry → Fresh i (m + 4) rows.old → Above i top (m + 4) terms.old
            → Fresh i m rows.new × Filled i top m terms.new }
    {
        let mut q = Places {
            prev2: 0,
            prev1: 1,
            cur: 2,
        };
        let mut r = rows.four_at(q.prev1, m);
        let mut k = [0.0f32; 4];
        for n in m + 1..top + 1 {
            let i = legendre_index(n, m);
            let b = rows.four_at(q.prev2, m);
            let a = self.weights.lower_four(k, m + N_MAX - n, r, b);
            rows.put_four(q.cur, m, a);
            let next = next_k(n, m);
            let v = self.sources.four_terms(m, i, a);
            terms.put_four(i, v);
            r = a;
            k = next;
            q = q.rotated();
        }
    }

    // The terms of degree n and order m, from their P.
    fn put_one(self, n: usize, m: usize, r: PDp, terms: &mut Terms)
        requires reach { Reach (place n m) self.sources.dated.lists }
        requires in_tables { (0 < n) × (n < M_LEN) × (m ≤ n) }
        ensures { terms.new ≡ put_term terms.old (place n m) (term_at self.entry.sources m (place n m) r) }
    {
        let i = legendre_index(n, m);
        let v = self.sources.term(m, i, r);
        terms.put(i, v);
    }

    // The terms of order m in degree m: P is where the lane starts.
    fn put_corner(self, m: usize, terms: &mut Terms)
        requires reach { Reach (place m m) self.sources.dated.lists }
        requires m_nonzero { (0 < m) × (m < M_LEN) }
        ensures { terms.new ≡ put_term terms.old (place m m) (term_at self.entry.sources m (place m m) (pair_at self.entry.starts.now m)) }
    {
        self.put_one(m, m, self.starts.at(m), terms);
    }

    // The terms of order m in degree 13, where m is 12 or 13: one step from where its lane starts.
    fn put_last(self, m: usize, terms: &mut Terms)
        requires of_degree { ListsOf N_MAX self.sources.dated.lists }
        requires m_bound { m ≤ N_MAX }
        ensures { terms.new ≡ put_term terms.old (place N_MAX m) (term_at self.entry.sources m (place N_MAX m) (lowered_at self.entry.weights.now m (of_bits binary32 0) (pair_at self.entry.starts.now m) nothing)) }
    {
        let none = PDp { p: 0.0, dp: 0.0 };
        let r = self.weights.lower(0.0, m, self.starts.at(m), none);
        self.put_one(N_MAX, m, r, terms);
    }

    // The terms of the orders 12 and 13 in degree 13, where there is one. The four lanes that they belong to
    // would reach beyond the lists.
    fn put_last_two(self, top: usize, terms: &mut Terms)
        requires { ListsOf top self.sources.dated.lists }
        ensures { (i : Input Float) → Ready i top self.entry → Wide terms.old → Filled i top WMM_MAX terms.new }
    {
        if top == N_MAX {
            self.put_last(WMM_MAX, terms);
            self.put_last(N_MAX, terms);
        }
    }

    // The terms of all degrees and orders, from the last four orders to the first: what they leave over is
    // then at places that are still to be stored. Counted down by hand, since each turn has two orders, the
    // corner's above its four.
    fn put_all(self, top: usize, rows: &mut Rows, terms: &mut Terms)
        requires { ListsOf top self.sources.dated.lists }
        ensures { (i : Input Float) → Ready i top self.entry → Fresh i WMM_MAX rows.old → Wide terms.old → Filled i top 0 terms.new }
    {
        self.put_last_two(top, terms);
        let mut m = WMM_MAX;
        while 0 < m {
            self.put_corner(m, terms);
            m -= 4;
            self.put_four_orders(top, m, rows, terms);
        }
    }

    // The sums of all degrees.
    fn sums(self, top: usize, ratio: f32) -> Xyz
        requires { ListsOf top self.sources.dated.lists }
        ensures { (i : Input Float) → ratio ≡ i.ratio → Ready i top self.entry → self.entry.starts.now ≡ starts_of i.cos_theta i.sin_theta → result ≡ lane_total i top }
    {
        // Lanes begin in the row in the middle. The row before it is read once and multiplied by 0, so
        // zeros do; the last is stored before it is read.
        let none = [0.0f32; M_LEN];
        let mut rows = Rows {
            p: [none, self.starts.p, none],
            dp: [none, self.starts.dp, none],
        };
        let mut terms = Terms {
            x: [0.0f32; N_LEGENDRE],
            y: [0.0f32; N_LEGENDRE],
            z: [0.0f32; N_LEGENDRE],
        };
        self.put_all(top, &mut rows, &mut terms);
        add_degrees(top, ratio, &terms)
    }
}

// The degrees one after another. They come after all terms: the sums of one degree then need not wait
// for those of another.
fn add_degrees(top: usize, ratio: f32, terms: &Terms) -> Xyz
    requires { top ≤ N_MAX }
    ensures { (i : Input Float) → ratio ≡ i.ratio → Filled i top 0 terms.now → result ≡ lane_total i top }
{
    let mut power = ratio * ratio * ratio;
    let mut tot = Xyz {
        x: 0.0,
        y: 0.0,
        z: 0.0,
    };
    for n in 1..top + 1 {
        let acc = terms.added(legendre_index(n, 0), n + 1);
        tot = tot.plus(degree_part(n, power, acc));
        power = power * ratio;
    }
    tot
}

pub fn synthesize_xyz_prime(
    top: usize,
    theta: Colatitude,
    lambda: Longitude,
    ratio: f32,
    dated: Dated,
) -> Xyz
    requires of_degree { ListsOf top dated.lists }
    requires t { T (circle theta.sin theta.cos) }
    ensures { result ≡ general (inputs rounded (lent_at theta lambda ratio dated.entry.offset dated.entry.lists)) top }
{
    let starts = start_values(theta);
    let angles = sin_cos_m_lambda(lambda);
    let weights = lane_weights(theta);
    let schmidt = tables::schmidt_table();
    let sources = Sources {
        schmidt: &schmidt,
        dated,
        angles: &angles,
    };
    let lanes = Lanes {
        sources,
        weights: &weights,
        starts: &starts,
    };
    lanes.sums(top, ratio)
}
