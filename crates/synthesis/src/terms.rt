// The terms of the three sums. They go through lists, one place for each degree and order, since only
// stores run by lanes: the sums add them one after another.
ghost use Rattle.std.specs.Prelude.{◌≡◌, ◌+◌, ◌<◌, ◌≤◌, Float};
ghost use Rattle.tables.specs.Degree.{M_LEN, N_LEGENDRE};
ghost use Rattle.sums.specs.Recurrence.{Input};
ghost use Rattle.synthesis.specs.Code.{Reach, cell_xyz, four_terms, put_term, put_terms, term_at, term_of, totals};

use crate::Xyz;
use crate::angles::{Angles, SinCos};
use crate::date::{Dated, Gh};
use crate::lanes::order;
use crate::rows::PDp;
use tables::N_LEGENDRE;

// An order's terms of the three sums of its degree, s its Schmidt factor and r its P. That of X has its
// sign turned: the sum takes it away, so that no step has to turn a sign.
#[tactic(auto, unfolding(crate::specs::Code::term_of, sums::specs::Arithmetic::rounded))]
pub fn term_of(order: f32, s: f32, r: PDp, w: Gh, u: SinCos) -> Xyz
    ensures { result ≡ term_of order s r w.g w.h u.sin u.cos }
{
    let psn = s * r.p;
    // The minus of the source's `dpsn` is left to the sum.
    let dpsn = s * r.dp;
    let g_c_h_s = w.g * u.cos + w.h * u.sin;
    let g_s_h_c = w.g * u.sin - w.h * u.cos;
    Xyz {
        x: g_c_h_s * dpsn,
        y: order * g_s_h_c * psn,
        z: g_c_h_s * psn,
    }
}

// What the terms are made of besides P.
#[derive(Clone, Copy)]
pub struct Sources<'a> {
    pub schmidt: &'a [f32; N_LEGENDRE],
    pub dated: Dated<'a>,
    pub angles: &'a Angles,
}

impl<'a> Sources<'a> {
    // The terms of order m, at place i of the tables.
    pub fn term(self, m: usize, i: usize, r: PDp) -> Xyz
        requires reach { Reach i self.dated.lists }
        requires in_tables { (m < M_LEN) × (0 < i) × (i < N_LEGENDRE) }
        ensures { result ≡ term_at self.entry m i r }
    {
        let w = self.dated.at(i - 1);
        term_of(order(m), self.schmidt[i], r, w, self.angles.at(m))
    }

    // The terms of the orders m to m + 3. All are made before any is stored, so that they run at once.
    pub fn four_terms(self, m: usize, i: usize, r: [PDp; 4]) -> [Xyz; 4]
        requires reach { Reach (i + 3) self.dated.lists }
        requires in_tables { (m + 3 < M_LEN) × (0 < i) × (i + 3 < N_LEGENDRE) }
        ensures { result ≡ four_terms self.entry m i r }
    {
        [
            self.term(m, i, r[0]),
            self.term(m + 1, i + 1, r[1]),
            self.term(m + 2, i + 2, r[2]),
            self.term(m + 3, i + 3, r[3]),
        ]
    }
}

// The terms of all degrees and orders, by place.
#[derive(Clone, Copy)]
pub struct Terms {
    pub x: [f32; N_LEGENDRE],
    pub y: [f32; N_LEGENDRE],
    pub z: [f32; N_LEGENDRE],
}

impl Terms {
    // Terms at place i.
    #[tactic(auto, unfolding(crate::specs::Code::put_term))]
    pub fn put(&mut self, i: usize, v: Xyz)
        requires { i < N_LEGENDRE }
        ensures { self.new ≡ put_term self.old i v }
    {
        self.x[i] = v.x;
        self.y[i] = v.y;
        self.z[i] = v.z;
    }

    // The same of four orders, from place i on.
    pub fn put_four(&mut self, i: usize, v: [Xyz; 4])
        requires { i + 3 < N_LEGENDRE }
        ensures { self.new ≡ put_terms self.old i v }
    {
        self.put(i, v[0]);
        self.put(i + 1, v[1]);
        self.put(i + 2, v[2]);
        self.put(i + 3, v[3]);
    }

    // `count` terms from place i on, added up in that order. Those of X are stored with their sign turned.
    pub fn added(&self, i: usize, count: usize) -> Xyz
        requires { i + count ≤ N_LEGENDRE }
        ensures { (j : Input Float) → result ≡ totals j (λ m. cell_xyz self.now (i + m)) count }
    {
        let mut x = 0.0f32;
        let mut y = 0.0f32;
        let mut z = 0.0f32;
        for m in i..i + count {
            x = x - self.x[m];
            y = y + self.y[m];
            z = z + self.z[m];
        }
        Xyz { x, y, z }
    }
}
