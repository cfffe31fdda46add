// The four lent lists of a set, and their checks: refusals 6, 23 and 7.
#![tactic(auto)]

ghost use Rattle.std.specs.Prelude.{◌≡◌, cond, ◌≤◌};
ghost use Rattle.std.specs.Float.Ieee.{neg};
ghost use Rattle.exact.specs.Tests.{all_between};
ghost use Rattle.lists.specs.Lists.{all_whole, caps_by, caps_verdict, entries_verdict, lengths_verdict, lists_verdict, long, one_degree, whole, within_of};

use refusals::{ListName, Refusal, Verdict};
use tables::{N_COEFF, N_COEFF_MAX};

mod profile;

pub use profile::{SecondSet, check_pair};

// The four lists of a set: the coefficients and their yearly rates.
#[derive(Clone, Copy)]
pub struct Lists<'a> {
    pub g: &'a [f32],
    pub h: &'a [f32],
    pub g_dot: &'a [f32],
    pub h_dot: &'a [f32],
}

// A coefficient set, as it is lent.
#[derive(Clone, Copy)]
pub struct CoefficientSet<'a> {
    pub epoch_year: i32,
    pub lists: Lists<'a>,
}

// Caps on an entry's size: nT for the coefficients, nT a year for the rates.
const MAIN_CAP: f32 = 65536.0;

const RATE_CAP: f32 = 4096.0;

// The search for the first entry over its cap. It runs only where there is one.
fn check_entries(list: ListName, s: &[f32], cap: f32) -> Verdict
    ensures { result ≡ entries_verdict cap list 0 s.now }
{
    for (index, x) in s.iter().enumerate() {
        if float32::over_cap(*x, cap) {
            return Err(Refusal::Coefficient { list, index });
        }
    }
    Ok(())
}

// 1 where an entry is over its cap, else 0. No early exit, so that it runs by lanes; and a flag as wide
// as an entry, so that no lane is narrowed.
fn outside_flag(s: &[f32], cap: f32) -> u32
    ensures value { result ≡ cond (all_between (neg cap) cap s.now) 0 1 }
    ensures upper_bound { result ≤ 1 }
{
    let mut bad = 0u32;
    for x in s {
        if float32::outside(*x, -cap, cap) {
            bad = 1;
        }
    }
    bad
}

// A list of degree 12 or of degree 13.
fn is_whole(s: &[f32]) -> bool
    ensures { result ≡ whole s.now }
{
    s.len() == N_COEFF || s.len() == N_COEFF_MAX
}

impl<'a> Lists<'a> {
    // The lists whose sums are the yearly rates: the rates in the place of the coefficients, and again as
    // rates.
    pub fn rated(self) -> Lists<'a>
        ensures answer { let l = self.entry in result ≡ record { g = l.g_dot; h = l.h_dot; g_dot = l.g_dot; h_dot = l.h_dot } }
        ensures kept { self.exit ≡ self.entry }
    {
        Lists {
            g: self.g_dot,
            h: self.h_dot,
            ..self
        }
    }

    fn are_whole(self) -> bool
        ensures { let l = self.entry in result ≡ all_whole l.g.now l.h.now l.g_dot.now l.h_dot.now }
    {
        is_whole(self.g) && is_whole(self.h) && is_whole(self.g_dot) && is_whole(self.h_dot)
    }

    fn are_alike(self) -> bool
        ensures { let l = self.entry in result ≡ one_degree l.g.now l.h.now l.g_dot.now l.h_dot.now }
    {
        let n = self.g.len();
        self.h.len() == n && self.g_dot.len() == n && self.h_dot.len() == n
    }

    // The lengths alone: 6, then 23. Lists of one length are asked of first: there the first list speaks
    // for all.
    pub fn check_lengths(self) -> Verdict
        ensures answer { let l = self.entry in result ≡ lengths_verdict l.g.now l.h.now l.g_dot.now l.h_dot.now }
        ensures kept { self.exit ≡ self.entry }
    {
        if self.are_alike() {
            if is_whole(self.g) {
                return Ok(());
            }
            return Err(Refusal::Length);
        }
        if self.are_whole() {
            return Err(Refusal::Degree);
        }
        Err(Refusal::Length)
    }

    // Each of the four is 90 long: what the readers and the writer of the WMM's sets ask.
    pub fn are_long(self) -> bool
        ensures answer { let l = self.entry in result ≡ long l.g.now l.h.now l.g_dot.now l.h_dot.now }
        ensures kept { self.exit ≡ self.entry }
    {
        self.g.len() == N_COEFF
            && self.h.len() == N_COEFF
            && self.g_dot.len() == N_COEFF
            && self.h_dot.len() == N_COEFF
    }

    // All four are looked at before the one question. `cap` is that of the last two.
    #[tactic(auto, using(crate::proofs::Checked::flags_decide))]
    fn are_within(self, cap: f32) -> bool
        ensures { let l = self.entry in result ≡ within_of cap l.g.now l.h.now l.g_dot.now l.h_dot.now }
    {
        let a = outside_flag(self.g, MAIN_CAP);
        let b = outside_flag(self.h, MAIN_CAP);
        let c = outside_flag(self.g_dot, cap);
        let d = outside_flag(self.h_dot, cap);
        a + b + c + d == 0
    }

    // The first entry that is over its cap, list by list. The last two have names and a cap of their own.
    // It runs only where there is one.
    fn search_caps(self, third: ListName, fourth: ListName, cap: f32) -> Verdict
        ensures { let l = self.entry in result ≡ caps_by third fourth cap l.g.now l.h.now l.g_dot.now l.h_dot.now }
    {
        check_entries(ListName::G, self.g, MAIN_CAP)?;
        check_entries(ListName::H, self.h, MAIN_CAP)?;
        check_entries(third, self.g_dot, cap)?;
        check_entries(fourth, self.h_dot, cap)
    }

    // The caps alone, whatever the lengths: for those who read or write a set. Sum's own checks are
    // `check`, which has no other caller, so that the compiler puts them into it.
    #[tactic(auto, using(crate::proofs::Checked::caps_pass))]
    pub fn check_caps(self) -> Verdict
        ensures answer { let l = self.entry in result ≡ caps_verdict l.g.now l.h.now l.g_dot.now l.h_dot.now }
        ensures kept { self.exit ≡ self.entry }
    {
        if self.are_within(RATE_CAP) {
            return Ok(());
        }
        self.search_caps(ListName::GDot, ListName::HDot, RATE_CAP)
    }

    // 6, 23, then 7.
    #[tactic(auto, using(crate::proofs::Checked::caps_pass), unfolding(crate::specs::Lists::lists_verdict))]
    pub fn check(self) -> Verdict
        ensures answer { let l = self.entry in result ≡ lists_verdict l.g.now l.h.now l.g_dot.now l.h_dot.now }
        ensures kept { self.exit ≡ self.entry }
    {
        self.check_lengths()?;
        if self.are_within(RATE_CAP) {
            return Ok(());
        }
        self.search_caps(ListName::GDot, ListName::HDot, RATE_CAP)
    }
}
