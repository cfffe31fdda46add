// A stored set: a coefficient set as bytes, in five tagged fields. All is checked before a lent list or
// a lent byte is written.
#![tactic(auto)]

ghost use Rattle.std.specs.Prelude.{◌≡◌};
ghost use Rattle.lists.specs.Sets.{left, lists_of};
ghost use Rattle.refusals.specs.Paper.{said};
ghost use Rattle.stored.specs.Stored.{read_either_of, read_of, write_either_of, write_of, written};

mod fields;
mod layout;
mod put;
mod take;

use fields::{Contents, entries_in};
use lists::{CoefficientSet, Lists};
use refusals::{Refusal, Verdict};
use tables::{N_COEFF, N_COEFF_MAX};

// The epoch year of a stored set, and its four lists. Refusals: 6, then 17, 18 and 19 by the first
// place in the bytes, then 7; refused bytes leave the four lists as they were.
#[tactic(auto, unfolding(crate::specs::Stored::stored_says, crate::specs::Stored::says_of, crate::specs::Stored::verdict_of))]
pub fn read(
    bytes: &[u8],
    g: &mut [f32],
    h: &mut [f32],
    g_dot: &mut [f32],
    h_dot: &mut [f32],
) -> Result<i32, Refusal>
    ensures answer { left (said result) (lists_of g.new h.new g_dot.new h_dot.new)
        ≡ read_of bytes.now (lists_of g.old h.old g_dot.old h_dot.old) }
    ensures kept { bytes.exit.now ≡ bytes.entry.now }
{
    let lent = Lists { g, h, g_dot, h_dot };
    if !lent.are_long() {
        return Err(Refusal::Length);
    }
    let contents = Contents::parse(bytes, N_COEFF)?;
    take::set::<N_COEFF>(contents, g, h, g_dot, h_dot)
}

// The same for lists of 90 entries or of 104, which are to be as long as the stored ones. Refusals: 6, 23
// where the lists are not of one length, 17, 18 and 19 as above, 23 where the stored lists are of the
// other length, then 7.
#[tactic(auto, unfolding(crate::specs::Stored::either_verdict, crate::specs::Stored::form_verdict))]
pub fn read_either(
    bytes: &[u8],
    g: &mut [f32],
    h: &mut [f32],
    g_dot: &mut [f32],
    h_dot: &mut [f32],
) -> Result<i32, Refusal>
    ensures answer { left (said result) (lists_of g.new h.new g_dot.new h_dot.new)
        ≡ read_either_of bytes.now (lists_of g.old h.old g_dot.old h_dot.old) }
    ensures kept { bytes.exit.now ≡ bytes.entry.now }
{
    let lent = Lists { g, h, g_dot, h_dot };
    lent.check_lengths()?;
    let entries = entries_in(bytes);
    let contents = Contents::parse(bytes, entries)?;
    if g.len() != entries {
        return Err(Refusal::Degree);
    }
    if entries == N_COEFF {
        take::set::<N_COEFF>(contents, g, h, g_dot, h_dot)
    } else {
        take::set::<N_COEFF_MAX>(contents, g, h, g_dot, h_dot)
    }
}

// A set as the first 1457 of the lent bytes. Refusals: 6, 7, then 20; a refused call leaves all bytes as
// they were, and a call that writes leaves those after the set.
#[tactic(auto, unfolding(crate::specs::Stored::write_verdict, lists::specs::Lists::ninety_verdict))]
pub fn write(set: CoefficientSet<'_>, bytes: &mut [u8]) -> Verdict
    ensures answer { let l = set.entry.lists in written result bytes.new
        ≡ write_of set.entry.epoch_year (lists_of l.g.now l.h.now l.g_dot.now l.h_dot.now) bytes.old }
    ensures kept { set.exit ≡ set.entry }
{
    if !set.lists.are_long() {
        return Err(Refusal::Length);
    }
    put::set(set, bytes)
}

// The same for lists of 90 entries or of 104, which take 1681 bytes. Refusals: 6, 23 where the lists are
// not of one length, 7, then 20.
#[tactic(auto, unfolding(crate::specs::Stored::write_either_verdict, lists::specs::Lists::lists_verdict))]
pub fn write_either(set: CoefficientSet<'_>, bytes: &mut [u8]) -> Verdict
    ensures answer { let l = set.entry.lists in written result bytes.new
        ≡ write_either_of set.entry.epoch_year (lists_of l.g.now l.h.now l.g_dot.now l.h_dot.now) bytes.old }
    ensures kept { set.exit ≡ set.entry }
{
    set.lists.check_lengths()?;
    put::set(set, bytes)
}
