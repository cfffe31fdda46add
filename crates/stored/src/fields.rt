// The five fields in a stored set's bytes, and their checks: refusals 17, 18 and 19.
ghost use Rattle.std.specs.Prelude.{◌≡◌, ◌^◌, ◌<◌, [], ◌+◌, ◌≤◌, cond, leb, length, take, drop, Some, None, IfOk, OnOk};
ghost use Rattle.stored.specs.Fields.{WholeContents, contents_set, outcome, tag_of};
ghost use Rattle.stored.specs.Layout.{HEAD, LONGER, list_length, number, stored_length};
ghost use Rattle.stored.specs.Stored.{fields_verdict, field_verdict, entries_in, frame_of, set_of};

use crate::layout::{ENTRY, Field, G, HEAD, YEAR_LENGTH};
use refusals::{Refusal, Verdict};
use tables::{N_COEFF, N_COEFF_MAX};

// The number that stands in two bytes.
pub fn number(two: &[u8]) -> u16
    requires { length two.now ≡ 2 }
    ensures { result ≡ number two.now }
{
    u16::from_le_bytes([two[0], two[1]])
}

// The length that stands at a place, where the bytes reach so far.
fn length_at(bytes: &[u8], at: usize) -> Option<usize>
    requires { at + 2 < 2 ^ 64 }
    ensures { result ≡ cond (leb (at + 2) (length bytes.now)) (Some (number (take 2 (drop at bytes.now)))) None }
{
    let two = bytes.get(at..at + 2)?;
    Some(usize::from(number(two)))
}

// How many entries a list has, by the length of the first.
#[tactic(auto, unfolding(crate::specs::Stored::entries_in))]
pub fn entries_in(bytes: &[u8]) -> usize
    ensures value { result ≡ entries_in bytes.now }
    ensures upper_bound { result ≤ LONGER }
{
    if length_at(bytes, G + 1) == Some(ENTRY * N_COEFF_MAX) {
        N_COEFF_MAX
    } else {
        N_COEFF
    }
}

// The fields from a place on.
#[derive(Drop)]
struct Fields<'a> {
    bytes: &'a [u8],
    at: usize,
}

impl<'a> Fields<'a> {
    // The content of the next field, which is to have this length.
    fn content(&mut self, field: Field, n: usize) -> Result<&'a [u8], Refusal>
        requires at_bound { self.old.at ≤ stored_length LONGER }
        requires n_bound { n ≤ list_length LONGER }
        ensures verdict { outcome result ≡ field_verdict (tag_of field) n self.old.at self.old.bytes.now }
        ensures content { IfOk result (λ c. c.now ≡ take n (drop (self.old.at + HEAD) self.old.bytes.now)) }
        ensures content_len { IfOk result (λ c. length c.now ≡ n) }
        ensures next { OnOk result (self.new ≡ record self.old { at = self.old.at + HEAD + n }) }
    {
        let bytes = self.bytes;
        let at = self.at;
        let too_short = Refusal::WrongEnd { place: bytes.len() };
        let tag = *bytes.get(at).ok_or(too_short)?;
        if tag != field.tag() {
            return Err(Refusal::WrongTag { place: at });
        }
        let found = length_at(bytes, at + 1).ok_or(too_short)?;
        if found != n {
            return Err(Refusal::WrongLength { place: at + 1 });
        }
        let content = bytes.get(at + HEAD..at + HEAD + n).ok_or(too_short)?;
        self.at = at + HEAD + n;
        Ok(content)
    }

    // Nothing stands after the last field.
    #[tactic(auto, unfolding(crate::specs::Stored::fields_verdict))]
    fn end(&self) -> Verdict
        ensures { result ≡ fields_verdict [] 6 self.now.at self.now.bytes.now }
    {
        if self.at < self.bytes.len() {
            return Err(Refusal::WrongEnd { place: self.at });
        }
        Ok(())
    }
}

// What stands in the fields.
#[derive(Clone, Copy)]
pub struct Contents<'a> {
    pub epoch_year: &'a [u8],
    pub g: &'a [u8],
    pub h: &'a [u8],
    pub g_dot: &'a [u8],
    pub h_dot: &'a [u8],
}

impl<'a> Contents<'a> {
    // Every field, and nothing after the last.
    #[tactic(auto, unfolding(crate::specs::Stored::fields_verdict))]
    pub fn parse(bytes: &'a [u8], entries: usize) -> Result<Contents<'a>, Refusal>
        requires { «entries» ≤ LONGER }
        ensures verdict { outcome result ≡ frame_of «entries» bytes.now }
        ensures set { IfOk result (λ c. contents_set «entries» c ≡ set_of «entries» bytes.now) }
        ensures lengths { IfOk result (WholeContents «entries») }
    {
        let n = ENTRY * entries;
        let mut fields = Fields { bytes, at: 0 };
        let contents = Contents {
            epoch_year: fields.content(Field::EpochYear, YEAR_LENGTH)?,
            g: fields.content(Field::G, n)?,
            h: fields.content(Field::H, n)?,
            g_dot: fields.content(Field::GDot, n)?,
            h_dot: fields.content(Field::HDot, n)?,
        };
        fields.end()?;
        Ok(contents)
    }
}
