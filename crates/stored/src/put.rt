// The bytes of a set, and refusals 7 and 20 before they are written.
ghost use Rattle.std.specs.Prelude.{◌≡◌, ◌++◌, ◌+◌, ◌≤◌, length, drop, nat_abs};
ghost use Rattle.lists.specs.Sets.{lists_of, set_verdict};
ghost use Rattle.refusals.specs.Paper.{both};
ghost use Rattle.stored.specs.Fields.{tag_of};
ghost use Rattle.stored.specs.Layout.{HEAD, LONGER, YEAR, bytes_of, field_of, list_length, low_first, stored_length};
ghost use Rattle.stored.specs.Stored.{Each, room_verdict, stored_of, written, wrote};

use crate::layout::{ENTRY, Field, G, HEAD, YEAR_LENGTH, stored_length};
use lists::{CoefficientSet, Lists};
use refusals::{Refusal, Verdict};

// A list's entries.
fn floats(content: &mut [u8], list: &[f32])
    requires { length content.old ≡ list_length (length list.now) }
    ensures { content.new ≡ bytes_of list.now }
{
    for (i, x) in list.iter().enumerate() {
        let at = ENTRY * i;
        content[at..at + ENTRY].copy_from_slice(&float32::to_bits(*x).to_le_bytes());
    }
}

// The field of a list.
fn list(field: &mut [u8], name: Field, list: &[f32])
    requires bound { length list.now ≤ LONGER }
    requires room { length field.old ≡ HEAD + list_length (length list.now) }
    ensures { field.new ≡ field_of (tag_of name) (bytes_of list.now) }
{
    let (head, content) = field.split_at_mut(HEAD);
    let [low, high] = (content.len() as u16).to_le_bytes();
    head.copy_from_slice(&[name.tag(), low, high]);
    floats(content, list);
}

// The field of the epoch year.
fn year(field: &mut [u8], year: u16)
    requires { length field.old ≡ HEAD + YEAR }
    ensures { field.new ≡ field_of 1 (low_first YEAR year) }
{
    let [low, high] = (YEAR_LENGTH as u16).to_le_bytes();
    let [year_low, year_high] = year.to_le_bytes();
    field.copy_from_slice(&[Field::EpochYear.tag(), low, high, year_low, year_high]);
}

// The five fields.
fn fields(bytes: &mut [u8], epoch_year: u16, lists: Lists<'_>)
    requires room { stored_length (length lists.g.now) ≤ length bytes.old }
    requires bound { length lists.g.now ≤ LONGER }
    requires each { Each (length lists.g.now) (lists_of lists.g.now lists.h.now lists.g_dot.now lists.h_dot.now) }
    ensures { let l = lists.entry in bytes.new ≡ stored_of epoch_year (lists_of l.g.now l.h.now l.g_dot.now l.h_dot.now) ++ drop (stored_length (length l.g.now)) bytes.old }
{
    let n = HEAD + ENTRY * lists.g.len();
    let (first, rest) = bytes.split_at_mut(G);
    year(first, epoch_year);
    let (first, rest) = rest.split_at_mut(n);
    list(first, Field::G, lists.g);
    let (first, rest) = rest.split_at_mut(n);
    list(first, Field::H, lists.h);
    let (first, rest) = rest.split_at_mut(n);
    list(first, Field::GDot, lists.g_dot);
    list(&mut rest[..n], Field::HDot, lists.h_dot);
}

// The whole set. What both writers ask after the lengths comes first.
pub fn set(set: CoefficientSet<'_>, bytes: &mut [u8]) -> Verdict
    requires bound { length set.lists.g.now ≤ LONGER }
    requires each { Each (length set.lists.g.now) (lists_of set.lists.g.now set.lists.h.now set.lists.g_dot.now set.lists.h_dot.now) }
    ensures { let l = set.entry.lists in let lists = lists_of l.g.now l.h.now l.g_dot.now l.h_dot.now in let k = length l.g.now in
        written result bytes.new
        ≡ wrote (stored_length k) (both (set_verdict lists) (room_verdict k set.entry.epoch_year (length bytes.old))) (stored_of (nat_abs set.entry.epoch_year) lists) bytes.old }
{
    set.lists.check_caps()?;
    let Ok(epoch_year) = u16::try_from(set.epoch_year) else {
        return Err(Refusal::NoRoom);
    };
    if bytes.len() < stored_length(set.lists.g.len()) {
        return Err(Refusal::NoRoom);
    }
    fields(bytes, epoch_year, set.lists);
    Ok(())
}
