// The set that stands in the contents of five fields, and refusal 7.
ghost use Rattle.std.specs.Prelude.{◌≡◌, ◌+◌, ◌*◌, ◌≤◌, length, take, drop};
ghost use Rattle.float32.specs.Bits.{float_of};
ghost use Rattle.lists.specs.Sets.{afterwards, left, lists_of, set_verdict};
ghost use Rattle.refusals.specs.Paper.{answered, said, told};
ghost use Rattle.stored.specs.Fields.{WholeContents, contents_set};
ghost use Rattle.stored.specs.Layout.{floats_in, list_length, number};
ghost use Rattle.stored.specs.Stored.{Each};

use crate::fields::{Contents, number};
use crate::layout::ENTRY;
use lists::Lists;
use refusals::Refusal;

// The entry that stands at index i.
fn entry(content: &[u8], i: usize) -> f32
    requires { list_length (i + 1) ≤ length content.now }
    ensures { result ≡ float_of (number (take 4 (drop (list_length i) content.now))) }
{
    let at = ENTRY * i;
    let bits = u32::from_le_bytes([
        content[at],
        content[at + 1],
        content[at + 2],
        content[at + 3],
    ]);
    float32::from_bits(bits)
}

// The list that some bytes are.
fn list(content: &[u8], list: &mut [f32])
    requires { length content.now ≡ list_length (length list.old) }
    ensures { list.new ≡ floats_in (length list.old) content.now }
{
    for (i, x) in list.iter_mut().enumerate() {
        *x = entry(content, i);
    }
}

// All is checked in lists of the call's own before the lent ones are written.
pub fn set<const N: usize>(
    contents: Contents<'_>,
    g: &mut [f32],
    h: &mut [f32],
    g_dot: &mut [f32],
    h_dot: &mut [f32],
) -> Result<i32, Refusal>
    requires each { Each N (lists_of g.old h.old g_dot.old h_dot.old) }
    requires whole { WholeContents N contents }
    ensures { let s = contents_set N contents.entry in
        left (said result) (lists_of g.new h.new g_dot.new h_dot.new)
        ≡ afterwards (told (set_verdict s.lists) (answered s)) (lists_of g.old h.old g_dot.old h_dot.old) }
{
    let mut own_g = [0.0f32; N];
    let mut own_h = [0.0f32; N];
    let mut own_g_dot = [0.0f32; N];
    let mut own_h_dot = [0.0f32; N];
    list(contents.g, &mut own_g);
    list(contents.h, &mut own_h);
    list(contents.g_dot, &mut own_g_dot);
    list(contents.h_dot, &mut own_h_dot);
    let own = Lists {
        g: &own_g,
        h: &own_h,
        g_dot: &own_g_dot,
        h_dot: &own_h_dot,
    };
    own.check_caps()?;
    g.copy_from_slice(&own_g);
    h.copy_from_slice(&own_h);
    g_dot.copy_from_slice(&own_g_dot);
    h_dot.copy_from_slice(&own_h_dot);
    Ok(i32::from(number(contents.epoch_year)))
}
