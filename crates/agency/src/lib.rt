// The agency's coefficient file, WMM.COF: a header with its epoch, a line for each degree and order,
// then lines of nines. It is read whole into lists of its own before the lent ones are written.
#![tactic(auto)]

mod entries;
mod file;

ghost use Rattle.std.specs.Prelude.{◌≡◌};
ghost use Rattle.refusals.specs.Paper.{said};
ghost use Rattle.lists.specs.Sets.{left, lists_of};
ghost use Rattle.agency.specs.Cof.{read_of};

use lists::Lists;
use refusals::Refusal;

// The epoch year of a coefficient file, and its four lists. Refusals: 6, then 13 and 14 in file order,
// then 7; a refused file leaves the four lists as they were. They are lent one by one, as a caller
// in C lends them.
pub fn read(
    text: &[u8],
    g: &mut [f32],
    h: &mut [f32],
    g_dot: &mut [f32],
    h_dot: &mut [f32],
) -> Result<i32, Refusal>
    ensures answer { left (said result) (lists_of g.new h.new g_dot.new h_dot.new)
        ≡ read_of text.now (lists_of g.old h.old g_dot.old h_dot.old) }
    ensures kept { text.exit.now ≡ text.entry.now }
{
    let lent = Lists { g, h, g_dot, h_dot };
    if !lent.are_long() {
        return Err(Refusal::Length);
    }
    let set = file::read(text)?;
    set.lists().check_caps()?;
    g.copy_from_slice(&set.g);
    h.copy_from_slice(&set.h);
    g_dot.copy_from_slice(&set.g_dot);
    h_dot.copy_from_slice(&set.h_dot);
    Ok(set.epoch_year)
}
