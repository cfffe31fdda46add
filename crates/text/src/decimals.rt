// Reading a decimal number. A word is left at the first byte that it may not have, so a long one
// costs no more than one of ten bytes, and no number wraps.
ghost use Rattle.std.specs.Prelude.{◌≡◌, ◌≤◌, ◌+◌, ◌*◌, ◌^◌};
ghost use Rattle.text.specs.Decimals.{decimal_of, plain_of};
ghost use Rattle.text.specs.Scan.{Ran};

use crate::Decimal;

// The most digits of a number.
const MOST: u32 = 9;

const MINUS: &[u8] = b"-";

const POINT: u8 = b'.';

// Where a run of digits ended: the number so far, how many more digits there could have been, and what stands
// after it.
#[derive(Clone, Copy)]
struct Ended<'a> {
    value: u32,
    left: u32,
    rest: &'a [u8],
}

// The digits that stand first, at most `most` of them, written after `value`.
fn run(s: &[u8], most: u32, value: u32) -> Ended<'_>
    requires { (value + 1) * 10 ^ most ≤ 10 ^ 9 }
    ensures { Ran s.now most value result.rest.now result.left result.value }
{
    let mut value = value;
    let mut left = most;
    for (i, c) in s.iter().enumerate() {
        if left == 0 || !c.is_ascii_digit() {
            return Ended {
                value,
                left,
                rest: &s[i..],
            };
        }
        value = value * 10 + u32::from(*c - b'0');
        left -= 1;
    }
    Ended {
        value,
        left,
        rest: &s[s.len()..],
    }
}

// The number of bytes that have no sign.
fn numeral(s: &[u8], minus: bool) -> Option<Decimal>
    ensures { result ≡ plain_of minus s.now }
{
    let whole = run(s, MOST, 0);
    if whole.left == MOST {
        return None;
    }
    let Some((next, places)) = whole.rest.split_first() else {
        return Some(Decimal {
            minus,
            digits: whole.value,
            places: 0,
        });
    };
    if *next != POINT {
        return None;
    }
    let all = run(places, whole.left, whole.value);
    if all.left == whole.left || !all.rest.is_empty() {
        return None;
    }
    Some(Decimal {
        minus,
        digits: all.value,
        places: whole.left - all.left,
    })
}

#[tactic(auto, using(crate::proofs::Digits::minus_first, crate::proofs::Digits::no_minus))]
pub fn read_decimal(s: &[u8]) -> Option<Decimal>
    ensures { result ≡ decimal_of s.now }
{
    match s.strip_prefix(MINUS) {
        Some(unsigned) => numeral(unsigned, true),
        None => numeral(s, false),
    }
}
