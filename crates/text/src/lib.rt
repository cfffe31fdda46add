// Lines, words and decimal numbers of lent bytes. Every function answers for all bytes.
#![tactic(auto)]

mod decimals;
mod nearest;
mod spans;

ghost use Rattle.std.specs.Prelude.{◌≡◌, drop, slice_range, take};
ghost use Rattle.text.specs.Bytes.{blank};
ghost use Rattle.text.specs.Lines.{first_line, line_places};
ghost use Rattle.text.specs.Words.{first_word, word_places};
ghost use Rattle.text.specs.Decimals.{decimal_of, number_of, whole_of};

const TAB: u8 = b'\t';

const SPACE: u8 = b' ';

// The first line, without what ends it, and what stands after that.
#[derive(Clone, Copy)]
pub struct FirstLine<'a> {
    pub line: &'a [u8],
    pub rest: &'a [u8],
}

// The first word, and what stands after it. Without a word both are empty.
#[derive(Clone, Copy)]
pub struct FirstWord<'a> {
    pub word: &'a [u8],
    pub rest: &'a [u8],
}

// A decimal number: its digits as one whole number, and how many of them stand after the point.
#[derive(Clone, Copy)]
pub struct Decimal {
    pub minus: bool,
    pub digits: u32,
    pub places: u32,
}

pub fn first_line(s: &[u8]) -> FirstLine<'_>
    ensures line { result.line.now ≡ take (first_line s.now).end s.now }
    ensures rest { result.rest.now ≡ drop (first_line s.now).next s.now }
    ensures places { line_places s.now result.line.now result.rest.now ≡ first_line s.now }
    ensures kept { s.exit.now ≡ s.entry.now }
{
    let Some(at) = spans::line_feed(s) else {
        return FirstLine { line: s, rest: &[] };
    };
    FirstLine {
        line: spans::without_return(&s[..at]),
        rest: &s[at + 1..],
    }
}

// A space or a tab.
pub fn is_blank(c: u8) -> bool
    ensures { result ≡ blank c }
{
    c == SPACE || c == TAB
}

pub fn first_word(s: &[u8]) -> FirstWord<'_>
    ensures word { let w = first_word s.now in result.word.now ≡ slice_range s.now w.start w.end }
    ensures rest { result.rest.now ≡ drop (first_word s.now).end s.now }
    ensures places { word_places s.now result.word.now result.rest.now ≡ first_word s.now }
    ensures kept { s.exit.now ≡ s.entry.now }
{
    let words = &s[spans::blanks(s)..];
    let (word, rest) = words.split_at(spans::word_len(words));
    FirstWord { word, rest }
}

// A word as a number: an optional minus, digits, and optionally a point with digits after it; nine
// digits at most.
pub fn read_decimal(s: &[u8]) -> Option<Decimal>
    ensures answer { result ≡ decimal_of s.now }
    ensures kept { s.exit.now ≡ s.entry.now }
{
    decimals::read_decimal(s)
}

// The f32 nearest to it, ties to even.
#[tactic(auto, using(crate::proofs::Bounds::bounds), unfolding(crate::specs::Decimals::number_of))]
pub fn read_number(s: &[u8]) -> Option<f32>
    ensures answer { result ≡ number_of s.now }
    ensures kept { s.exit.now ≡ s.entry.now }
{
    Some(nearest::nearest(read_decimal(s)?))
}

// A number whose digits after the point are all 0.
#[tactic(auto, using(crate::proofs::Bounds::bounds), unfolding(crate::specs::Decimals::whole_of))]
pub fn read_whole(s: &[u8]) -> Option<i32>
    ensures answer { result ≡ whole_of s.now }
    ensures kept { s.exit.now ≡ s.entry.now }
{
    nearest::whole(read_decimal(s)?)
}
